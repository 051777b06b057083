//! What the command answers. The answers were worked out by hand from the rules.

use asio_types::{SureSink, SureSource};
use order_report::{OrdersStatus, orders_session};
use std::alloc::Global;
use std::test::Fail;

const TWO: &str = "session 1 open { post - { } post - { } } run 2";

const STRAND: &str = "session 1 strands 1 open { post 0 { } post 0 { } } run 2";

const STOP: &str = "session 1 open { post - { stop } post - { } } run 1";

// The reactor takes two requests in order, beside the handler that is posted: 4! / (2! 2!) orders.
const WAIT: &str = "session 1 timers 1 open { post - { } expires 0 3 wait 0 - - { } } run 1";

// The session of docs/TRACE.md.
const READ: &str =
    "session 1 strands 2 timers 1 slots 1 streams 1 at 3 feed 0 x6869 open { expires 0 5 wait 0 0 - { emit 0 1 } read 0 4 0 0 { } abort { dispatch 0 { } post 1 { } } } run 2";

// With ok and one or two bytes, with eof or reset; before time 1, there, or after the last time point.
const SENT: &str = "session 1 streams 1 at 1 feed 0 x61 open { readsome 0 2 - - { } } run 1";

// Words, which ` | ` separates, a script, and the first line that is written.
const ASKED: [(&str, &str, &str); 24] = [
    ("", TWO, "orders 6"),
    ("--list", STRAND, "orders 1"),
    ("--most | 2 | --list", TWO, "not all, orders 2"),
    ("", WAIT, "orders 6"),
    ("--handlers", TWO, "orders 6"),
    ("--most | 2 | --handlers", TWO, "not all, orders 2"),
    ("--can | begin 1 before end 0", TWO, "yes"),
    ("--can | end 1 before begin 0", TWO, "yes"),
    ("--can | overlap 0 1", TWO, "yes"),
    ("--can | drop 0", TWO, "never, orders 6"),
    ("--most | 2 | --can | drop 0", TWO, "not decided, orders 2"),
    ("--can | overlap 0 1", STRAND, "never, orders 1"),
    ("--can | end 1 before begin 0", STRAND, "never, orders 1"),
    ("--can | drop 2", STOP, "yes"),
    ("--can | begin 3 aborted", READ, "yes"),
    ("--can | begin 3 ok", READ, "never, orders 36"),
    ("--can | done 3 aborted 2", READ, "yes"),
    ("--can | begin 5 before end 3", READ, "yes"),
    ("--can | begin 3 before begin 1", READ, "never, orders 36"),
    ("--net", SENT, "orders 12"),
    ("--net | --list", SENT, "orders 12"),
    ("--net | --can | begin 0 ok 2", SENT, "yes"),
    ("--net | --can | begin 0 aborted", SENT, "never, orders 12"),
    ("--net | --most | 2 | --handlers", SENT, "not all, orders 2"),
];

// Words that are no command.
const REFUSED: [&str; 7] = [
    "--most | 2 | --net",
    "--can",
    "--can | begin",
    "--can | begin 1 after end 0",
    "--most | x",
    "--list | --list",
    "orders",
];

/// A session of these words on this script, and what it writes.
fn session(alloc: Global, words: &str, script: &str) -> Result<(OrdersStatus, String), Fail> {
    let mut list = Vec::new(alloc);
    if !words.is_empty() {
        for word in words.split(" | ") {
            list.push(String::from_str(alloc, word)?)?;
        }
    }
    let mut source = SureSource::make(alloc, script.as_bytes())?;
    let mut out = SureSink::make(alloc, 65_536)?;
    let mut notes = SureSink::make(alloc, 256)?;
    let status = orders_session(alloc, list.as_slice(), &mut source, &mut out, &mut notes);
    Ok((status, String::from_utf8_lossy(alloc, out.bytes())?))
}

#[test]
fn conditions_are_answered(rt: HostRuntime) -> Result<(), Fail> {
    for (words, script, want) in ASKED {
        let (status, told) = session(rt.alloc(), words, script)?;
        assert_eq!(rt; status, OrdersStatus::Done, "{}", words);
        let line = told.as_str().split("\n").next();
        assert_eq!(rt; line, Some(want), "{}", words);
    }
    Ok(())
}

#[test]
fn orders_of_handlers_have_begins_and_ends_alone(rt: HostRuntime) -> Result<(), Fail> {
    let (_, told) = session(rt.alloc(), "--handlers", WAIT)?;
    let want = "orders 1\n--\nbegin 0 ok 0\nend 0 1000\nbegin 2 ok 0\nend 2 1002\n";
    assert_eq!(rt; told.as_str(), want);
    Ok(())
}

#[test]
fn other_words_get_the_usage(rt: HostRuntime) -> Result<(), Fail> {
    for words in REFUSED {
        let (status, told) = session(rt.alloc(), words, TWO)?;
        assert_eq!(rt;
            (status, told.as_str()),
            (OrdersStatus::Usage, ""),
            "{}",
            words
        );
    }
    let (status, _) = session(rt.alloc(), "", "session")?;
    assert_eq!(rt; status, OrdersStatus::Refused);
    Ok(())
}
