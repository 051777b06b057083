//! Traces read back: each kind of event, the first bad line, and how many bytes a trace has.

use asio_types::{Code, Event};
use history_book::History;
use std::alloc::{AllocError, Global};
use std::test::Fail;
use trace_check::{TraceFault, read_trace};

// Each kind of event, each code, no act, and the least and the greatest numbers of each field.
const LINES: [(&str, Event); 24] = [
    ("call 0\n", Event::Call { act: 0 }),
    ("call 4294967295\n", Event::Call { act: 4294967295 }),
    ("back 7\n", Event::Back { act: 7 }),
    ("stop 10\n", Event::Stop { act: Some(10) }),
    ("stop -\n", Event::Stop { act: None }),
    (
        "begin 0 ok 0\n",
        Event::Begin {
            op: 0,
            code: Code::Ok,
            size: 0,
        },
    ),
    (
        "begin 1 aborted 20\n",
        Event::Begin {
            op: 1,
            code: Code::Aborted,
            size: 20,
        },
    ),
    (
        "begin 2 eof 3\n",
        Event::Begin {
            op: 2,
            code: Code::Eof,
            size: 3,
        },
    ),
    (
        "begin 30 not_found 0\n",
        Event::Begin {
            op: 30,
            code: Code::NotFound,
            size: 0,
        },
    ),
    (
        "done 4 bad 0\n",
        Event::Done {
            op: 4,
            code: Code::Bad,
            size: 0,
        },
    ),
    (
        "done 5 broken 100\n",
        Event::Done {
            op: 5,
            code: Code::Broken,
            size: 100,
        },
    ),
    (
        "done 4294967295 reset 4294967295\n",
        Event::Done {
            op: 4294967295,
            code: Code::Reset,
            size: 4294967295,
        },
    ),
    ("end 0 0\n", Event::End { op: 0, mark: 0 }),
    (
        "end 9 18446744073709551615\n",
        Event::End {
            op: 9,
            mark: 18446744073709551615,
        },
    ),
    ("take 12\n", Event::Take { act: 12 }),
    ("tick 0\n", Event::Tick { now: 0 }),
    (
        "tick 18446744073709551615\n",
        Event::Tick {
            now: 18446744073709551615,
        },
    ),
    ("last\n", Event::Last),
    ("fault\n", Event::Fault),
    ("ended\n", Event::Ended),
    ("stopped\n", Event::Stopped),
    ("polled\n", Event::Polled),
    ("restart\n", Event::Restart),
    ("drop 0 1000\n", Event::Dropped { op: 0, mark: 1000 }),
];

// Texts that are no trace, and the first line that is bad.
const BAD: [(&str, u32); 40] = [
    ("call 00\n", 1),
    ("call 01\n", 1),
    ("call -\n", 1),
    ("call +1\n", 1),
    ("call -1\n", 1),
    ("call x\n", 1),
    ("call \n", 1),
    ("call\n", 1),
    ("call 0", 1),
    ("call 0 \n", 1),
    ("call  0\n", 1),
    (" call 0\n", 1),
    ("call\t0\n", 1),
    ("call 0\r\n", 1),
    ("call 0 0\n", 1),
    ("call 4294967296\n", 1),
    ("call 18446744073709551616\n", 1),
    ("call 340282366920938463463374607431768211456\n", 1),
    ("Call 0\n", 1),
    ("calls 0\n", 1),
    ("stop\n", 1),
    ("stop --\n", 1),
    ("begin 0 ok\n", 1),
    ("begin 0 good 0\n", 1),
    ("begin 0 OK 0\n", 1),
    ("begin 0 ok 0 0\n", 1),
    ("done 0 ok 4294967296\n", 1),
    ("done 4294967296 ok 0\n", 1),
    ("end 0\n", 1),
    ("end 0 18446744073709551616\n", 1),
    ("drop 0\n", 1),
    ("drop 0 1000 0\n", 1),
    ("tick 18446744073709551616\n", 1),
    ("last 0\n", 1),
    ("last \n", 1),
    ("dropped 0 1000\n", 1),
    ("\n", 1),
    ("call 0\n\nback 0\n", 2),
    ("call 0\nback 0\nbegin 0 ok 0\nend 0 1O00\nended\n", 4),
    ("call 0\nback 0\nended", 3),
];

/// The bad line that a text is refused for.
fn bad_line(alloc: Global, text: &[u8]) -> Option<u32> {
    match read_trace(alloc, text) {
        Err(TraceFault::Text { line }) => Some(line),
        Ok(_) | Err(TraceFault::NoMemory) => None,
    }
}

/// The history that a text is the trace of.
fn history_in(alloc: Global, text: &[u8]) -> Result<History, Fail> {
    Ok(read_trace(alloc, text).or(Err("refused"))?)
}

/// This text, so often, and then the other one.
fn repeated(alloc: Global, text: &[u8], count: u32, end: &[u8]) -> Result<Vec<u8>, AllocError> {
    let mut whole = Vec::new(alloc);
    for _ in 0..count {
        whole.extend_from_slice(text)?;
    }
    whole.extend_from_slice(end)?;
    Ok(whole)
}

#[test]
fn each_kind_of_event_is_read(rt: HostRuntime) -> Result<(), Fail> {
    for (text, event) in &LINES {
        let history = history_in(rt.alloc(), text.as_bytes())?;
        assert_eq!(rt; history.events(), [*event].as_slice(), "{text}");
    }
    Ok(())
}

#[test]
fn events_are_read_in_order(rt: HostRuntime) -> Result<(), Fail> {
    let text = b"call 0\nback 0\ncall 1\nstop 1\nback 1\nstopped\ndrop 0 1000\n";
    let events = [
        Event::Call { act: 0 },
        Event::Back { act: 0 },
        Event::Call { act: 1 },
        Event::Stop { act: Some(1) },
        Event::Back { act: 1 },
        Event::Stopped,
        Event::Dropped { op: 0, mark: 1000 },
    ];
    let history = history_in(rt.alloc(), text)?;
    assert_eq!(rt; history.events(), events.as_slice());
    let none = history_in(rt.alloc(), b"")?;
    assert!(rt; none.events().is_empty());
    Ok(())
}

#[test]
fn the_first_bad_line_is_named(rt: HostRuntime) {
    for (text, line) in &BAD {
        assert_eq!(rt;
            bad_line(rt.alloc(), text.as_bytes()),
            Some(*line),
            "{text}"
        );
    }
    let unprintable = b"ended\ncall 1\xFF\n";
    assert_eq!(rt; bad_line(rt.alloc(), unprintable), Some(2));
}

#[test]
fn a_trace_has_so_many_bytes(rt: HostRuntime) -> Result<(), Fail> {
    let alloc = rt.alloc();
    let most = repeated(alloc, b"last\n", 209714, b"ended\n").or(Err("memory"))?;
    assert_eq!(rt; most.len(), 1048576);
    let history = history_in(alloc, most.as_slice())?;
    assert_eq!(rt; history.events().len(), 209715);
    let late = repeated(alloc, b"last\n", 209715, b"e").or(Err("memory"))?;
    assert_eq!(rt; bad_line(alloc, late.as_slice()), Some(209716));
    let long = repeated(alloc, b"last\n", 209715, b"\n\n").or(Err("memory"))?;
    assert_eq!(rt; bad_line(alloc, long.as_slice()), Some(0));
    Ok(())
}
