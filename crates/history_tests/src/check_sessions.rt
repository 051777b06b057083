//! Whole sessions of the checker. The expected lines were worked out by hand from the rules.

use asio_types::{Sink, SlowSource, Source, SureSink, SureSource, TextSink, TextSource};
use std::alloc::Global;
use std::process::Abort;
use std::test::Fail;
use trace_check::{CheckStatus, check_session};

const ONE: &str = "session 1 open { post - { } } run 1";

const ONE_TRACE: &str = "call 0 / back 0 / begin 0 ok 0 / end 0 1000 / ended";

/// What a session left, but for what it wrote.
#[derive(Drop)]
struct Left {
    status: CheckStatus,
    note: String,
}

/// A session with these words, this source and this out.
fn session<S: Source, K: Sink>(
    alloc: Global,
    words: &str,
    source: &mut S,
    out: &mut K,
) -> Result<Left, Fail> {
    let mut list = Vec::new(alloc);
    for word in words.split_whitespace() {
        list.push(String::from_str(alloc, word)?)?;
    }
    let mut notes = SureSink::make(alloc, 256)?;
    let status = check_session(alloc, list.as_slice(), source, out, &mut notes);
    let note = String::from_utf8_lossy(alloc, notes.bytes())?;
    Ok(Left { status, note })
}

/// A session without words, whose source gives a few bytes at a time.
fn read_slowly<K: Sink>(alloc: Global, input: &[u8], out: &mut K) -> Result<Left, Fail> {
    let mut source = SlowSource::make(alloc, input, 7)?;
    session(alloc, "", &mut source, out)
}

/// The script, the line `--`, and the lines of the trace, which ` / ` separates.
fn input_of(alloc: Global, script: &str, trace: &str) -> Result<String, Fail> {
    let mut input = String::from_str(alloc, script)?;
    input.push_str("\n--\n")?;
    if !trace.is_empty() {
        for line in trace.split(" / ") {
            input.push_str(line)?;
            input.push_str("\n")?;
        }
    }
    Ok(input)
}

/// A session of these words on this input has this status, and writes this line and this note.
fn says(
    rt: &impl Abort,
    alloc: Global,
    words: &str,
    input: &str,
    want: (CheckStatus, &str, &str),
) -> Result<(), Fail> {
    let mut source = SureSource::make(alloc, input.as_bytes())?;
    let mut out = SureSink::make(alloc, 64)?;
    let left = session(alloc, words, &mut source, &mut out)?;
    let line = String::from_utf8_lossy(alloc, out.bytes())?;
    assert_eq!(rt;
        (left.status, line.as_str(), left.note.as_str()),
        want,
        "{input}"
    );
    Ok(())
}

#[test]
fn the_first_session_is_legal(rt: HostRuntime) -> Result<(), Fail> {
    let alloc = rt.alloc();
    for words in ["", "--net"] {
        let input = input_of(alloc, ONE, ONE_TRACE)?;
        says(
            &rt,
            alloc,
            words,
            input.as_str(),
            (CheckStatus::Done, "legal\n", ""),
        )?;
    }
    Ok(())
}

#[test]
fn what_may_not_happen_is_named_by_its_line(rt: HostRuntime) -> Result<(), Fail> {
    let alloc = rt.alloc();
    let stopped = "session 1 strands 1 open { post 0 { stop } post 0 { } post 0 { } } run 1";
    let exchanged =
        "call 0 / back 0 / call 2 / back 2 / call 3 / back 3 / begin 0 ok 0 / call 1 / stop 1 / back 1 / end 0 1000 / stopped / drop 3 1003 / drop 2 1002";
    let early = "call 0 / begin 0 ok 0 / back 0 / end 0 1000 / ended";
    for (script, trace, line) in [
        (ONE, early, "illegal at line 2\n"),
        (ONE, "call 4000", "illegal at line 1\n"),
        (stopped, exchanged, "illegal at line 13\n"),
    ] {
        let input = input_of(alloc, script, trace)?;
        says(
            &rt,
            alloc,
            "",
            input.as_str(),
            (CheckStatus::Illegal, line, ""),
        )?;
    }
    Ok(())
}

#[test]
fn a_missing_end_is_told_by_the_number_of_lines(rt: HostRuntime) -> Result<(), Fail> {
    let alloc = rt.alloc();
    let open = "call 0 / back 0 / begin 0 ok 0 / end 0 1000";
    for (trace, line) in [
        (open, "incomplete after line 4\n"),
        ("", "incomplete after line 0\n"),
    ] {
        let input = input_of(alloc, ONE, trace)?;
        says(
            &rt,
            alloc,
            "",
            input.as_str(),
            (CheckStatus::Illegal, line, ""),
        )?;
    }
    Ok(())
}

#[test]
fn a_bad_trace_is_told_by_its_line(rt: HostRuntime) -> Result<(), Fail> {
    let alloc = rt.alloc();
    let first = "asio_check: bad trace at line 1\n";
    let none = "asio_check: bad trace at line 0\n";
    let fourth = "asio_check: bad trace at line 4\n";
    for (input, note) in [
        ("session 1 open { post - { } } run 1\n--\ncall 00\n", first),
        ("session 1 open { } run 1\n--\nended", first),
        ("session 1 open { } run 1\n--\n--\n", first),
        (
            "session 1 open { } run 1\n--\nended\nended\nended\n\n",
            fourth,
        ),
        ("session 1 open { } run 1\n", none),
        ("session 1 open { } run 1\n--", none),
        ("session 1 open { } run 1\n -- \nended\n", none),
        ("", none),
    ] {
        says(&rt, alloc, "", input, (CheckStatus::BadTrace, "", note))?;
    }
    Ok(())
}

#[test]
fn the_script_is_judged_before_the_trace(rt: HostRuntime) -> Result<(), Fail> {
    let alloc = rt.alloc();
    let first = "asio_check: refused 4 at line 1 token 1\n";
    let fifth = "asio_check: refused 4 at line 2 token 5\n";
    for (input, note) in [
        ("--\n", first),
        ("--\ncall 00\n", first),
        ("session 1\nopen { jump } run 1\n--\ncall 00\n", fifth),
    ] {
        says(&rt, alloc, "", input, (CheckStatus::Refused, "", note))?;
    }
    Ok(())
}

#[test]
fn other_words_get_the_usage(rt: HostRuntime) -> Result<(), Fail> {
    let alloc = rt.alloc();
    let usage = "asio_check: usage: asio_check [--net]\n";
    for words in ["x", "--net x", "--nets", "--"] {
        let input = input_of(alloc, ONE, ONE_TRACE)?;
        says(
            &rt,
            alloc,
            words,
            input.as_str(),
            (CheckStatus::Usage, "", usage),
        )?;
    }
    Ok(())
}

#[test]
fn an_untold_network_may_say_what_a_told_world_may_not(rt: HostRuntime) -> Result<(), Fail> {
    let alloc = rt.alloc();
    let script = "session 1 streams 1 open { read 0 1 - - { } } run 1";
    let trace = "call 0 / back 0 / take 0 / done 0 ok 1 / begin 0 ok 1 / end 0 1000 / ended";
    let input = input_of(alloc, script, trace)?;
    says(
        &rt,
        alloc,
        "--net",
        input.as_str(),
        (CheckStatus::Done, "legal\n", ""),
    )?;
    let illegal = "illegal at line 4\n";
    says(
        &rt,
        alloc,
        "",
        input.as_str(),
        (CheckStatus::Illegal, illegal, ""),
    )
}

#[test]
fn a_failed_read_gives_no_verdict(rt: HostRuntime) -> Result<(), Fail> {
    let alloc = rt.alloc();
    let input = input_of(alloc, ONE, ONE_TRACE)?;
    let mut source = TextSource::make(alloc, input.as_bytes(), &[1])?;
    let mut out = SureSink::make(alloc, 64)?;
    let left = session(alloc, "", &mut source, &mut out)?;
    assert_eq!(rt;
        (left.status, left.note.as_str()),
        (CheckStatus::ReadFault, "asio_check: read fault\n")
    );
    assert!(rt; out.bytes().is_empty());
    Ok(())
}

#[test]
fn a_failed_write_leaves_a_first_part(rt: HostRuntime) -> Result<(), Fail> {
    let alloc = rt.alloc();
    let input = input_of(alloc, ONE, "call 0")?;
    let mut out = TextSink::make(alloc, 64, &[2])?;
    let left = read_slowly(alloc, input.as_bytes(), &mut out)?;
    assert_eq!(rt;
        (left.status, left.note.as_str()),
        (CheckStatus::WriteFault, "asio_check: write fault\n")
    );
    assert_eq!(rt; out.bytes(), b"incomplete after line ".as_slice());
    Ok(())
}
