//! Runs, and what is said of them. What is expected was worked out by hand from the rules.

use asio_types::{SureSink, SureSource};
use run_lines::{BadLine, Code, Doing, Line, Word};
use run_reader::LineReader;
use run_rules::{Level, Rule, Strictness};
use run_verdict::{Against, Ending, Judge, find_against, judge_run, take_run, write_ending};
use std::alloc::Global;
use std::process::Abort;
use std::test::Fail;

/// The level at which streams are looked at.
const STREAMS: Level = Level {
    streams: true,
    strictness: Strictness::Plain,
};

/// The level of runs whose calls take effect in one order.
const STRICT: Level = Level {
    streams: false,
    strictness: Strictness::Strict,
};

/// Lines behind the header that may come, the next line, the rule that it breaks, and the number of
/// the line that stands against it: 0 where none does.
const BROKEN: [(&str, &str, Rule, u64); 27] = [
    ("0 call 1 post 0 - -", "0 call 1 post 0 - -", Rule::New, 2),
    (
        "0 call 0 read 0 - 9",
        "1 call 1 read 0 - 9",
        Rule::Single,
        2,
    ),
    (
        "0 call 0 post 0 - - / 0 call 1 post 0 - -",
        "0 back 0",
        Rule::Returns,
        3,
    ),
    (
        "0 call 0 post 0 - - / 1 begin 0 ok 0",
        "1 drop 0",
        Rule::Waiting,
        3,
    ),
    (
        "0 call 0 post 0 - - / 0 drop 0",
        "1 begin 0 ok 0",
        Rule::Waiting,
        3,
    ),
    (
        "0 call 0 post 0 - -",
        "1 done 0 ok 0",
        Rule::Asynchronous,
        2,
    ),
    (
        "0 call 0 wait 0 - - / 1 done 0 aborted 0",
        "1 done 0 aborted 0",
        Rule::DoneOnce,
        3,
    ),
    (
        "0 call 0 read 0 - 9 / 1 done 0 eof 3",
        "1 begin 0 eof 4",
        Rule::Outcome,
        3,
    ),
    (
        "0 call 0 post 0 - -",
        "1 begin 0 aborted 0",
        Rule::Outcome,
        2,
    ),
    (
        "0 call 0 post 0 5 - / 0 call 1 post 0 5 - / 1 begin 0 ok 0",
        "2 begin 1 ok 0",
        Rule::Free,
        4,
    ),
    (
        "0 call 0 post 0 5 - / 1 begin 0 ok 0 / 1 call 1 post 0 5 -",
        "1 begin 1 ok 0",
        Rule::Free,
        3,
    ),
    (
        "0 call 0 post 0 5 - / 0 call 1 post 0 5 -",
        "1 begin 1 ok 0",
        Rule::First,
        3,
    ),
    (
        "0 call 0 post 0 - - / 1 begin 0 ok 0",
        "2 end 0",
        Rule::Innermost,
        3,
    ),
    (
        "0 call 0 post 0 - - / 0 call 1 post 0 - - / 1 begin 0 ok 0 / 1 begin 1 ok 0",
        "1 end 0",
        Rule::Innermost,
        5,
    ),
    (
        "0 call 0 post 0 - - / 1 begin 0 ok 0 / 1 claim 7 / 1 claim 8 / 1 release 8",
        "1 end 0",
        Rule::Clean,
        4,
    ),
    (
        "0 call 0 post 0 - - / 1 begin 0 ok 0 / 1 lock 7",
        "1 throw 0",
        Rule::Clean,
        4,
    ),
    ("0 claim 7", "1 claim 7", Rule::Untouched, 2),
    (
        "0 claim 7 / 0 claim 7 / 0 release 7",
        "1 claim 7",
        Rule::Untouched,
        3,
    ),
    ("0 lock 7", "1 lock 7", Rule::Unlocked, 2),
    ("0 claim 7", "1 release 7", Rule::Claimed, 0),
    ("0 lock 7 / 0 unlock 7", "0 unlock 7", Rule::Locked, 0),
    ("0 mark 3", "1 after 4", Rule::Marked, 0),
    (
        "name strand 0 room / name thing 1 members / 0 call 0 post 0 0 - / 0 call 1 post 0 0 -",
        "2 begin 1 ok 0",
        Rule::First,
        5,
    ),
    (
        "name strand 0 room / name thing 1 members / 0 call 0 post 0 0 - / 0 call 1 post 0 0 - / 1 begin 0 ok 0 / 1 claim 1",
        "2 begin 1 ok 0",
        Rule::Free,
        6,
    ),
    (
        "name strand 0 room / name thing 1 members / 0 call 0 post 0 0 - / 0 call 1 post 0 0 - / 1 begin 0 ok 0 / 1 claim 1 / 1 call 2 wait 0 - 9 / 1 release 1 / 1 end 0 / 2 begin 1 ok 0 / 2 claim 1 / 2 cancel 9 / 1 begin 2 aborted 0 / 1 lock 3",
        "1 claim 1",
        Rule::Untouched,
        12,
    ),
    (
        "0 call 0 post 0 - - / 1 begin 0 ok 0 / 1 end 0",
        "1 end 0",
        Rule::Innermost,
        4,
    ),
    (
        "0 call 0 dispatch 0 5 - / 1 begin 0 ok 0 / 1 call 1 dispatch 0 5 - / 1 begin 1 ok 0 / 0 call 2 post 0 5 -",
        "2 begin 2 ok 0",
        Rule::Free,
        5,
    ),
];

/// The same at the strict level.
const STRICTLY_BROKEN: [(&str, &str, Rule, u64); 10] = [
    ("0 call 0 wait 0 - -", "1 begin 0 ok 0", Rule::Ready, 2),
    (
        "0 call 0 post 0 5 - / 1 call 1 post 0 5 -",
        "2 begin 1 ok 0",
        Rule::Order,
        2,
    ),
    (
        "0 call 0 post 0 5 - / 1 begin 0 ok 0 / 0 call 1 post 0 5 - / 1 call 2 dispatch 0 5 - / 1 end 0",
        "1 begin 1 ok 0",
        Rule::Order,
        5,
    ),
    (
        "0 call 0 post 0 5 - / 1 begin 0 ok 0 / 0 call 1 post 0 5 - / 1 call 2 dispatch 0 5 - / 1 call 3 dispatch 0 5 - / 1 end 0 / 1 begin 2 ok 0 / 1 end 2",
        "1 begin 1 ok 0",
        Rule::Order,
        6,
    ),
    (
        "0 call 0 post 0 - - / 0 stop 0 / 0 restart 0 / 0 stop 0",
        "1 begin 0 ok 0",
        Rule::Stopped,
        5,
    ),
    (
        "0 call 0 post 0 - - / 0 call 1 post 0 - - / 1 begin 0 ok 0",
        "1 begin 1 ok 0",
        Rule::Nested,
        4,
    ),
    (
        "0 call 0 post 0 - - / 0 call 1 post 0 - - / 1 begin 0 ok 0",
        "0 drop 1",
        Rule::Finishing,
        4,
    ),
    (
        "0 call 0 post 0 - - / 0 call 1 post 0 - - / 0 drop 1",
        "0 drop 0",
        Rule::Finishing,
        4,
    ),
    (
        "0 call 0 post 0 - - / 0 call 1 post 0 - - / 0 drop 0",
        "1 begin 1 ok 0",
        Rule::Finishing,
        4,
    ),
    (
        "0 call 0 post 0 - - / 0 drop 0",
        "0 mark 1",
        Rule::Finishing,
        3,
    ),
];

/// A run that is legal at the strict level alone: what a handler dispatches to its own strand goes
/// before what was posted there.
const DISPATCHED: &str =
    "0 call 0 post 0 5 -\n1 begin 0 ok 0\n0 call 1 post 0 5 -\n0 mark 1\n1 call 2 dispatch 0 5 -\n1 end 0\n2 begin 2 ok 0\n2 end 2\n1 begin 1 ok 0\n1 end 1\n";

/// Runs behind the header, and what is said of them.
const SAID: [(&str, &str); 14] = [
    ("", "legal\n"),
    (
        "name strand 0 room\nname thing 1 members\n0 call 0 post 0 0 -\n0 call 1 post 0 0 -\n1 begin 0 ok 0\n1 claim 1\n1 call 2 wait 0 - 9\n1 release 1\n1 end 0\n2 begin 1 ok 0\n2 claim 1\n2 cancel 9\n2 release 1\n2 end 1\n1 begin 2 aborted 0\n1 lock 3\n1 claim 1\n1 release 1\n1 unlock 3\n1 end 2\n",
        "legal\n",
    ),
    (
        "0 call 0 post 0 5 -\n1 call 1 post 0 5 -\n2 begin 1 ok 0\n2 end 1\n2 begin 0 ok 0\n2 end 0\n",
        "legal\n",
    ),
    (
        "0 call 0 wait 0 5 -\n0 call 1 post 0 5 -\n1 begin 1 ok 0\n1 end 1\n1 begin 0 ok 0\n1 end 0\n",
        "legal\n",
    ),
    (
        "0 call 0 dispatch 0 5 -\n0 begin 0 ok 0\n0 call 1 dispatch 0 5 -\n0 begin 1 ok 0\n0 end 1\n0 back 1\n0 end 0\n0 back 0\n",
        "legal\n",
    ),
    (
        "0 call 0 post 0 5 -\n1 begin 0 ok 0\n0 call 1 post 0 5 -\n0 mark 1\n1 call 2 dispatch 0 6 -\n1 begin 2 ok 0\n1 call 3 dispatch 0 5 -\n1 begin 3 ok 0\n1 end 3\n1 throw 2\n1 end 0\n2 begin 1 ok 0\n2 end 1\n",
        "legal\n",
    ),
    (
        "1 work 0\n0 mark 1\n1 after 1\n1 stop 0\n0 restart 0\n0 cancel 9\n",
        "legal\n",
    ),
    (
        "0 call 0 read 0 - 9\n0 call 1 write 0 - 9\n0 drop 0\n0 call 2 read 0 - 9\n1 drop 1\n1 drop 2\n",
        "legal\n",
    ),
    (
        "0 call 0 post 0 - -\n",
        "legal so far, 2 lines\nowed: 1 operations that wait\n",
    ),
    (
        "0 call 0 post 0 - -\n1 begin 0 ok 0\n1 lock 2\n",
        "legal so far, 4 lines\nowed: 1 threads that execute handlers\nowed: 1 claims and locks\n",
    ),
    (
        "0 claim 7\n1 claim 7\n",
        "illegal at line 3: 1 claim 7\nrule: Untouched\nwanted: no other thread has claimed this\n",
    ),
    (
        "0 call 0 - 0 - -\n",
        "bad run at line 2: word 4: expected a small letter and up to 31 small letters, digits and _\n",
    ),
    (
        "0 mark 1\n0 mark",
        "bad run at line 3: expected a line feed at its end\n",
    ),
    (
        "\n",
        "bad run at line 2: word 1: expected the number of a thread, or name\n",
    ),
];

/// A run with these lines behind its header.
fn run_of(alloc: Global, front: &str, last: &str) -> Result<Vec<u8>, Fail> {
    let mut run = Vec::from_slice(alloc, b"run 1\n")?;
    for line in front.split(" / ") {
        run.extend_from_slice(line.as_bytes())?;
        run.push(b'\n')?;
    }
    run.extend_from_slice(last.as_bytes())?;
    run.push(b'\n')?;
    Ok(run)
}

/// The rule that a run was found to break.
fn rule_of(ending: &Ending) -> Option<Rule> {
    match ending {
        Ending::Illegal { rule, .. } => Some(*rule),
        _ => None,
    }
}

/// The number of the line that stands against another one.
fn number_of(against: &Option<Against>) -> u64 {
    match against {
        Some(line) => line.at,
        None => 0,
    }
}

/// The rule that a run breaks, and the number of the line that stands against it, by a judge that has
/// followed nothing.
fn found_by(
    alloc: Global,
    level: Level,
    judge: &mut Judge,
    source: &mut SureSource,
    again: &mut SureSource,
) -> Result<(Option<Rule>, u64), Fail> {
    // the borrow checker's plan has to be told of the types within
    let _word: Option<Word> = None;
    let _code: Option<Code> = None;
    let _does: Option<Doing> = None;
    let mut reader = LineReader::make(alloc)?;
    let mut reader_again = LineReader::make(alloc)?;
    let ending = take_run(&mut reader, judge, source);
    let rule = rule_of(&ending);
    let mut judge_again = Judge::new(alloc, level);
    match find_against(&mut reader_again, judge, &mut judge_again, &ending, again) {
        Ok(against) => Ok((rule, number_of(&against))),
        Err(_) => Ok((None, 0)),
    }
}

/// The rule that a run breaks, and the number of the line that stands against it.
fn broken_by(alloc: Global, level: Level, run: &[u8]) -> Result<(Option<Rule>, u64), Fail> {
    let mut source = SureSource::make(alloc, run)?;
    let mut again = SureSource::make(alloc, run)?;
    let mut judge = Judge::new(alloc, level);
    found_by(alloc, level, &mut judge, &mut source, &mut again)
}

/// Whether each of these lines breaks its rule, and that line stands against it.
fn are_broken(
    alloc: Global,
    level: Level,
    table: &[(&str, &str, Rule, u64)],
) -> Result<bool, Fail> {
    for (front, broken, rule, at) in table {
        let run = run_of(alloc, front, broken)?;
        if broken_by(alloc, level, run.as_slice())? != (Some(*rule), *at) {
            return Ok(false);
        }
    }
    Ok(true)
}

#[test]
fn each_rule_is_broken_by_a_line_and_another_stands_against_it(
    rt: HostRuntime,
) -> Result<(), Fail> {
    assert!(&rt; are_broken(rt.alloc(), STREAMS, &BROKEN)?);
    assert!(&rt; are_broken(rt.alloc(), STRICT, &STRICTLY_BROKEN)?);
    Ok(())
}

/// Whether this is said of a run with this text behind its header.
fn is_said(alloc: Global, level: Level, text: &str, wanted: &str) -> Result<bool, Fail> {
    // the borrow checker's plan has to be told of the types within
    let _word: Option<Word> = None;
    let _code: Option<Code> = None;
    let _does: Option<Doing> = None;
    let _line: Option<Line> = None;
    let _bad: Option<BadLine> = None;
    let mut run = Vec::from_slice(alloc, b"run 1\n")?;
    run.extend_from_slice(text.as_bytes())?;
    let mut source = SureSource::make(alloc, run.as_slice())?;
    let mut said = SureSink::make(alloc, 512)?;
    let ending = judge_run(alloc, level, &mut source)?;
    write_ending(&mut said, &ending)?;
    Ok(said.bytes() == wanted.as_bytes())
}

#[test]
fn what_is_said_of_runs(rt: HostRuntime) -> Result<(), Fail> {
    for (text, wanted) in &SAID {
        assert!(&rt; is_said(rt.alloc(), STREAMS, text, wanted)?, "{text}");
    }
    assert!(&rt; is_said(rt.alloc(), STRICT, DISPATCHED, "legal\n")?);
    Ok(())
}
