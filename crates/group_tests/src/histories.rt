//! Which histories of a group are legal. The traces were worked out by hand from the rules.

use crate::making::{MEMORY, Setup, text_in};
use asio_types::{SureSink, SureSource};
use parallel_group::{Member, WaitFor};
use std::alloc::Global;
use std::process::Abort;
use trace_check::check_session;

/// A wait of 5 and a wait of 9.
const TWO: &[Member] = &[Member::Wait { after: 5 }, Member::Wait { after: 9 }];

/// A rule, a trace whose lines ` / ` separates, and what the checker says of it.
type Row = (WaitFor, &'static str, &'static str);

/// The wait of 5 cancels the other one where one is asked, and before anything else completes;
/// where all are asked both expire.
const ROWS: &[Row] = &[
    (
        WaitFor::One,
        "call 0 / back 0 / call 1 / back 1 / call 5 / back 5 / call 6 / back 6 / take 0 / take 1 / take 5 / take 6 / tick 5 / done 1 ok 0 / begin 1 ok 0 / call 2 / back 2 / end 1 1001 / take 2 / done 6 aborted 0 / begin 6 aborted 0 / call 8 / back 8 / end 6 1006 / take 8 / ended",
        "legal\n",
    ),
    (
        WaitFor::One,
        "call 0 / back 0 / call 1 / back 1 / call 5 / back 5 / call 6 / back 6 / take 0 / take 1 / take 5 / take 6 / tick 5 / done 1 ok 0 / begin 1 ok 0 / call 2 / back 2 / end 1 1001 / take 2 / tick 9 / done 6 ok 0",
        "illegal at line 20\n",
    ),
    (
        WaitFor::All,
        "call 0 / back 0 / call 1 / back 1 / call 2 / back 2 / call 3 / back 3 / take 0 / take 1 / take 2 / take 3 / tick 5 / done 1 ok 0 / begin 1 ok 0 / end 1 1001 / tick 9 / done 3 ok 0 / begin 3 ok 0 / end 3 1003 / ended",
        "legal\n",
    ),
];

/// The checker's input: a script, the line `--`, and the lines of a trace.
fn input_of<R: Abort>(rt: &R, alloc: Global, script: &[u8], trace: &str) -> Vec<u8> {
    let mut input = Vec::from_slice(alloc, script).expect(rt, MEMORY);
    input.extend_from_slice(b"\n--\n").expect(rt, MEMORY);
    for line in trace.split(" / ") {
        input.extend_from_slice(line.as_bytes()).expect(rt, MEMORY);
        input.push(b'\n').expect(rt, MEMORY);
    }
    input
}

/// What the checker says of a trace of a script.
fn verdict_on<R: Abort>(rt: &R, alloc: Global, input: &[u8]) -> String {
    let mut source = SureSource::make(alloc, input).expect(rt, MEMORY);
    let mut out = SureSink::make(alloc, 64).expect(rt, MEMORY);
    let mut notes = SureSink::make(alloc, 256).expect(rt, MEMORY);
    let _status = check_session(alloc, &[], &mut source, &mut out, &mut notes);
    String::from_utf8_lossy(alloc, out.bytes()).expect(rt, MEMORY)
}

/// A trace of a group is judged so.
fn is_judged<R: Abort>(rt: &R, alloc: Global, row: Row) {
    let (rule, trace, want) = row;
    let setup = Setup {
        members: TWO,
        rule,
        types: 1,
        workers: 1,
    };
    let script = text_in(rt, alloc, 0, &[], setup).expect(rt, want);
    let input = input_of(rt, alloc, script.as_slice(), trace);
    let verdict = verdict_on(rt, alloc, input.as_slice());
    assert_eq!(rt; verdict.as_str(), want, "{trace}");
}

#[test]
fn the_histories_of_a_group_go_by_its_rule(rt: HostRuntime) {
    for &row in ROWS {
        is_judged(&rt, rt.alloc(), row);
    }
}
