//! Each call that can fail does so in turn, and the session ends with its cause.

ghost use Rattle.std.specs.Prelude.{◌<◌};

use crate::marked::PLAIN;
use crate::sessions::{BOTH, Call, Left, is_ended, is_judged, is_legal, left_by, session};
use crate::wanted::{MEMORY, has, is_bytes, is_lines, is_text, lacks, text_of};
use crate::worked::REALISTIC;
use asio_types::{SlowSink, SlowSource, SureSink, SureSource, TextSink, TextSource};
use reactor_script::{FailAt, Method};
use session_run::Status;
use std::alloc::Global;
use std::process::Abort;
use std::sync::Wait;
use std::thread::Threads;

/// The lines of each trace of the realistic session.
const LINES: u32 = 26;

const CUT_OFF: &str =
    "session 1 streams 1 at 1 feed 0 x61626364 at 1 end 0 open { read 0 10 - - { } } run 1";

const LATE: &str = "session 1 strands 4 timers 4 open { expires 3 74 wait 3 3 - { } } run 4";

/// What a session leaves where this call of a method of the reactor fails.
fn left_where_fails<R: Abort + Threads + Wait + Sync>(
    rt: &R,
    alloc: Global,
    call: Call,
    script: &str,
    fails: FailAt,
) -> Left {
    left_by(rt, alloc, call, "run", script, &[fails], PLAIN)
}

const REACTOR_FAULT: &str = "asio_run: reactor fault\n";

#[test]
fn a_failing_reactor_ends_in_a_fault(rt: HostRuntime) {
    for &call in BOTH {
        for &row in FAULTS {
            ends_in_a_fault(&rt, rt.alloc(), call, row);
        }
    }
}

/// Where the first call of a method fails, a session writes this trace, which is legal.
fn ends_in_a_fault<R: Abort + Threads + Wait + Sync>(
    rt: &R,
    alloc: Global,
    call: Call,
    row: (&str, Method, &str),
) {
    let (script, method, trace) = row;
    let left = left_where_fails(rt, alloc, call, script, FailAt { method, nth: 1 });
    is_ended(rt, &left.ended, Status::ReactorFault, REACTOR_FAULT, script);
    is_lines(rt, alloc, left.trace.as_str(), trace, script);
    is_legal(rt, alloc, script, left.trace.as_str());
}

/// Scripts with the method of which the first call fails, and their traces.
const FAULTS: &[(&str, Method, &str)] = &[
    (
        CUT_OFF,
        Method::Advance,
        "call 0 / back 0 / take 0 / fault / drop 0 1000",
    ),
    (CUT_OFF, Method::SetUp, "fault"),
    (
        LATE,
        Method::Advance,
        "call 0 / back 0 / call 1 / back 1 / take 0 / take 1 / fault / drop 1 1001",
    ),
    (LATE, Method::SetUp, "fault"),
];

/// Where the first call of a method fails, the trace of the realistic session has a fault, and no
/// tick to 10.
fn is_cut_off<R: Abort + Threads + Wait + Sync>(rt: &R, alloc: Global, call: Call, method: Method) {
    let left = left_where_fails(rt, alloc, call, REALISTIC, FailAt { method, nth: 1 });
    lacks(rt, left.trace.as_str(), "tick 10", REALISTIC);
}

#[test]
fn a_first_call_that_fails_cuts_the_session_off(rt: HostRuntime) {
    for &call in BOTH {
        for &method in METHODS {
            is_cut_off(&rt, rt.alloc(), call, method);
        }
    }
}

/// A session whose reactor failed shows it in a legal trace.
fn shows_its_fault<R: Abort>(rt: &R, alloc: Global, left: &Left, script: &str) {
    is_ended(rt, &left.ended, Status::ReactorFault, REACTOR_FAULT, script);
    has(rt, left.trace.as_str(), "fault\n", script);
    is_legal(rt, alloc, script, left.trace.as_str());
}

/// How many calls of a method a session of this script makes, each of which fails in a run of its
/// own; more than there are numbers to try, where they don't end.
fn calls_that_fail<R: Abort + Threads + Wait + Sync>(
    rt: &R,
    alloc: Global,
    call: Call,
    script: &str,
    method: Method,
) -> u32 {
    for nth in 1..MOST_CALLS {
        let left = left_where_fails(rt, alloc, call, script, FailAt { method, nth });
        if left.ended.status == Status::Done {
            return nth - 1;
        }
        shows_its_fault(rt, alloc, &left, script);
    }
    MOST_CALLS
}

/// More calls of a method than any of these sessions makes.
const MOST_CALLS: u32 = 200;

/// A session makes so many calls of a method at the least, and fewer than are tried.
fn fails_each_time<R: Abort>(rt: &R, calls: u32, least: u32, script: &str) {
    assert!(rt;
        least <= calls && calls < MOST_CALLS,
        "{calls} calls: {script}"
    );
}

#[test]
fn each_call_of_the_reactor_may_fail(rt: HostRuntime) {
    for &call in BOTH {
        for &(script, method, least) in CALLED {
            let calls = calls_that_fail(&rt, rt.alloc(), call, script, method);
            fails_each_time(&rt, calls, least, script);
        }
    }
}

/// Scripts with the least number of calls of a method: time is asked for at each time point, a
/// stream that bytes are wanted of is read, and one that takes a part is written again.
const CALLED: &[(&str, Method, u32)] = &[
    (REALISTIC, Method::SetUp, 1),
    (REALISTIC, Method::Advance, 1),
    (REALISTIC, Method::ReadSome, 1),
    (REALISTIC, Method::WriteSome, 1),
    (TWO_ROUNDS, Method::SetUp, 1),
    (TWO_ROUNDS, Method::Advance, 2),
    (GUARDED, Method::Advance, 1),
    (POLLED, Method::Advance, 2),
    (POLLED, Method::ReadSome, 1),
    (BUSY, Method::SetUp, 1),
    (BUSY, Method::Advance, 3),
    (BUSY, Method::ReadSome, 1),
    (BUSY, Method::WriteSome, 2),
];

const TWO_ROUNDS: &str =
    "session 1 timers 2 open { expires 0 5 wait 0 - - { stop } expires 1 9 wait 1 - - { } } run 1 restart run 1";

const GUARDED: &str =
    "session 1 timers 1 guards 1 open { expires 0 5 wait 0 - - { release 0 } post - { } } run 2";

const POLLED: &str =
    "session 1 timers 1 streams 1 at 1 feed 0 x61626364 open { read 0 4 - - { } expires 0 5 wait 0 - - { } } poll 1 run 1";

/// Sixteen workers.
const BUSY: &str =
    "session 1 strands 2 timers 2 streams 2 at 0 room 0 3 at 1 feed 1 x616263 at 3 room 0 4 open { write 0 x61626364656667 0 - { } read 1 3 1 - { } expires 0 5 wait 0 0 - { } expires 1 5 wait 1 1 - { } } run 16";

const METHODS: &[Method] = &[
    Method::SetUp,
    Method::Advance,
    Method::ReadSome,
    Method::WriteSome,
];

/// What a session leaves of a text in which this write fails, with the calls of the reactor that
/// fail: it ends with the fault of a write, and the out has what was written before.
fn written_before<R: Abort + Threads + Wait + Sync>(
    rt: &R,
    alloc: Global,
    call: Call,
    script: &str,
    nth: u32,
    fails: &[FailAt],
) -> String {
    let mut source = SureSource::make(alloc, script.as_bytes()).expect(rt, MEMORY);
    let mut out = TextSink::make(alloc, 4_096, &[nth]).expect(rt, MEMORY);
    let ended = session(rt, alloc, call, "run", &mut source, &mut out, fails, PLAIN);
    is_ended(
        rt,
        &ended,
        Status::WriteFault,
        "asio_run: write fault\n",
        script,
    );
    text_of(rt, alloc, out.bytes())
}

/// The checker finds that a trace of the realistic session ends after this line.
fn is_incomplete<R: Abort>(rt: &R, alloc: Global, trace: &str, line: u32) {
    let verdict = format!(in alloc; "incomplete after line {line}\n").expect(rt, MEMORY);
    is_judged(rt, alloc, "", REALISTIC, trace, verdict.as_str());
}

#[test]
fn a_failing_write_leaves_the_lines_before_it(rt: HostRuntime) {
    for &call in BOTH {
        for nth in 1..LINES + 1 {
            let trace = written_before(&rt, rt.alloc(), call, REALISTIC, nth, &[]);
            is_incomplete(&rt, rt.alloc(), trace.as_str(), nth - 1);
        }
    }
}

#[test]
fn a_failing_write_comes_before_a_failing_reactor(rt: HostRuntime) {
    for &call in BOTH {
        for &method in &[Method::SetUp, Method::Advance] {
            let fails = [FailAt { method, nth: 1 }];
            let trace = written_before(&rt, rt.alloc(), call, CUT_OFF, 1, &fails);
            is_text(&rt, trace.as_str(), "", CUT_OFF);
        }
    }
}

#[test]
fn a_failing_read_runs_nothing(rt: HostRuntime) {
    for &call in BOTH {
        for &words in &["run", "upgrade"] {
            runs_nothing(&rt, rt.alloc(), call, words);
        }
    }
}

/// Where the first read fails, a session of these words writes nothing.
fn runs_nothing<R: Abort + Threads + Wait + Sync>(rt: &R, alloc: Global, call: Call, words: &str) {
    let mut source = TextSource::make(alloc, REALISTIC.as_bytes(), &[1]).expect(rt, MEMORY);
    let mut out = SureSink::make(alloc, 256).expect(rt, MEMORY);
    let ended = session(rt, alloc, call, words, &mut source, &mut out, &[], PLAIN);
    is_ended(
        rt,
        &ended,
        Status::ReadFault,
        "asio_run: read fault\n",
        words,
    );
    is_bytes(rt, out.bytes(), b"", words);
}

/// The trace of the realistic session where each call moves so many bytes at the most.
fn trace_by_steps<R: Abort + Threads + Wait + Sync>(
    rt: &R,
    alloc: Global,
    call: Call,
    step: u32,
) -> String
    requires { 0 < step }
{
    let mut source = SlowSource::make(alloc, REALISTIC.as_bytes(), step).expect(rt, MEMORY);
    let mut out = SlowSink::make(alloc, step, 4_096).expect(rt, MEMORY);
    let ended = session(rt, alloc, call, "run", &mut source, &mut out, &[], PLAIN);
    assert_eq!(rt; ended.status, Status::Done, "step {step}");
    text_of(rt, alloc, out.bytes())
}

#[test]
fn pieces_of_any_size_give_a_legal_trace(rt: HostRuntime) {
    for &call in BOTH {
        for step in [1, 2, 7] {
            let trace = trace_by_steps(&rt, rt.alloc(), call, step);
            is_legal(&rt, rt.alloc(), REALISTIC, trace.as_str());
        }
    }
}
