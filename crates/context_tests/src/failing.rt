//! A reactor that fails: the worker that meets it is told, everybody then finds the context stopped,
//! and the history that is left is legal.

use crate::asking::{Answer, Ask};
use crate::polling::{Row, polls};
use crate::running::ran;
use crate::wanted::is_refused;
use lane_context::RoundEnd;
use lane_turns::One;
use reactor_script::{FailAt, Method};
use session_run::ContextKind;
use session_script::read_script;
use std::alloc::Global;
use std::process::Abort;
use std::sync::Wait;
use std::thread::Threads;

#[test]
fn who_meets_a_failure_of_the_reactor_is_told(rt: HostRuntime) {
    for row in CUT_OFF {
        polls(&rt, rt.alloc(), row, FIRST_ADVANCE);
    }
}

const FIRST_ADVANCE: &[FailAt] = &[FailAt {
    method: Method::Advance,
    nth: 1,
}];

/// A script whose reactor can't be set up isn't run.
fn is_not_run<R: Abort + Threads + Wait + Sync>(rt: &R, alloc: Global, text: &str) {
    let script = read_script(alloc, text.as_bytes()).expect(rt, "a script");
    let kind = ContextKind::WithoutLock;
    let left = ran(rt, alloc, kind, &script, FIRST_SET_UP, None);
    is_refused(rt, left, text);
}

#[test]
fn a_reactor_that_cannot_be_set_up_runs_nothing(rt: HostRuntime) {
    is_not_run(&rt, rt.alloc(), READS);
}

const FIRST_SET_UP: &[FailAt] = &[FailAt {
    method: Method::SetUp,
    nth: 1,
}];

const READS: &str =
    "session 1 streams 1 at 1 feed 0 x61626364 at 1 end 0 open { read 0 10 - - { } } run 1";

const FAULT: Answer = Answer::Came(One::Fault);

const TURNED: Answer = Answer::Came(One::Turned);

const STOPPED: Answer = Answer::Came(One::Stopped);

/// The first `advance` fails. The greatest number is the caller's own worker.
const CUT_OFF: &[Row] = &[
    (
        READS,
        &[],
        RoundEnd::Fault,
        "call 0 / back 0 / take 0 / fault / drop 0 1000 / ",
    ),
    (
        READS,
        &[
            (0, Ask::PollOne, TURNED),
            (0, Ask::PollOne, FAULT),
            (1, Ask::PollOne, STOPPED),
            (0, Ask::PollOne, STOPPED),
            (1, Ask::Stopped, Answer::Stopped(true)),
        ],
        RoundEnd::Fault,
        "call 0 / back 0 / take 0 / fault / drop 0 1000 / ",
    ),
    (
        "session 1 strands 4 timers 4 open { expires 3 74 wait 3 3 - { } } run 4",
        &[
            (4, Ask::PollOne, TURNED),
            (2, Ask::PollOne, TURNED),
            (0, Ask::PollOne, FAULT),
            (3, Ask::PollOne, STOPPED),
            (4, Ask::Stopped, Answer::Stopped(true)),
        ],
        RoundEnd::Fault,
        "call 0 / back 0 / call 1 / back 1 / take 0 / take 1 / fault / drop 1 1001 / ",
    ),
];
