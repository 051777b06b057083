//! What a context records of the calls of `open`, and of an execution with those inside it.

use crate::marked::{Marks, PLAIN};
use crate::sessions::writes;

#[test]
fn the_calls_of_open_are_recorded(rt: HostRuntime) {
    for &(script, trace) in OPENED {
        writes(&rt, rt.alloc(), script, PLAIN, trace);
    }
}

/// A posting, a request and a stop in `open`: all three are called, the posting alone is ready, and
/// the wait alone is requested.
const OPENED: &[(&str, &str)] = &[
    (
        "session 1 timers 1 open { post - { } wait 0 - - { } stop } run 1",
        "call 0 / back 0 / call 1 / back 1 / call 2 / stop 2 / back 2 / stopped / drop 0 1000 / drop 1 1001",
    ),
    (
        "session 1 timers 1 open { post - { } wait 0 - - { } stop } run 1 restart run 1",
        "call 0 / back 0 / call 1 / back 1 / call 2 / stop 2 / back 2 / stopped / restart / begin 0 ok 0 / end 0 1000 / take 1 / done 1 ok 0 / begin 1 ok 0 / end 1 1001 / ended",
    ),
];

/// Number n has the mark 7 + n.
const FROM_7: Marks = Marks {
    run: 7,
    run_step: 1,
    drop: 7,
    drop_step: 1,
    tells: false,
};

#[test]
fn an_execution_is_recorded_with_those_inside_it(rt: HostRuntime) {
    let script = "session 1 open { post - { dispatch - { } post - { } } } run 1";
    let trace =
        "call 0 / back 0 / begin 0 ok 0 / call 1 / begin 1 ok 0 / end 1 8 / back 1 / call 2 / back 2 / end 0 7 / begin 2 ok 0 / end 2 9 / ended";
    writes(&rt, rt.alloc(), script, FROM_7, trace);
}
