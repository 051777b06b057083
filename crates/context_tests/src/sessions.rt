//! Whole sessions on threads: by any number of workers their logs, put together, are one legal
//! history of their script.

use crate::running::history_of;
use crate::wanted::{MEMORY, begins};
use session_run::ContextKind;
use std::alloc::Global;
use std::process::Abort;
use std::sync::Wait;
use std::thread::Threads;

/// The numbers of workers with which each session is run.
pub(crate) const WORKERS: &[&str] = &["1", "2", "4", "16"];

/// A script, with `#` where a number of workers stands, leaves one legal history, whose trace begins so.
fn leaves<R: Abort + Threads + Wait + Sync>(
    rt: &R,
    alloc: Global,
    script: &str,
    workers: &str,
    trace: &str,
) {
    let text = script.replace(alloc, "#", workers).expect(rt, MEMORY);
    let text = text.as_str();
    let history = history_of(rt, alloc, ContextKind::WithoutLock, text, None, text);
    begins(rt, alloc, &history, trace, text);
}

#[test]
fn each_session_leaves_one_legal_history(rt: HostRuntime) {
    for &(script, trace) in SESSIONS {
        for workers in WORKERS {
            leaves(&rt, rt.alloc(), script, workers, trace);
        }
    }
}

/// Scripts and their traces: whole where only one is legal, and else as far as all agree.
const SESSIONS: &[(&str, &str)] = &[
    (
        "session 1 open { post - { } } run #",
        "call 0 / back 0 / begin 0 ok 0 / end 0 1000 / ended / ",
    ),
    ("session 1 open { } run #", "ended / "),
    ("session 1 open { } run # run #", "ended / stopped / "),
    (
        "session 1 open { } run # restart run #",
        "ended / restart / ended / ",
    ),
    (
        "session 1 strands 1 open { post 0 { } post 0 { } } run #",
        "call 0 / back 0 / call 1 / back 1 / begin 0 ok 0 / end 0 1000 / begin 1 ok 0 / end 1 1001 / ended / ",
    ),
    (
        "session 1 open { post - { } post - { } } run #",
        "call 0 / back 0 / call 1 / back 1 / begin ",
    ),
    (
        "session 1 strands 1 open { post 0 { dispatch 0 { } } } run #",
        "call 0 / back 0 / begin 0 ok 0 / call 1 / begin 1 ok 0 / end 1 1001 / back 1 / end 0 1000 / ended / ",
    ),
    (
        "session 1 strands 2 open { post 0 { dispatch 1 { } } } run #",
        "call 0 / back 0 / begin 0 ok 0 / call 1 / ",
    ),
    (
        "session 1 timers 1 slots 1 open { expires 0 5 wait 0 - 0 { } post - { emit 0 1 } } run #",
        "call 0 / back 0 / call 1 / back 1 / call 2 / back 2 / ",
    ),
    (
        "session 1 timers 1 slots 1 open { expires 0 5 wait 0 - 0 { emit 0 1 } } run #",
        "call 0 / back 0 / call 1 / back 1 / take 0 / take 1 / tick 5 / done 1 ok 0 / begin 1 ok 0 / call 2 / ",
    ),
    (
        "session 1 slots 1 streams 1 at 4 feed 0 x6162 open { emit 0 1 read 0 2 - 0 { } emit 0 4 } run #",
        "call 0 / back 0 / call 1 / back 1 / call 2 / back 2 / take 0 / take 1 / take 2 / tick 4 / done 1 ok 2 / begin 1 ok 2 / end 1 1001 / ended / ",
    ),
    (
        "session 1 slots 1 streams 1 at 4 feed 0 x6162 open { emit 0 1 read 0 2 - 0 { } emit 0 2 } run #",
        "call 0 / back 0 / call 1 / back 1 / call 2 / back 2 / take 0 / take 1 / take 2 / done 1 aborted 0 / begin 1 aborted 0 / end 1 1001 / ended / ",
    ),
    (
        "session 1 strands 1 timers 2 open { expires 0 3 expires 1 3 wait 1 0 - { } wait 0 0 - { } } run #",
        "call 0 / back 0 / call 1 / back 1 / call 2 / back 2 / call 3 / back 3 / take 0 / take 1 / take 2 / take 3 / tick 3 / done 2 ok 0 / ",
    ),
    (
        "session 1 strands 1 timers 1 open { expires 0 9 wait 0 0 - { } wait 0 0 - { } expires 0 4 } run #",
        "call 0 / back 0 / call 1 / back 1 / call 2 / back 2 / call 3 / back 3 / take 0 / take 1 / take 2 / take 3 / done 1 aborted 0 / ",
    ),
    (
        "session 1 streams 1 at 1 feed 0 x616263 at 2 feed 0 x646566 at 3 feed 0 x6768696a open { read 0 10 - - { } } run #",
        "call 0 / back 0 / take 0 / tick 1 / tick 2 / tick 3 / done 0 ok 10 / begin 0 ok 10 / end 0 1000 / ended / ",
    ),
    (
        "session 1 strands 1 streams 1 at 1 feed 0 x61620d at 2 feed 0 x0a63640d0a open { until 0 x0d0a 64 0 - { } until 0 x0d0a 64 0 - { } } run #",
        "call 0 / back 0 / call 1 / back 1 / take 0 / take 1 / tick 1 / tick 2 / done 0 ok 4 / ",
    ),
    (
        "session 1 streams 1 at 1 feed 0 x61626364 open { until 0 x0a 4 - - { } } run #",
        "call 0 / back 0 / take 0 / tick 1 / done 0 not_found 0 / begin 0 not_found 0 / end 0 1000 / ended / ",
    ),
    (
        "session 1 streams 1 at 1 feed 0 x6162630a open { until 0 x0a 4 - - { } } run #",
        "call 0 / back 0 / take 0 / tick 1 / done 0 ok 4 / begin 0 ok 4 / end 0 1000 / ended / ",
    ),
    (
        "session 1 streams 1 at 1 feed 0 x61626364 at 1 end 0 open { read 0 10 - - { } } run #",
        "call 0 / back 0 / take 0 / tick 1 / done 0 eof 4 / begin 0 eof 4 / end 0 1000 / ended / ",
    ),
    (
        "session 1 streams 1 at 1 feed 0 x61626364 open { read 0 10 - - { } } run #",
        "call 0 / back 0 / take 0 / tick 1 / last / done 0 eof 4 / begin 0 eof 4 / end 0 1000 / ended / ",
    ),
    (
        "session 1 strands 1 streams 1 open { read 0 4 0 - { } close 0 read 0 4 0 - { } } run #",
        "call 0 / back 0 / call 1 / back 1 / call 2 / back 2 / take 0 / take 1 / done 0 aborted 0 / ",
    ),
    (
        "session 1 strands 1 open { post 0 { stop } post 0 { } post 0 { } } run #",
        "call 0 / back 0 / call 2 / back 2 / call 3 / back 3 / begin 0 ok 0 / call 1 / stop 1 / back 1 / end 0 1000 / stopped / drop 2 1002 / drop 3 1003 / ",
    ),
    (
        "session 1 strands 1 open { post 0 { stop } post 0 { } post 0 { } } run # restart run #",
        "call 0 / back 0 / call 2 / back 2 / call 3 / back 3 / begin 0 ok 0 / call 1 / stop 1 / back 1 / end 0 1000 / stopped / restart / begin 2 ok 0 / end 2 1002 / begin 3 ok 0 / end 3 1003 / ended / ",
    ),
    (
        "session 1 guards 1 open { post - { release 0 } } run #",
        "call 0 / back 0 / begin 0 ok 0 / call 1 / ",
    ),
    (
        "session 1 timers 1 open { expires 0 5 wait 0 - - { } } poll # run #",
        "call 0 / back 0 / call 1 / back 1 / take 0 / take 1 / polled / tick 5 / done 1 ok 0 / begin 1 ok 0 / end 1 1001 / ended / ",
    ),
    (
        "session 1 streams 1 at 1 room 0 2 at 3 room 0 9 open { write 0 x61626364 - - { } } run #",
        "call 0 / back 0 / take 0 / tick 1 / tick 3 / done 0 ok 4 / begin 0 ok 4 / end 0 1000 / ended / ",
    ),
    (
        "session 1 streams 1 at 1 room 0 2 open { write 0 x61626364 - - { } } run #",
        "call 0 / back 0 / take 0 / tick 1 / last / done 0 broken 2 / begin 0 broken 2 / end 0 1000 / ended / ",
    ),
    (
        "session 1 strands 1 timers 1 slots 1 streams 1 at 0 room 0 64 at 2 feed 0 x68690a open { expires 0 10 wait 0 0 - { emit 0 1 } until 0 x0a 64 0 0 { write 0 x68690a 0 - { cancel 0 } } } run #",
        "call 0 / back 0 / call 1 / back 1 / call 3 / back 3 / take 0 / take 1 / take 3 / tick 2 / done 3 ok 3 / begin 3 ok 3 / call 4 / ",
    ),
    (
        "session 1 strands 4 timers 4 open { post 1 { post - { } } post - { } } run #",
        "call 0 / back 0 / call 2 / back 2 / begin ",
    ),
    (
        "session 1 strands 4 timers 4 open { expires 3 74 wait 3 3 - { } } run #",
        "call 0 / back 0 / call 1 / back 1 / take 0 / take 1 / tick 74 / done 1 ok 0 / begin 1 ok 0 / end 1 1001 / ended / ",
    ),
];
