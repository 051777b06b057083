//! Sessions that two numbers make: they write the same summary at each run, by either call.

use crate::marked::PLAIN;
use crate::sessions::{BOTH, Call, Left, is_status, left_by};
use crate::wanted::{has, is_lines, is_text};
use reactor_script::{FailAt, Method};
use session_run::Status;
use std::alloc::Global;
use std::process::Abort;
use std::sync::Wait;
use std::thread::Threads;

/// A session of these words over the scripted world, and what it wrote.
fn made<R: Abort + Threads + Wait + Sync>(
    rt: &R,
    alloc: Global,
    call: Call,
    words: &str,
    fails: &[FailAt],
    status: Status,
) -> Left {
    let left = left_by(rt, alloc, call, words, "", fails, PLAIN);
    is_status(rt, left.ended.status, status, words);
    left
}

#[test]
fn summaries_say_what_was_done(rt: HostRuntime) {
    let alloc = rt.alloc();
    for &call in BOTH {
        for &(words, fails, status, text) in SUMMARIES {
            let left = made(&rt, alloc, call, words, fails, status);
            is_lines(&rt, alloc, left.trace.as_str(), text, words);
        }
    }
}

const NONE: &[FailAt] = &[];

const LATE: &[FailAt] = &[FailAt {
    method: Method::Advance,
    nth: 1,
}];

/// Words, the calls that fail, the status and the summary.
const SUMMARIES: &[(&str, &[FailAt], Status, &str)] = &[
    (
        "gen 1 3",
        NONE,
        Status::Done,
        "gen 1 3 / acts 3 / executed 3 / dropped 0 / aborted 0 / marks 3003 / time 0 / ended",
    ),
    (
        "gen 3 2",
        NONE,
        Status::Done,
        "gen 3 2 / acts 2 / executed 1 / dropped 0 / aborted 0 / marks 1001 / time 74 / ended",
    ),
    (
        "gen 0 2",
        NONE,
        Status::Done,
        "gen 0 2 / acts 2 / executed 2 / dropped 0 / aborted 0 / marks 2001 / time 0 / ended",
    ),
    (
        "gen 3 2",
        LATE,
        Status::ReactorFault,
        "gen 3 2 / acts 2 / executed 0 / dropped 1 / aborted 0 / marks 0 / time 0 / fault",
    ),
];

#[test]
fn a_large_session_writes_the_same_again(rt: HostRuntime) {
    let alloc = rt.alloc();
    let words = "gen 7 1024";
    let first = made(&rt, alloc, Call::Asio, words, NONE, Status::Done);
    has(&rt, first.trace.as_str(), "\nacts 1024\n", words);
    for &call in BOTH {
        let again = left_by(&rt, alloc, call, words, "", NONE, PLAIN);
        is_text(&rt, again.trace.as_str(), first.trace.as_str(), words);
    }
}
