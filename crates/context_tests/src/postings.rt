//! Sessions of as many postings as a script can have.

use crate::running::history_of;
use crate::sessions::WORKERS;
use crate::wanted::{MEMORY, is_number};
use session_run::ContextKind;
use session_script::MOST_ACTS;
use std::alloc::Global;
use std::process::Abort;
use std::sync::Wait;
use std::thread::Threads;

/// A script of as many postings as there may be, over so many strands, or over none.
fn postings<R: Abort>(rt: &R, alloc: Global, strands: u32, workers: &str) -> String {
    let mut text = format!(in alloc; "session 2 strands {strands} open {{").expect(rt, MEMORY);
    for act in 0..MOST_ACTS {
        if strands == 0 {
            text.push_str(" post - { }").expect(rt, MEMORY);
        } else {
            let strand = act % strands;
            let post = format!(in alloc; " post {strand} {{ }}").expect(rt, MEMORY);
            text.push_str(post.as_str()).expect(rt, MEMORY);
        }
    }
    text.push_str(" } run ").expect(rt, MEMORY);
    text.push_str(workers).expect(rt, MEMORY);
    text
}

/// All of them are executed, in one legal history: of each a call, its back, a begin and an end are
/// shown, and at last how the round ends.
fn are_executed<R: Abort + Threads + Wait + Sync>(
    rt: &R,
    alloc: Global,
    strands: u32,
    workers: &str,
) {
    let text = postings(rt, alloc, strands, workers);
    let text = text.as_str();
    let history = history_of(rt, alloc, ContextKind::WithoutLock, text, None, workers);
    is_number(
        rt,
        history.events().len(),
        4 * MOST_ACTS as usize + 1,
        workers,
    );
}

/// All of them are executed by any number of workers.
fn are_executed_by_all<R: Abort + Threads + Wait + Sync>(rt: &R, alloc: Global, strands: u32) {
    for workers in WORKERS {
        are_executed(rt, alloc, strands, workers);
    }
}

#[test]
fn most_postings_without_a_strand_are_executed(rt: HostRuntime) {
    are_executed_by_all(&rt, rt.alloc(), 0);
}

#[test]
fn most_postings_over_strands_are_executed(rt: HostRuntime) {
    are_executed_by_all(&rt, rt.alloc(), 64);
}
