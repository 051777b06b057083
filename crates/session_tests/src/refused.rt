//! Texts that are no script, and words that are no form: nothing is written but the note.

use crate::marked::PLAIN;
use crate::sessions::{BOTH, Call, Left, is_ended, is_status, left_by, ran_well};
use crate::wanted::{MEMORY, is_text};
use crate::worked::REALISTIC;
use session_run::Status;
use std::alloc::Global;
use std::process::Abort;
use std::sync::Wait;
use std::thread::Threads;

/// A session left nothing but the note of a refusal at this place.
fn is_refused<R: Abort>(rt: &R, alloc: Global, left: &Left, place: &str) {
    let note = format!(in alloc; "asio_run: refused {place}\n").expect(rt, MEMORY);
    is_ended(rt, &left.ended, Status::Refused, note.as_str(), place);
    is_text(rt, left.trace.as_str(), "", place);
}

/// A text is refused at this place, or is run where none is named.
fn is_refused_by<R: Abort + Threads + Wait + Sync>(
    rt: &R,
    alloc: Global,
    call: Call,
    text: &str,
    place: &str,
) {
    if place.is_empty() {
        let _ = ran_well(rt, alloc, call, text);
    } else {
        let left = left_by(rt, alloc, call, "run", text, &[], PLAIN);
        is_refused(rt, alloc, &left, place);
    }
}

/// The same of both calls.
fn is_refused_at<R: Abort + Threads + Wait + Sync>(rt: &R, alloc: Global, text: &str, place: &str) {
    for &call in BOTH {
        is_refused_by(rt, alloc, call, text, place);
    }
}

#[test]
fn texts_that_are_no_script_are_refused_with_their_fault(rt: HostRuntime) {
    for &(text, place) in REFUSED {
        is_refused_at(&rt, rt.alloc(), text, place);
    }
}

/// Texts with the place of their fault.
const REFUSED: &[(&str, &str)] = &[
    ("", "4 at line 1 token 1"),
    ("session 3 open { } run 1", "9 at line 1 token 2"),
    ("session 1 open {} run 1", "3 at line 1 token 4"),
    ("session 1 open { jump } run 1", "4 at line 1 token 5"),
    ("session 1 open { post 0 { } } run 1", "6 at line 1 token 6"),
    ("session 1 open { } run 01", "5 at line 1 token 7"),
    ("session 1 open { } run 17", "7 at line 1 token 7"),
    ("session 1 open { } run 0", "7 at line 1 token 7"),
    ("session 1 guards 1 open { } run 1", "8 at line 1 token 10"),
    ("session 1 open {", "4 at line 1 token 5"),
    (
        "session 1 timers 1 open { expiresat 0 7 } run 1",
        "4 at line 1 token 7",
    ),
    (
        "session 2 timers 1 slots 1 open { wait 0 - 0 only 8 { } } run 1",
        "7 at line 1 token 14",
    ),
];

/// Writes a text so many times behind another.
fn repeated<R: Abort>(rt: &R, text: &mut String, part: &str, count: u32) {
    for _ in 0..count {
        text.push_str(part).expect(rt, MEMORY);
    }
}

/// A script of so many postings.
fn postings<R: Abort>(rt: &R, alloc: Global, version: u32, count: u32) -> String {
    let mut text = format!(in alloc; "session {version} open {{").expect(rt, MEMORY);
    repeated(rt, &mut text, " post - { }", count);
    text.push_str(" } run 16").expect(rt, MEMORY);
    text
}

#[test]
fn limits_are_met_exactly(rt: HostRuntime) {
    for &(version, count, place) in LIMITS {
        let text = postings(&rt, rt.alloc(), version, count);
        is_refused_at(&rt, rt.alloc(), text.as_str(), place);
    }
}

/// The version, the number of postings, and the place where they are too many.
const LIMITS: &[(u32, u32, &str)] = &[
    (1, 1024, ""),
    (1, 1025, "7 at line 1 token 4101"),
    (2, 4096, ""),
    (2, 4097, "7 at line 1 token 16389"),
];

/// A script whose bodies are so deep.
fn nested<R: Abort>(rt: &R, alloc: Global, depth: u32) -> String {
    let mut text = String::from_str(alloc, "session 1 open {").expect(rt, MEMORY);
    repeated(rt, &mut text, " post - {", depth.saturating_sub(1));
    repeated(rt, &mut text, " }", depth);
    text.push_str(" run 1").expect(rt, MEMORY);
    text
}

#[test]
fn bodies_nest_as_deep_as_allowed(rt: HostRuntime) {
    for &(depth, place) in &[(32u32, ""), (33, "7 at line 1 token 100")] {
        let text = nested(&rt, rt.alloc(), depth);
        is_refused_at(&rt, rt.alloc(), text.as_str(), place);
    }
}

/// A session of either call with these words and this text has this status, and writes nothing.
fn writes_nothing<R: Abort + Threads + Wait + Sync>(
    rt: &R,
    alloc: Global,
    words: &str,
    text: &str,
    status: Status,
    row: &str,
) {
    for &call in BOTH {
        let left = left_by(rt, alloc, call, words, text, &[], PLAIN);
        is_status(rt, left.ended.status, status, row);
        is_text(rt, left.trace.as_str(), "", row);
    }
}

#[test]
fn first_parts_of_a_script_are_refused(rt: HostRuntime) {
    for end in 0..REALISTIC.len() {
        if let Some(text) = REALISTIC.get(..end) {
            writes_nothing(&rt, rt.alloc(), "run", text, Status::Refused, text);
        }
    }
}

#[test]
fn other_words_are_no_form(rt: HostRuntime) {
    for &words in OTHER_WORDS {
        writes_nothing(&rt, rt.alloc(), words, REALISTIC, Status::Usage, words);
    }
}

const OTHER_WORDS: &[&str] = &[
    "",
    "run run",
    "runs",
    "upgrade run",
    "gen",
    "gen 1 0",
    "gen 1 02",
    "gen 65537 1",
];
