//! What sessions over a silent reactor write, and their notes.

use crate::sessions::{BOTH, Call, is_status};
use crate::silent::silent_text;
use crate::wanted::{is_lines, is_text};
use session_run::Status;
use std::alloc::Global;
use std::process::Abort;
use std::sync::Wait;
use std::thread::Threads;

/// The words and the text of a session, its status, the lines that it writes, and its note.
type Row = (
    &'static str,
    &'static str,
    Status,
    &'static str,
    &'static str,
);

/// What a session left of its rack.
fn is_kept<R: Abort>(rt: &R, whole: bool, want: bool, text: &str) {
    assert_eq!(rt; whole, want, "{text}");
}

/// A session writes what its row says, and leaves the rack whole or not.
fn writes_by<R: Abort + Threads + Wait + Sync>(
    rt: &R,
    alloc: Global,
    call: Call,
    row: Row,
    whole: bool,
) {
    let (words, text, status, want, note) = row;
    let (left, out) = silent_text(rt, alloc, call, words, text);
    is_status(rt, left.status, status, text);
    is_kept(rt, left.whole, whole, text);
    is_lines(rt, alloc, out.as_str(), want, text);
    is_text(rt, left.note.as_str(), note, text);
}

/// The same of both calls.
fn writes<R: Abort + Threads + Wait + Sync>(rt: &R, alloc: Global, row: Row, whole: bool) {
    for &call in BOTH {
        writes_by(rt, alloc, call, row, whole);
    }
}

/// Each session runs its script to the end: it writes what its row says, and every handler is
/// spent.
fn run_all<R: Abort + Threads + Wait + Sync>(rt: &R, alloc: Global, rows: &[Row]) {
    for &row in rows {
        writes(rt, alloc, row, false);
    }
}

/// Each session runs nothing: it writes what its row says, and no handler is taken.
fn run_none<R: Abort + Threads + Wait + Sync>(rt: &R, alloc: Global, rows: &[Row]) {
    for &row in rows {
        writes(rt, alloc, row, true);
    }
}

#[test]
fn sessions_write_their_traces(rt: HostRuntime) {
    run_all(&rt, rt.alloc(), TRACES);
}

#[test]
fn other_texts_are_refused_with_their_fault(rt: HostRuntime) {
    run_none(&rt, rt.alloc(), REFUSED);
}

#[test]
fn other_words_get_the_usage(rt: HostRuntime) {
    run_none(&rt, rt.alloc(), OTHER_WORDS);
}

#[test]
fn upgrades_are_written_in_version_2(rt: HostRuntime) {
    run_none(&rt, rt.alloc(), UPGRADES);
}

const TRACES: &[Row] = &[
    ("run", "session 1 open { } run 1", Status::Done, "ended", ""),
    (
        "run",
        "session 1 strands 1 open { post 0 { } post 0 { } } run 4",
        Status::Done,
        "call 0 / back 0 / call 1 / back 1 / begin 0 ok 0 / end 0 1000 / begin 1 ok 0 / end 1 1001 / ended",
        "",
    ),
    (
        "run",
        "session 1 open { post - { } stop post - { } } run 1",
        Status::Done,
        "call 0 / back 0 / call 1 / stop 1 / back 1 / call 2 / back 2 / stopped / drop 0 1000 / drop 2 1002",
        "",
    ),
    (
        "run",
        "session 1 timers 1 open { expires 0 5 wait 0 - - { } } poll 1 run 2",
        Status::Done,
        "call 0 / back 0 / call 1 / back 1 / take 0 / take 1 / polled / tick 5 / done 1 ok 0 / begin 1 ok 0 / end 1 1001 / ended",
        "",
    ),
    (
        "run",
        "session 2 streams 1 open { readsome 0 4 - - { } } run 1",
        Status::Done,
        "call 0 / back 0 / take 0 / last / done 0 eof 0 / begin 0 eof 0 / end 0 1000 / ended",
        "",
    ),
];

const FIRST: &str = "asio_run: refused 4 at line 1 token 1\n";

const REFUSED: &[Row] = &[
    ("run", "", Status::Refused, "", FIRST),
    ("upgrade", "", Status::Refused, "", FIRST),
    (
        "upgrade",
        "session 1\nopen { jump } run 1",
        Status::Refused,
        "",
        "asio_run: refused 4 at line 2 token 5\n",
    ),
    (
        "upgrade",
        "session 3 open { } run 1",
        Status::Refused,
        "",
        "asio_run: refused 9 at line 1 token 2\n",
    ),
];

const USAGE: &str =
    "asio_run: usage: asio_run run [--net] | asio_run gen START SIZE | asio_run upgrade\n";

const ONE: &str = "session 1 open { post - { } } run 1";

const OTHER_WORDS: &[Row] = &[
    ("", ONE, Status::Usage, "", USAGE),
    ("walk", ONE, Status::Usage, "", USAGE),
    ("upgrades", ONE, Status::Usage, "", USAGE),
    ("run upgrade", ONE, Status::Usage, "", USAGE),
    ("gen 1 0", ONE, Status::Usage, "", USAGE),
    ("gen 01 1", ONE, Status::Usage, "", USAGE),
    ("gen 65537 1", ONE, Status::Usage, "", USAGE),
    ("gen 1 1025", ONE, Status::Usage, "", USAGE),
];

const ONE_NEW: &str = "session 2 open { post - { } stop } run 1";

const UPGRADES: &[Row] = &[
    (
        "upgrade",
        "session 1 open {\n  post - { }\n  stop\n} run 1\n",
        Status::Done,
        ONE_NEW,
        "",
    ),
    ("upgrade", ONE_NEW, Status::Done, ONE_NEW, ""),
    (
        "upgrade",
        "session 1 strands 0 timers 1 slots 0 open { wait 0 - - { } abort { } other { stop } } run 1",
        Status::Done,
        "session 2 timers 1 open { wait 0 - - { } other { stop } } run 1",
        "",
    ),
    (
        "upgrade",
        "session 1 strands 2 streams 1 guards 1 at 4 feed 0 x6162 open { post 1 { release 0 } read 0 2 - - { } } poll 1 restart run 4",
        Status::Done,
        "session 2 strands 2 streams 1 guards 1 at 4 feed 0 x6162 open { post 1 { release 0 } read 0 2 - - { } } poll 1 restart run 4",
        "",
    ),
];
