//! Over a silent reactor: sources and sinks that fail or give little at a time, and the handlers
//! that are called.

ghost use Rattle.std.specs.Prelude.{◌<◌};

use crate::sessions::{BOTH, Call, is_status};
use crate::silent::{silent_session, silent_text};
use crate::wanted::{MEMORY, is_bytes, is_lines, is_text, lines, text_of};
use asio_types::{SlowSink, SlowSource, Source, SureSink, SureSource, TextSink, TextSource};
use session_run::Status;
use std::alloc::Global;
use std::process::Abort;
use std::sync::Wait;
use std::thread::Threads;

const ONE: &[u8] = b"session 1 open { post - { } } run 1";

/// Where this write to an out of this room fails, a session of these words leaves this.
fn leaves<R: Abort + Threads + Wait + Sync>(
    rt: &R,
    alloc: Global,
    call: Call,
    row: (&str, u32, u32, &str),
) {
    let (words, room, fails, want) = row;
    let mut source = SureSource::make(alloc, ONE).expect(rt, MEMORY);
    let mut out = TextSink::make(alloc, room, &[fails]).expect(rt, MEMORY);
    let left = silent_session(rt, alloc, call, words, &mut source, &mut out);
    is_status(rt, left.status, Status::WriteFault, words);
    is_bytes(rt, out.bytes(), want.as_bytes(), words);
    is_text(rt, left.note.as_str(), "asio_run: write fault\n", words);
}

#[test]
fn a_failing_write_leaves_a_first_part(rt: HostRuntime) {
    for &call in BOTH {
        for &row in FIRST_PARTS {
            leaves(&rt, rt.alloc(), call, row);
        }
    }
}

/// Words, the room of the out, the write that fails, and what was written before.
const FIRST_PARTS: &[(&str, u32, u32, &str)] = &[
    ("run", 256, 3, "call 0\nback 0\n"),
    ("upgrade", 256, 1, ""),
    ("upgrade", 9, 2, "session 2"),
];

/// Where this read fails, a session of these words has this status, note and text.
fn reads<R: Abort + Threads + Wait + Sync>(
    rt: &R,
    alloc: Global,
    call: Call,
    row: (&str, u32, Status, &str, &str),
) {
    let (words, fails, status, note, want) = row;
    let mut source = TextSource::make(alloc, ONE, &[fails]).expect(rt, MEMORY);
    let mut out = SureSink::make(alloc, 256).expect(rt, MEMORY);
    let left = silent_session(rt, alloc, call, words, &mut source, &mut out);
    is_status(rt, left.status, status, words);
    is_text(rt, left.note.as_str(), note, words);
    is_lines(
        rt,
        alloc,
        text_of(rt, alloc, out.bytes()).as_str(),
        want,
        words,
    );
}

#[test]
fn a_failing_read_writes_nothing_and_none_follows_the_end(rt: HostRuntime) {
    for &call in BOTH {
        for &row in READS {
            reads(&rt, rt.alloc(), call, row);
        }
    }
}

const READ_FAULT: &str = "asio_run: read fault\n";

/// Words, the read that fails, the status, the note, and what is written: the first read gives all
/// bytes, the second one none, and nothing is read behind that.
const READS: &[(&str, u32, Status, &str, &str)] = &[
    ("run", 1, Status::ReadFault, READ_FAULT, ""),
    ("run", 2, Status::ReadFault, READ_FAULT, ""),
    (
        "run",
        3,
        Status::Done,
        "",
        "call 0 / back 0 / begin 0 ok 0 / end 0 1000 / ended",
    ),
    ("upgrade", 1, Status::ReadFault, READ_FAULT, ""),
    ("upgrade", 2, Status::ReadFault, READ_FAULT, ""),
    (
        "upgrade",
        3,
        Status::Done,
        "",
        "session 2 open { post - { } } run 1",
    ),
];

#[test]
fn other_words_leave_the_source_unread(rt: HostRuntime) {
    for &call in BOTH {
        leaves_unread(&rt, rt.alloc(), call);
    }
}

/// A session of other words leaves all bytes of its source.
fn leaves_unread<R: Abort + Threads + Wait + Sync>(rt: &R, alloc: Global, call: Call) {
    let mut source = SureSource::make(alloc, b"session").expect(rt, MEMORY);
    let mut out = SureSink::make(alloc, 256).expect(rt, MEMORY);
    let left = silent_session(rt, alloc, call, "run run", &mut source, &mut out);
    is_status(rt, left.status, Status::Usage, "");
    let mut buf = [0; 64];
    let read = source.read(&mut buf);
    assert_eq!(rt; read, Ok(7));
}

/// What a session writes where each call moves so many bytes at the most.
fn writes_by_steps<R: Abort + Threads + Wait + Sync>(
    rt: &R,
    alloc: Global,
    call: Call,
    step: u32,
    want: &str,
)
    requires { 0 < step }
{
    let mut source = SlowSource::make(alloc, ONE, step).expect(rt, MEMORY);
    let mut out = SlowSink::make(alloc, step, 256).expect(rt, MEMORY);
    let left = silent_session(rt, alloc, call, "run", &mut source, &mut out);
    assert_eq!(rt; left.status, Status::Done, "step {step}");
    is_bytes(rt, out.bytes(), want.as_bytes(), "");
}

#[test]
fn pieces_of_any_size_give_the_same(rt: HostRuntime) {
    let alloc = rt.alloc();
    let want = lines(
        &rt,
        alloc,
        "call 0 / back 0 / begin 0 ok 0 / end 0 1000 / ended",
    );
    for &call in BOTH {
        for step in [1, 2, 7] {
            writes_by_steps(&rt, alloc, call, step, want.as_str());
        }
    }
}

/// The operation and the position of the last call are these.
fn is_last<R: Abort>(rt: &R, last: (u64, u64), want: (u64, u64), text: &str) {
    assert_eq!(rt; last, want, "{text}");
}

#[test]
fn each_handler_is_given_its_own_call(rt: HostRuntime) {
    for &call in BOTH {
        for &(text, want) in LAST_CALLS {
            let (left, _) = silent_text(&rt, rt.alloc(), call, "run", text);
            is_last(&rt, left.last, want, text);
        }
    }
}

/// Scripts with the operation and the position of their last call of a handler.
const LAST_CALLS: &[(&str, (u64, u64))] = &[
    ("session 1 open { post - { } } run 1", (0, 2)),
    (
        "session 1 strands 1 open { post 0 { } post 0 { } } run 4",
        (1, 6),
    ),
    ("session 1 open { post - { } stop } run 1", (0, 0)),
];
