//! Worked sessions with streams, over sockets: each ends well, and its trace is that of a legal
//! history where bytes are untold. It is the text of the same session in memory, save that no write
//! waits for room.

use crate::marked::PLAIN;
use crate::sessions::{Call, ROOM, is_judged, is_status, session_over};
use crate::wanted::{MEMORY, has, is_lines, is_text, lacks, lines, text_of};
use crate::worked::{ONE_TEXT, SEVERAL_TEXTS};
use asio_types::{SureSink, SureSource};
use reactor_mio::MioReactor;
use reactor_trait::Reactor;
use session_run::Status;
use std::alloc::Global;
use std::process::Abort;
use std::sync::Wait;
use std::thread::Threads;

/// What a session of this script writes over this reactor, where it ends well.
fn written<R: Abort + Threads + Wait + Sync, X: Reactor + Send>(
    rt: &R,
    alloc: Global,
    script: &str,
    reactor: X,
) -> String {
    let mut source = SureSource::make(alloc, script.as_bytes()).expect(rt, MEMORY);
    let mut out = SureSink::make(alloc, ROOM).expect(rt, MEMORY);
    let run = session_over(
        rt,
        alloc,
        Call::Asio,
        "run --net",
        &mut source,
        &mut out,
        reactor,
        PLAIN,
    );
    is_status(rt, run.status, Status::Done, script);
    is_text(rt, run.note.as_str(), "", script);
    text_of(rt, alloc, out.bytes())
}

/// The trace of a session over this reactor, which is legal where bytes are untold.
fn legal<R: Abort + Threads + Wait + Sync, X: Reactor + Send>(
    rt: &R,
    alloc: Global,
    script: &str,
    reactor: X,
) -> String {
    let trace = written(rt, alloc, script, reactor);
    is_judged(rt, alloc, "--net", script, trace.as_str(), "legal\n");
    trace
}

/// A session over this reactor writes its text and no other one.
fn writes_this<R: Abort + Threads + Wait + Sync, X: Reactor + Send>(
    rt: &R,
    alloc: Global,
    row: (&str, &str),
    reactor: X,
) {
    let (script, text) = row;
    let trace = legal(rt, alloc, script, reactor);
    is_lines(rt, alloc, trace.as_str(), text, script);
}

/// A session has streams, and no line of its world brings room.
fn has_bytes_alone(script: &str) -> bool {
    script.contains(" streams ") && !script.contains(" room ")
}

#[test]
fn worked_sessions_write_over_sockets_what_they_write_in_memory(rt: HostRuntime) {
    for &row in ONE_TEXT {
        if has_bytes_alone(row.0) {
            writes_this(&rt, rt.alloc(), row, MioReactor::make(rt));
        }
    }
}

#[test]
fn no_write_waits_for_room_over_sockets(rt: HostRuntime) {
    for &row in WITH_ROOM {
        writes_this(&rt, rt.alloc(), row, MioReactor::make(rt));
    }
}

#[test]
fn other_sessions_write_their_one_text_over_sockets(rt: HostRuntime) {
    for &row in OTHERS {
        writes_this(&rt, rt.alloc(), row, MioReactor::make(rt));
    }
}

/// The trace of a session over this reactor has these lines together, and this text nowhere.
fn shows<R: Abort + Threads + Wait + Sync, X: Reactor + Send>(
    rt: &R,
    alloc: Global,
    row: (&str, &str, &str),
    reactor: X,
) {
    let (script, part, other) = row;
    let trace = legal(rt, alloc, script, reactor);
    let part = lines(rt, alloc, part);
    has(rt, trace.as_str(), part.as_str(), script);
    lacks(rt, trace.as_str(), other, script);
}

#[test]
fn worked_sessions_with_several_texts_write_a_legal_one_over_sockets(rt: HostRuntime) {
    for &row in SEVERAL_TEXTS {
        if row.0.contains(" streams ") {
            shows(&rt, rt.alloc(), row, MioReactor::make(rt));
        }
    }
}

#[test]
fn other_sessions_with_several_texts_write_a_legal_one_over_sockets(rt: HostRuntime) {
    for &row in OTHERS_WITH_SEVERAL {
        shows(&rt, rt.alloc(), row, MioReactor::make(rt));
    }
}

/// Worked sessions whose lines bring room, with what they write over sockets: a write is done as
/// soon as it is taken, whole, and no room ends it as broken.
const WITH_ROOM: &[(&str, &str)] = &[
    (
        "session 1 streams 1 at 1 room 0 2 at 3 room 0 9 open { write 0 x61626364 - - { } } run 1",
        "call 0 / back 0 / take 0 / done 0 ok 4 / begin 0 ok 4 / end 0 1000 / ended",
    ),
    (
        "session 1 streams 1 at 1 room 0 2 open { write 0 x61626364 - - { } } run 1",
        "call 0 / back 0 / take 0 / done 0 ok 4 / begin 0 ok 4 / end 0 1000 / ended",
    ),
    (
        "session 1 streams 1 at 0 room 0 2 open { writesome 0 x616263 - - { } } run 1",
        "call 0 / back 0 / take 0 / done 0 ok 3 / begin 0 ok 3 / end 0 1000 / ended",
    ),
];

/// Sessions of the documents and of the examples that stand in no other table, and one without
/// streams.
const OTHERS: &[(&str, &str)] = &[
    (
        "session 1 open { post - { } } run 1",
        "call 0 / back 0 / begin 0 ok 0 / end 0 1000 / ended",
    ),
    (
        "session 1 streams 1 open { read 0 1 - - { } } run 1",
        "call 0 / back 0 / take 0 / last / done 0 eof 0 / begin 0 eof 0 / end 0 1000 / ended",
    ),
    (
        "session 1 streams 1 at 1 feed 0 x61620d at 2 feed 0 x0a63 open { until 0 x0d0a 64 - - { } } run 1",
        "call 0 / back 0 / take 0 / tick 1 / tick 2 / done 0 ok 4 / begin 0 ok 4 / end 0 1000 / ended",
    ),
    (
        "session 2 streams 1 open { readsome 0 4 - - { } } run 1",
        "call 0 / back 0 / take 0 / last / done 0 eof 0 / begin 0 eof 0 / end 0 1000 / ended",
    ),
    ("session 1 streams 1 open { } run 1", "ended"),
];

/// Sessions with a deadline, with two rounds, and with sixteen workers on two streams; and the group
/// of a read and a wait of which the first to succeed ends the other.
const OTHERS_WITH_SEVERAL: &[(&str, &str, &str)] = &[
    (
        "session 1 strands 2 timers 1 slots 1 streams 1 at 3 feed 0 x6869 open { expires 0 5 wait 0 0 - { emit 0 1 } read 0 4 0 0 { } abort { dispatch 0 { } post 1 { } } } run 2",
        "done 3 aborted 2",
        "last",
    ),
    (
        "session 1 timers 1 streams 1 at 1 feed 0 x61626364 open { read 0 4 - - { } expires 0 5 wait 0 - - { } } poll 1 run 1",
        "polled / tick 1 / done 0 ok 4",
        "last",
    ),
    (
        "session 1 strands 2 timers 2 streams 2 at 0 room 0 3 at 1 feed 1 x616263 at 3 room 0 4 open { write 0 x61626364656667 0 - { } read 1 3 1 - { } expires 0 5 wait 0 0 - { } expires 1 5 wait 1 1 - { } } run 16",
        "done 1 ok 3",
        "broken",
    ),
    (
        "session 2 strands 1 timers 2 slots 2 streams 1 at 2 end 0 open { read 0 4 0 0 { emit 1 1 } expires 1 5 wait 1 0 1 { emit 0 1 } } run 1",
        "tick 2 / done 0 eof 0",
        "aborted",
    ),
];
