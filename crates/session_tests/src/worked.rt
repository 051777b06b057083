//! Worked sessions: each of these scripts has one text that its trace may be, or some of which each
//! is legal.

use crate::marked::{Marks, PLAIN, TELLING};
use crate::sessions::{BOTH, Call, is_legal, left_by, ran_well, writes, writes_by};
use crate::wanted::{MEMORY, has, is_bytes, is_text, lacks, lines};
use std::alloc::Global;
use std::process::Abort;
use std::sync::Wait;
use std::thread::Threads;

#[test]
fn sessions_with_one_text_write_it(rt: HostRuntime) {
    for &(script, trace) in ONE_TEXT {
        writes(&rt, rt.alloc(), script, PLAIN, trace);
    }
}

#[test]
fn one_worker_goes_first_where_work_was_put_first(rt: HostRuntime) {
    for &script in PUT {
        writes_by(&rt, rt.alloc(), Call::Asio, script, PLAIN, IN_THEIR_ORDER);
    }
}

#[test]
fn each_handler_is_called_with_what_its_begin_says(rt: HostRuntime) {
    for &(script, trace) in TOLD {
        writes(&rt, rt.alloc(), script, TELLING, trace);
    }
}

/// The marks tell of each call its operation, the size, 1 where it was cancelled, and at which
/// event it began.
const TOLD: &[(&str, &str)] = &[
    (
        "session 1 strands 1 open { post 0 { dispatch 0 { } } } run 2",
        "call 0 / back 0 / begin 0 ok 0 / call 1 / begin 1 ok 0 / end 1 100004 / back 1 / end 0 2 / ended",
    ),
    (
        "session 1 slots 1 streams 1 at 4 feed 0 x6162 open { emit 0 1 read 0 2 - 0 { } emit 0 4 } run 1",
        "call 0 / back 0 / call 1 / back 1 / call 2 / back 2 / take 0 / take 1 / take 2 / tick 4 / done 1 ok 2 / begin 1 ok 2 / end 1 102011 / ended",
    ),
    (
        "session 1 slots 1 streams 1 at 4 feed 0 x6162 open { emit 0 1 read 0 2 - 0 { } emit 0 2 } run 1",
        "call 0 / back 0 / call 1 / back 1 / call 2 / back 2 / take 0 / take 1 / take 2 / done 1 aborted 0 / begin 1 aborted 0 / end 1 100110 / ended",
    ),
];

/// A handler posts to two strands: to the second one first, or to the first one.
const PUT: &[&str] = &[
    "session 1 strands 2 open { post - { post 1 { } post 0 { } } } run 1",
    "session 1 strands 2 open { post - { post 0 { } post 1 { } } } run 1",
];

/// The rules allow other orders too.
const IN_THEIR_ORDER: &str =
    "call 0 / back 0 / begin 0 ok 0 / call 1 / back 1 / call 2 / back 2 / end 0 1000 / begin 1 ok 0 / end 1 1001 / begin 2 ok 0 / end 2 1002 / ended";

#[test]
fn sessions_with_several_texts_write_a_legal_one(rt: HostRuntime) {
    for &call in BOTH {
        for &row in SEVERAL_TEXTS {
            writes_one_of_several(&rt, rt.alloc(), call, row);
        }
    }
}

/// A session writes a legal text with these lines, and without another.
fn writes_one_of_several<R: Abort + Threads + Wait + Sync>(
    rt: &R,
    alloc: Global,
    call: Call,
    row: (&str, &str, &str),
) {
    let (script, part, other) = row;
    let left = ran_well(rt, alloc, call, script);
    has_lines(rt, alloc, left.trace.as_str(), part, script);
    lacks(rt, left.trace.as_str(), other, script);
    is_legal(rt, alloc, script, left.trace.as_str());
}

/// A trace has these lines together.
fn has_lines<R: Abort>(rt: &R, alloc: Global, trace: &str, part: &str, script: &str) {
    let part = lines(rt, alloc, part);
    has(rt, trace, part.as_str(), script);
}

#[test]
fn traces_show_the_marks_of_the_handlers(rt: HostRuntime) {
    for &call in BOTH {
        for &row in MARKED {
            shows_marks(&rt, rt.alloc(), call, row);
        }
    }
}

/// The trace of a session with handlers of these marks has these lines.
fn shows_marks<R: Abort + Threads + Wait + Sync>(
    rt: &R,
    alloc: Global,
    call: Call,
    row: (&str, Marks, &str),
) {
    let (script, marks, part) = row;
    let left = left_by(rt, alloc, call, "run", script, &[], marks);
    has_lines(rt, alloc, left.trace.as_str(), part, script);
}

#[test]
fn the_world_has_what_the_history_sent(rt: HostRuntime) {
    for &call in BOTH {
        for &row in SENT {
            sends(&rt, rt.alloc(), call, row);
        }
    }
}

/// A session sends these bytes on stream 0.
fn sends<R: Abort + Threads + Wait + Sync>(rt: &R, alloc: Global, call: Call, row: (&str, &str)) {
    let (script, sent) = row;
    let left = ran_well(rt, alloc, call, script);
    is_bytes(rt, left.ended.sent.as_slice(), sent.as_bytes(), script);
}

/// A line begins operation n.
fn begins<R: Abort>(rt: &R, alloc: Global, line: &str, n: u32) {
    let want = format!(in alloc; "begin {n} ok 0").expect(rt, MEMORY);
    is_text(rt, line, want.as_str(), "");
}

/// The begins of a trace are those of the numbers from 0 on. Answers how many they are, and how
/// many lines there are.
fn begins_in_order<R: Abort>(rt: &R, alloc: Global, trace: &str) -> (u32, u32) {
    let mut begun = 0u32;
    let mut all = 0u32;
    for line in trace.lines() {
        all = all.saturating_add(1);
        if line.starts_with("begin") {
            begins(rt, alloc, line, begun);
            begun = begun.saturating_add(1);
        }
    }
    (begun, all)
}

/// A script of so many postings to a strand, for 16 workers.
fn postings<R: Abort>(rt: &R, alloc: Global, count: u32) -> String {
    let mut script = String::from_str(alloc, "session 1 strands 1 open {").expect(rt, MEMORY);
    for _ in 0..count {
        script.push_str(" post 0 { }").expect(rt, MEMORY);
    }
    script.push_str(" } run 16").expect(rt, MEMORY);
    script
}

#[test]
fn many_postings_to_a_strand_begin_in_their_order(rt: HostRuntime) {
    for &call in BOTH {
        let counts = counts_of_postings(&rt, rt.alloc(), call);
        assert_eq!(rt; counts, (1024, 4097));
    }
}

/// How many begins and lines a session of 1,024 postings to a strand has.
fn counts_of_postings<R: Abort + Threads + Wait + Sync>(
    rt: &R,
    alloc: Global,
    call: Call,
) -> (u32, u32) {
    let script = postings(rt, alloc, 1024);
    let left = ran_well(rt, alloc, call, script.as_str());
    begins_in_order(rt, alloc, left.trace.as_str())
}

const TWO_ON_A_STRAND: &str = "session 1 strands 1 open { post 0 { } post 0 { } } run 4";

const STOPPED_BY_A_HANDLER: &str =
    "session 1 strands 1 open { post 0 { stop } post 0 { } post 0 { } } run 1";

const APART: Marks = Marks {
    run: 7,
    run_step: 2,
    drop: 70,
    drop_step: 20,
    tells: false,
};

const SAME: Marks = Marks {
    run: 1,
    run_step: 0,
    drop: 2,
    drop_step: 0,
    tells: false,
};

/// Scripts with the marks of their handlers, and lines that show them.
const MARKED: &[(&str, Marks, &str)] = &[
    (TWO_ON_A_STRAND, APART, "end 0 7 / begin 1 ok 0 / end 1 9"),
    (
        STOPPED_BY_A_HANDLER,
        SAME,
        "end 0 1 / stopped / drop 2 2 / drop 3 2",
    ),
    (
        STOPPED_BY_A_HANDLER,
        PLAIN,
        "end 0 1000 / stopped / drop 2 1002 / drop 3 1003",
    ),
];

/// Scripts with the one text that each may write.
pub(crate) const ONE_TEXT: &[(&str, &str)] = &[
    (
        "session 1 open { post - { } } run 1",
        "call 0 / back 0 / begin 0 ok 0 / end 0 1000 / ended",
    ),
    ("session 1 open { } run 4", "ended"),
    ("session 1 open { } run 4 run 1", "ended / stopped"),
    (
        "session 1 open { } run 4 restart run 1",
        "ended / restart / ended",
    ),
    (
        "session 1 open { post - { } stop } run 1",
        "call 0 / back 0 / call 1 / stop 1 / back 1 / stopped / drop 0 1000",
    ),
    (
        TWO_ON_A_STRAND,
        "call 0 / back 0 / call 1 / back 1 / begin 0 ok 0 / end 0 1000 / begin 1 ok 0 / end 1 1001 / ended",
    ),
    (
        "session 1 strands 1 open { post 0 { dispatch 0 { } } } run 2",
        "call 0 / back 0 / begin 0 ok 0 / call 1 / begin 1 ok 0 / end 1 1001 / back 1 / end 0 1000 / ended",
    ),
    (
        "session 1 slots 1 streams 1 at 4 feed 0 x6162 open { emit 0 1 read 0 2 - 0 { } emit 0 4 } run 1",
        "call 0 / back 0 / call 1 / back 1 / call 2 / back 2 / take 0 / take 1 / take 2 / tick 4 / done 1 ok 2 / begin 1 ok 2 / end 1 1001 / ended",
    ),
    (
        "session 1 slots 1 streams 1 at 4 feed 0 x6162 open { emit 0 1 read 0 2 - 0 { } emit 0 2 } run 1",
        "call 0 / back 0 / call 1 / back 1 / call 2 / back 2 / take 0 / take 1 / take 2 / done 1 aborted 0 / begin 1 aborted 0 / end 1 1001 / ended",
    ),
    (
        "session 1 streams 1 at 1 feed 0 x616263 at 2 feed 0 x646566 at 3 feed 0 x6768696a open { read 0 10 - - { } } run 1",
        "call 0 / back 0 / take 0 / tick 1 / tick 2 / tick 3 / done 0 ok 10 / begin 0 ok 10 / end 0 1000 / ended",
    ),
    (
        "session 1 streams 1 at 3 feed 0 x6162636465666768696a open { read 0 10 - - { } } run 1",
        "call 0 / back 0 / take 0 / tick 3 / done 0 ok 10 / begin 0 ok 10 / end 0 1000 / ended",
    ),
    (
        "session 1 streams 1 at 1 feed 0 x61626364 open { until 0 x0a 4 - - { } } run 1",
        "call 0 / back 0 / take 0 / tick 1 / done 0 not_found 0 / begin 0 not_found 0 / end 0 1000 / ended",
    ),
    (
        "session 1 streams 1 at 1 feed 0 x6162630a open { until 0 x0a 4 - - { } } run 1",
        "call 0 / back 0 / take 0 / tick 1 / done 0 ok 4 / begin 0 ok 4 / end 0 1000 / ended",
    ),
    (
        "session 1 streams 1 at 1 feed 0 x61626364 at 1 end 0 open { read 0 10 - - { } } run 1",
        "call 0 / back 0 / take 0 / tick 1 / done 0 eof 4 / begin 0 eof 4 / end 0 1000 / ended",
    ),
    (
        "session 1 streams 1 at 1 feed 0 x61626364 open { read 0 10 - - { } } run 1",
        "call 0 / back 0 / take 0 / tick 1 / last / done 0 eof 4 / begin 0 eof 4 / end 0 1000 / ended",
    ),
    (
        STOPPED_BY_A_HANDLER,
        "call 0 / back 0 / call 2 / back 2 / call 3 / back 3 / begin 0 ok 0 / call 1 / stop 1 / back 1 / end 0 1000 / stopped / drop 2 1002 / drop 3 1003",
    ),
    (
        "session 1 strands 1 open { post 0 { stop } post 0 { } post 0 { } } run 1 restart run 1",
        "call 0 / back 0 / call 2 / back 2 / call 3 / back 3 / begin 0 ok 0 / call 1 / stop 1 / back 1 / end 0 1000 / stopped / restart / begin 2 ok 0 / end 2 1002 / begin 3 ok 0 / end 3 1003 / ended",
    ),
    (
        "session 1 timers 1 open { expires 0 5 wait 0 - - { } } poll 1 run 1",
        "call 0 / back 0 / call 1 / back 1 / take 0 / take 1 / polled / tick 5 / done 1 ok 0 / begin 1 ok 0 / end 1 1001 / ended",
    ),
    (
        "session 1 streams 1 at 1 room 0 2 at 3 room 0 9 open { write 0 x61626364 - - { } } run 1",
        "call 0 / back 0 / take 0 / tick 1 / tick 3 / done 0 ok 4 / begin 0 ok 4 / end 0 1000 / ended",
    ),
    (
        "session 1 streams 1 at 1 room 0 2 open { write 0 x61626364 - - { } } run 1",
        "call 0 / back 0 / take 0 / tick 1 / last / done 0 broken 2 / begin 0 broken 2 / end 0 1000 / ended",
    ),
    (
        "session 1 strands 4 timers 4 open { expires 3 74 wait 3 3 - { } } run 4",
        "call 0 / back 0 / call 1 / back 1 / take 0 / take 1 / tick 74 / done 1 ok 0 / begin 1 ok 0 / end 1 1001 / ended",
    ),
    (
        "session 1 strands 1 timers 1 open { expires 0 9 wait 0 0 - { } wait 0 0 - { } cancelone 0 } run 1",
        "call 0 / back 0 / call 1 / back 1 / call 2 / back 2 / call 3 / back 3 / take 0 / take 1 / take 2 / take 3 / done 1 aborted 0 / begin 1 aborted 0 / end 1 1001 / tick 9 / done 2 ok 0 / begin 2 ok 0 / end 2 1002 / ended",
    ),
    (
        "session 1 strands 1 timers 1 slots 1 open { expires 0 9 wait 0 0 0 { } wait 0 0 0 { } emit 0 4 } run 1",
        "call 0 / back 0 / call 1 / back 1 / call 2 / back 2 / call 3 / back 3 / take 0 / take 1 / take 2 / take 3 / done 2 aborted 0 / begin 2 aborted 0 / end 2 1002 / tick 9 / done 1 ok 0 / begin 1 ok 0 / end 1 1001 / ended",
    ),
    (
        "session 1 streams 1 at 1 feed 0 x616263 open { readsome 0 2 - - { } } run 1",
        "call 0 / back 0 / take 0 / tick 1 / done 0 ok 2 / begin 0 ok 2 / end 0 1000 / ended",
    ),
    (
        "session 1 streams 1 open { readsome 0 4 - - { } close 0 } run 1",
        "call 0 / back 0 / call 1 / back 1 / take 0 / take 1 / done 0 aborted 0 / begin 0 aborted 0 / end 0 1000 / ended",
    ),
    (
        "session 1 streams 1 at 0 room 0 2 open { writesome 0 x616263 - - { } } run 1",
        "call 0 / back 0 / take 0 / done 0 ok 2 / begin 0 ok 2 / end 0 1000 / ended",
    ),
    (
        "session 1 streams 1 open { readsome 0 4 - - { } } run 1",
        "call 0 / back 0 / take 0 / last / done 0 eof 0 / begin 0 eof 0 / end 0 1000 / ended",
    ),
    (
        "session 1 streams 1 at 1 reset 0 open { readsome 0 4 - - { } } run 1",
        "call 0 / back 0 / take 0 / tick 1 / done 0 reset 0 / begin 0 reset 0 / end 0 1000 / ended",
    ),
    (
        "session 2 timers 1 slots 1 open { expires 0 5 wait 0 - 0 only 1 { } emit 0 4 emit 0 1 } run 1",
        "call 0 / back 0 / call 1 / back 1 / call 2 / back 2 / call 3 / back 3 / take 0 / take 1 / take 2 / take 3 / done 1 aborted 0 / begin 1 aborted 0 / end 1 1001 / ended",
    ),
    (
        "session 2 timers 1 slots 1 open { expires 0 5 wait 0 - 0 only 1 { } emit 0 4 } run 1",
        "call 0 / back 0 / call 1 / back 1 / call 2 / back 2 / take 0 / take 1 / take 2 / tick 5 / done 1 ok 0 / begin 1 ok 0 / end 1 1001 / ended",
    ),
    (
        "session 2 timers 1 open { expiresat 0 7 wait 0 - - { } } run 1",
        "call 0 / back 0 / call 1 / back 1 / take 0 / take 1 / tick 7 / done 1 ok 0 / begin 1 ok 0 / end 1 1001 / ended",
    ),
    (
        "session 2 open { post - { } } run 1",
        "call 0 / back 0 / begin 0 ok 0 / end 0 1000 / ended",
    ),
];

/// Scripts, and what each sends on stream 0.
const SENT: &[(&str, &str)] = &[
    (
        "session 1 streams 1 at 1 room 0 2 at 3 room 0 9 open { write 0 x61626364 - - { } } run 1",
        "abcd",
    ),
    (
        "session 1 streams 1 at 1 room 0 2 open { write 0 x61626364 - - { } } run 1",
        "ab",
    ),
    ("session 1 streams 1 open { } run 1", ""),
];

/// Scripts that may write several texts: lines that stand together in each, and a text that stands
/// in none.
pub(crate) const SEVERAL_TEXTS: &[(&str, &str, &str)] = &[
    (
        "session 1 open { post - { } post - { } } run 4",
        "call 0 / back 0 / call 1 / back 1",
        "stopped",
    ),
    (
        "session 1 strands 2 open { post 0 { dispatch 1 { } } } run 2",
        "begin 0 ok 0 / call 1",
        "stopped",
    ),
    (
        "session 1 timers 1 slots 1 open { expires 0 5 wait 0 - 0 { } post - { emit 0 1 } } run 1",
        "done 1 aborted 0",
        "tick",
    ),
    (
        "session 1 timers 1 slots 1 open { expires 0 5 wait 0 - 0 { emit 0 1 } } run 1",
        "take 0 / take 1 / tick 5 / done 1 ok 0 / begin 1 ok 0 / call 2",
        "aborted",
    ),
    (
        "session 1 strands 1 timers 2 open { expires 0 3 expires 1 3 wait 1 0 - { } wait 0 0 - { } } run 1",
        "take 3 / tick 3 / done 2 ok 0",
        "aborted",
    ),
    (
        "session 1 strands 1 timers 1 open { expires 0 9 wait 0 0 - { } wait 0 0 - { } expires 0 4 } run 1",
        "take 3 / done 1 aborted 0",
        "tick",
    ),
    (
        "session 1 strands 1 streams 1 at 1 feed 0 x61620d at 2 feed 0 x0a63640d0a open { until 0 x0d0a 64 0 - { } until 0 x0d0a 64 0 - { } } run 1",
        "tick 1 / tick 2 / done 0 ok 4",
        "last",
    ),
    (
        "session 1 strands 1 streams 1 open { read 0 4 0 - { } close 0 read 0 4 0 - { } } run 1",
        "take 0 / take 1 / done 0 aborted 0",
        "last",
    ),
    (
        "session 1 guards 1 open { post - { release 0 } } run 1",
        "begin 0 ok 0 / call 1",
        "stopped",
    ),
    (
        REALISTIC,
        "take 0 / take 1 / take 3 / tick 2 / done 3 ok 3 / begin 3 ok 3 / call 4",
        "tick 10",
    ),
    (
        "session 1 strands 1 timers 1 slots 1 open { expires 0 9 wait 0 0 0 { } wait 0 0 0 { } emit 0 0 } run 1",
        "take 3 / tick 9 / done 1 ok 0",
        "aborted",
    ),
    (
        "session 2 strands 1 timers 1 open { expiresat 0 7 wait 0 0 - { expiresat 0 3 wait 0 0 - { } } } run 1",
        "tick 7 / done 1 ok 0",
        "tick 10",
    ),
    (
        "session 1 timers 1 open { expires 0 9 wait 0 - - { } post - { stop } } run 3",
        "stop 3",
        "tick",
    ),
    (
        "session 1 strands 2 guards 1 open { defer 0 { post 1 { release 0 } } stop } run 2 restart run 8",
        "stopped / restart",
        "drop",
    ),
];

/// A strand, a timer, a slot and a stream, with four workers.
pub(crate) const REALISTIC: &str =
    "session 1 strands 1 timers 1 slots 1 streams 1 at 0 room 0 64 at 2 feed 0 x68690a open { expires 0 10 wait 0 0 - { emit 0 1 } until 0 x0a 64 0 0 { write 0 x68690a 0 - { cancel 0 } } } run 4";
