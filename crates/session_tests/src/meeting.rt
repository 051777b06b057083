//! Handlers that look for others while they execute: two that wait for each other meet only where they
//! execute at the same time, and none sees that what it posts begins.

use crate::counting::{Executions, counting_rack};
use crate::sessions::{Call, call_session, is_status, notes_of, words_of};
use crate::wanted::MEMORY;
use asio_types::{SureSink, SureSource};
use reactor_trait::SilentReactor;
use session_run::Status;
use std::alloc::Global;
use std::process::Abort;
use std::sync::Wait;
use std::thread::Threads;

/// The call of a session, how often each handler looks, for how many in all, and how many see them.
type Meeting = (Call, u32, u64, u64);

/// How many handlers of a session saw as many executed as each looks for.
fn how_many_met<R: Abort + Threads + Wait + Sync>(
    rt: &R,
    alloc: Global,
    call: Call,
    script: &str,
    executions: &Executions,
) -> u64 {
    let words = words_of(rt, alloc, "run");
    let mut source = SureSource::make(alloc, script.as_bytes()).expect(rt, MEMORY);
    let mut out = SureSink::make(alloc, 256).expect(rt, MEMORY);
    let mut notes = notes_of(rt, alloc);
    let mut rack = counting_rack(rt, alloc, executions);
    let (status, _) = call_session(
        rt,
        alloc,
        call,
        words.as_slice(),
        &mut source,
        &mut out,
        &mut notes,
        SilentReactor::empty(alloc),
        &mut rack,
    );
    rack.discard_all();
    is_status(rt, status, Status::Done, script);
    executions.met()
}

/// So many handlers of a script see as many executed as each looks for.
fn meets<R: Abort + Threads + Wait + Sync>(rt: &R, alloc: Global, script: &str, meeting: Meeting) {
    let (call, looks, company, want) = meeting;
    let executions = Executions::looking(looks, company);
    let met = how_many_met(rt, alloc, call, script, &executions);
    assert_eq!(rt; met, want, "{script}");
}

#[test]
fn two_handlers_meet_where_no_lock_is_held(rt: HostRuntime) {
    for &script in OF_TWO {
        for &meeting in MET {
            meets(&rt, rt.alloc(), script, meeting);
        }
    }
}

/// Two handlers of different lanes; the second one's operation is a request in the other script, which
/// has to be taken and done while the first one executes.
const OF_TWO: &[&str] = &[
    "session 1 open { post - { } post - { } } run 2",
    "session 1 strands 2 timers 1 open { post 0 { } wait 0 1 - { } } run 2",
];

/// Two see each other, but under one lock the first gives up.
const MET: &[Meeting] = &[(Call::Asio, 50_000_000, 2, 2), (Call::Book, 1_000, 2, 1)];

#[test]
fn no_handler_sees_that_what_it_posts_begins(rt: HostRuntime) {
    for &(script, all) in OF_POSTERS {
        for _ in 0..TIMES {
            meets(&rt, rt.alloc(), script, (Call::Asio, 1_000_000, all, 1));
        }
    }
}

/// Handlers of which the last but one posts the last, and how many there are: the last alone sees that
/// all were called, since the other worker has nothing to execute before the last but one returned. In
/// the third script that one executes inside the first one's call.
const OF_POSTERS: &[(&str, u64)] = &[
    ("session 1 open { post - { post - { } } } run 2", 2),
    (
        "session 1 strands 2 open { post 0 { post 1 { } } } run 2",
        2,
    ),
    (
        "session 1 strands 1 open { post 0 { dispatch 0 { post - { } } } } run 2",
        3,
    ),
];

const TIMES: u32 = 4;
