//! Two handlers that wait for each other: without a lock they run at the same time, and meet; with one
//! lock each waits in vain.

use crate::gate::Gate;
use crate::running::history_of;
use crate::wanted::have_passed;
use session_run::ContextKind;
use std::alloc::Global;
use std::process::Abort;
use std::sync::Wait;
use std::thread::Threads;

/// A kind of context, how often each handler looks for the other at the most, how many see the other
/// then, and how many give up.
type Passing = (ContextKind, u32, (u32, u32));

/// The handlers of a script pass a gate so.
fn pass<R: Abort + Threads + Wait + Sync>(rt: &R, alloc: Global, text: &str, passing: Passing) {
    let (kind, looks, passed) = passing;
    let gate = Gate::of_looks(looks);
    let _ = history_of(rt, alloc, kind, text, Some(&gate), text);
    have_passed(rt, gate.passed(), passed, text);
}

#[test]
fn handlers_wait_for_each_other(rt: HostRuntime) {
    for text in GATES {
        for _ in 0..TIMES {
            pass(&rt, rt.alloc(), text, MEETS);
        }
        pass(&rt, rt.alloc(), text, MISSES);
    }
}

const TIMES: u32 = 100;

const MEETS: Passing = (ContextKind::WithoutLock, 50_000_000, (2, 0));

const MISSES: Passing = (ContextKind::OneLock, 1_000_000, (0, 2));

/// In the second one a worker takes a request and completes it while a handler executes.
const GATES: &[&str] = &[
    "session 1 open { post - { } post - { } } run 2",
    "session 1 strands 2 timers 1 open { post 0 { } wait 0 1 - { } } run 2",
];
