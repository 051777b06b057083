//! A session of listed tasks over the scripted world.

use crate::listed::Listed;
use crate::looking::{Lookout, looking_rack};
use asio_types::{Event, OpNo, SetupFault};
use lane_logs::Receipt;
use op_future::{TaskEnd, TaskReport, has_one_run, task_session};
use reactor_script::{FailAt, ScriptReactor};
use session_script::read_script;
use std::alloc::Global;
use std::process::Abort;
use std::sync::Wait;
use std::sync::atomic::{AtomicBool, Ordering};
use std::thread::Threads;

/// One session, and what is wanted of it: of each task the operations that it wants, the receipts
/// that it gets, and how it ends.
#[derive(Clone, Copy)]
pub(crate) struct Wanted<'w> {
    pub(crate) script: &'w str,
    pub(crate) tasks: &'w [(&'w [OpNo], &'w [Receipt], TaskEnd)],
    pub(crate) events: &'w [Event],
}

/// The number of no operation.
pub(crate) const NOBODY: OpNo = u32::MAX;

/// A task for each of these, with room for its receipts.
fn tasks_of<'w, R: Abort>(
    rt: &R,
    alloc: Global,
    wanted: Wanted<'w>,
    flag: &'w AtomicBool,
) -> Vec<Listed<'w>> {
    let mut tasks = Vec::new(alloc);
    for &(ops, _, _) in wanted.tasks {
        let room = Vec::with_capacity(alloc, ops.len()).expect(rt, "memory");
        tasks.push(Listed::of(ops, room, flag)).expect(rt, "memory");
    }
    tasks
}

/// Runs the session, where the reactor fails at these calls.
fn ran<'w, R: Abort + Threads + Wait + Sync>(
    rt: &R,
    alloc: Global,
    wanted: Wanted<'w>,
    fails: &[FailAt],
    flag: &'w AtomicBool,
    lookout: Lookout<'w>,
) -> Result<TaskReport<ScriptReactor, Listed<'w>>, SetupFault> {
    let script = read_script(alloc, wanted.script.as_bytes()).expect(rt, "a script");
    let tasks = tasks_of(rt, alloc, wanted, flag);
    if !has_one_run(&script, tasks.len()) {
        panic!(rt; "not one round: {}", wanted.script);
    }
    let rack = looking_rack(rt, alloc, lookout);
    let reactor = ScriptReactor::make(alloc, fails).expect(rt, "memory");
    prove!(script.acts() <= rack.count());
    match task_session(rt, alloc, &script, rack, reactor, tasks) {
        Ok(report) => Ok(report),
        Err((fault, _)) => Err(fault),
    }
}

/// The session comes to what is wanted, where the reactor fails at these calls; and what is looked for
/// by the handler of an operation, that a task gets a receipt, was seen.
fn comes_to_by<R: Abort + Threads + Wait + Sync>(
    rt: &R,
    alloc: Global,
    wanted: Wanted<'_>,
    fails: &[FailAt],
    looks: OpNo,
) -> bool {
    let flag = AtomicBool::new(false);
    let seen = AtomicBool::new(false);
    let lookout = Lookout {
        op: looks,
        flag: &flag,
        seen: &seen,
    };
    let report = ran(rt, alloc, wanted, fails, &flag, lookout).expect(rt, "set up");
    let TaskReport {
        history,
        ends,
        tasks,
        reactor: _,
        let_go: _,
    } = report;
    if !wanted.events.is_empty() {
        assert_eq!(rt; history.events(), wanted.events, "{}", wanted.script);
    }
    let count = wanted.tasks.len();
    assert!(rt; tasks.len() == count);
    assert!(rt; ends.len() == count);
    for k in 0..count {
        let (_, receipts, end) = wanted.tasks[k];
        assert_eq!(rt;
            tasks[k].receipts(),
            receipts,
            "task {k} of {}",
            wanted.script
        );
        assert_eq!(rt; ends[k], end, "task {k} of {}", wanted.script);
    }
    seen.load(Ordering::SeqCst)
}

/// The session comes to what is wanted, where the reactor fails at these calls.
pub(crate) fn comes_to<R: Abort + Threads + Wait + Sync>(
    rt: &R,
    alloc: Global,
    wanted: Wanted<'_>,
    fails: &[FailAt],
) {
    comes_to_by(rt, alloc, wanted, fails, NOBODY);
}

/// And the handler of this operation saw that a task got a receipt.
pub(crate) fn comes_to_seen<R: Abort + Threads + Wait + Sync>(
    rt: &R,
    alloc: Global,
    wanted: Wanted<'_>,
    looks: OpNo,
) {
    let seen = comes_to_by(rt, alloc, wanted, &[], looks);
    assert!(rt; seen, "the handler of {looks} saw no receipt");
}

/// The session is refused so, where the reactor fails at these calls.
pub(crate) fn is_refused<R: Abort + Threads + Wait + Sync>(
    rt: &R,
    alloc: Global,
    wanted: Wanted<'_>,
    fails: &[FailAt],
    fault: SetupFault,
) {
    let flag = AtomicBool::new(false);
    let seen = AtomicBool::new(false);
    let lookout = Lookout {
        op: NOBODY,
        flag: &flag,
        seen: &seen,
    };
    match ran(rt, alloc, wanted, fails, &flag, lookout) {
        Ok(_) => panic!(rt; "it was set up"),
        Err(came) => assert_eq!(rt; came, fault),
    }
}
