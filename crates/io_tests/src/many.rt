//! Contexts on which many threads initiate, which are stopped and restarted, and which are finished with
//! handlers left: each handler that was accepted is executed once, or discarded once.

use crate::handlers::{Counting, Counts, Task};
use crate::running::{Case, Part, Scenario, limits, play_new, post};
use io_context::{Context, Lane, Named, Reactor, Refusal, WorkGuard};
use std::alloc::Global;
use std::process::Abort;
use std::sync::atomic::Ordering;
use std::sync::{Mutex, Wait};
use std::thread;
use std::thread::Threads;

/// How many handlers each outside thread posts.
const EACH: u64 = 1_000;

/// Posts handlers to these lanes by turns, from this one on.
fn post_all<'a, R: Wait, C: Named, W: Reactor>(
    rt: &R,
    context: &Context<Counting<'a>, C, W>,
    lanes: &[Lane; 5],
    first: usize,
    counts: &'a Counts,
) {
    let first = first % 5;
    for k in 0..EACH {
        let turn = (k % 5) as usize;
        post(
            rt,
            context,
            lanes[(first + turn) % 5],
            Task::Nothing,
            counts,
        );
    }
}

/// Gives a work guard back, if there is one.
fn release<'a, R: Wait, C: Named, W: Reactor>(
    rt: &R,
    context: &Context<Counting<'a>, C, W>,
    guard: Option<WorkGuard<C>>,
) {
    match guard {
        None => {}
        Some(guard) => {
            context.release(rt, guard);
        }
    }
}

/// Sixteen threads post to four strands and to none while four run; a guard keeps those in `run` till then.
pub(crate) fn initiate_and_run<
    'a,
    R: Abort + Threads + Wait + Sync,
    C: Named + Send + Sync,
    W: Reactor + Sync,
>(rt: &R, alloc: Global, case: Case<'a, C, W>)
where
    W::Socket: Send,
    W::Poll: Send,
{
    let lanes = [
        case.new_strand(rt),
        case.new_strand(rt),
        case.new_strand(rt),
        case.new_strand(rt),
        Lane::Own,
    ];
    let Case {
        context,
        mut part,
        counts,
    } = case;
    let shared = &context;
    let (guard, _) = shared.hold(rt);
    // a closure can't hold a guard, which can't be dropped
    let kept = Mutex::new(guard);
    thread::join(
        rt,
        || part.run(rt, alloc, shared, 4),
        || {
            let mut posters = [0u8; 16];
            thread::for_each_mut(
                rt,
                &mut posters,
                16,
                &|first, _| { post_all(rt, shared, &lanes, first, counts) },
            );
            release(rt, shared, kept.lock(rt).take());
        },
    );
    release(rt, shared, kept.into_inner());
    let Part { share } = part;
    let _history = context.finish(rt, share);
}

#[test]
fn each_handler_that_is_accepted_is_executed_once(rt: HostRuntime) {
    let counts = Counts::new();
    play_new(&rt, rt.alloc(), limits(64, 4), &counts, Scenario::Many);
    let executed = counts.executed.load(Ordering::SeqCst);
    let refused = counts.refused.load(Ordering::SeqCst);
    assert_eq!(&rt; executed.saturating_add(refused), 16 * EACH);
    assert_eq!(&rt; counts.discarded.load(Ordering::SeqCst), 0);
    assert_eq!(&rt; counts.retired.load(Ordering::SeqCst), 4);
}

/// Stopped by its third handler, restarted, stopped from outside and finished with handlers left.
pub(crate) fn stop_and_finish<
    'a,
    R: Abort + Threads + Wait + Sync,
    C: Named + Send + Sync,
    W: Reactor + Sync,
>(rt: &R, alloc: Global, case: Case<'a, C, W>)
where
    W::Socket: Send,
    W::Poll: Send,
{
    let mut case = case;
    let executed = &case.counts.executed;
    let lane = case.new_strand(rt);
    for n in 0..6u32 {
        let task = if n == 2 { Task::Stop } else { Task::Nothing };
        assert!(rt; case.post(rt, lane, task).is_none());
    }
    assert_eq!(rt; case.post(rt, lane, Task::Nothing), Some(Refusal::Full));
    case.run(rt, alloc, 1);
    assert_eq!(rt; executed.load(Ordering::SeqCst), 3);
    case.run(rt, alloc, 2);
    assert_eq!(rt; executed.load(Ordering::SeqCst), 3);
    let (restarted, _) = case.context.restart();
    assert!(rt; restarted);
    case.context.stop(rt);
    case.run(rt, alloc, 1);
    assert_eq!(rt; executed.load(Ordering::SeqCst), 3);
    match lane {
        Lane::Own => {}
        Lane::Strand(name) => {
            case.context.free_strand(rt, name);
        }
    }
    assert_eq!(rt; case.post(rt, lane, Task::Nothing), Some(Refusal::Gone));
    case.finish(rt);
}

#[test]
fn handlers_that_are_left_are_discarded(rt: HostRuntime) {
    let counts = Counts::new();
    play_new(&rt, rt.alloc(), limits(6, 1), &counts, Scenario::Stop);
    assert_eq!(&rt; counts.executed.load(Ordering::SeqCst), 3);
    assert_eq!(&rt; counts.discarded.load(Ordering::SeqCst), 3);
    assert_eq!(&rt; counts.refused.load(Ordering::SeqCst), 2);
    assert_eq!(&rt; counts.retired.load(Ordering::SeqCst), 1);
}
