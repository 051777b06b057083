//! Contexts on which handlers wait for timers.

use crate::handlers::{Counting, Counts, Task, await_count};
use crate::running::{Case, Part, Scenario, limits, play_new};
use io_context::{Context, Lane, Name, Named, Reactor, Refused};
use std::alloc::Global;
use std::process::Abort;
use std::sync::Wait;
use std::sync::atomic::Ordering;
use std::thread;
use std::thread::Threads;
use std::time::{Clock, Duration};

/// Later than any test, in seconds.
const LONG: u64 = 3_600;

/// A new timer, which expires so much later than now.
fn timer_after<'a, R: Abort + Wait, C: Named, W: Reactor>(
    rt: &R,
    context: &Context<Counting<'a>, C, W>,
    after: Duration,
) -> Name {
    let Ok((timer, _)) = context.make_timer(rt) else {
        panic!(rt; "no timer is free")
    };
    context.expires_after(rt, timer, after);
    timer
}

/// Waits for a timer.
fn wait<'a, R: Abort + Wait, C: Named, W: Reactor>(
    rt: &R,
    context: &Context<Counting<'a>, C, W>,
    timer: Name,
    task: Task,
    counts: &'a Counts,
) {
    match context.wait(rt, Lane::Own, timer, Counting { task, counts }) {
        Ok(_) => {}
        Err(
            Refused {
                back,
                why: _,
                section: _,
            },
        ) => {
            let Counting { task: _, counts: _ } = back;
            panic!(rt; "a wait is refused")
        }
    }
}

/// Of three waits two are due first, on one timer.
pub(crate) fn expire<
    'a,
    R: Abort + Threads + Wait + Sync,
    C: Named + Send + Sync,
    W: Reactor + Sync,
>(rt: &R, alloc: Global, case: Case<'a, C, W>)
where
    W::Socket: Send,
    W::Poll: Send,
{
    let mut case = case;
    let later = timer_after(rt, &case.context, Duration::from_millis(40));
    let first = timer_after(rt, &case.context, Duration::from_millis(20));
    wait(rt, &case.context, later, Task::Waited(1), case.counts);
    wait(rt, &case.context, first, Task::Waited(2), case.counts);
    wait(rt, &case.context, first, Task::Waited(3), case.counts);
    case.run(rt, alloc, 1);
    case.finish(rt);
}

/// Of two waits one is cancelled, the other by a new expiry, which a third waits for; a handler cancels one on
/// another timer, and one is left.
pub(crate) fn cancel<
    'a,
    R: Abort + Threads + Wait + Sync,
    C: Named + Send + Sync,
    W: Reactor + Sync,
>(rt: &R, alloc: Global, case: Case<'a, C, W>)
where
    W::Socket: Send,
    W::Poll: Send,
{
    let mut case = case;
    let timer = timer_after(rt, &case.context, Duration::from_secs(LONG));
    wait(rt, &case.context, timer, Task::Waited(1), case.counts);
    wait(rt, &case.context, timer, Task::Waited(2), case.counts);
    case.context.cancel_one(rt, timer);
    case.context.expires_at(rt, timer, 0);
    wait(rt, &case.context, timer, Task::Waited(3), case.counts);
    let other = timer_after(rt, &case.context, Duration::from_secs(LONG));
    wait(rt, &case.context, other, Task::Waited(4), case.counts);
    case.post(rt, Lane::Own, Task::Cancel(other));
    case.run(rt, alloc, 1);
    case.context
        .expires_after(rt, timer, Duration::from_secs(LONG));
    wait(rt, &case.context, timer, Task::Waited(4), case.counts);
    case.finish(rt);
}

/// While workers sleep for a long time, a wait is initiated that is due soon.
pub(crate) fn wait_earlier<
    'a,
    R: Abort + Threads + Wait + Clock + Sync,
    C: Named + Send + Sync,
    W: Reactor + Sync,
>(rt: &R, alloc: Global, case: Case<'a, C, W>)
where
    W::Socket: Send,
    W::Poll: Send,
{
    let Case {
        context,
        mut part,
        counts,
    } = case;
    let shared = &context;
    let long = timer_after(rt, shared, Duration::from_secs(LONG));
    wait(rt, shared, long, Task::Waited(1), counts);
    thread::join(
        rt,
        || part.run(rt, alloc, shared, 2),
        || {
            thread::sleep(rt, Duration::from_millis(20));
            let soon = timer_after(rt, shared, Duration::from_millis(5));
            wait(rt, shared, soon, Task::Waited(2), counts);
            await_count(&counts.executed, 1);
            shared.free_timer(rt, long);
        },
    );
    let Part { share } = part;
    let _history = context.finish(rt, share);
}

/// A handler whose wait was due waits for that of the next one.
pub(crate) fn watch<
    'a,
    R: Abort + Threads + Wait + Sync,
    C: Named + Send + Sync,
    W: Reactor + Sync,
>(rt: &R, alloc: Global, case: Case<'a, C, W>)
where
    W::Socket: Send,
    W::Poll: Send,
{
    let mut case = case;
    let first = timer_after(rt, &case.context, Duration::from_millis(10));
    let next = timer_after(rt, &case.context, Duration::from_millis(30));
    wait(rt, &case.context, first, Task::Meet(2), case.counts);
    wait(rt, &case.context, next, Task::Nothing, case.counts);
    case.run(rt, alloc, 2);
    case.finish(rt);
}

/// A handler makes a timer.
pub(crate) fn make_own<
    'a,
    R: Abort + Threads + Wait + Sync,
    C: Named + Send + Sync,
    W: Reactor + Sync,
>(rt: &R, alloc: Global, case: Case<'a, C, W>)
where
    W::Socket: Send,
    W::Poll: Send,
{
    let mut case = case;
    case.post(rt, Lane::Own, Task::MakeTimer);
    case.run(rt, alloc, 1);
    case.finish(rt);
}

#[test]
fn waits_complete_by_expiry_and_then_by_acceptance(rt: HostRuntime) {
    let counts = Counts::new();
    play_new(&rt, rt.alloc(), limits(4, 0), &counts, Scenario::Expire);
    assert_eq!(&rt; counts.order.load(Ordering::SeqCst), 231);
}

#[test]
fn cancelled_waits_are_aborted_and_their_timer_is_set_again(rt: HostRuntime) {
    let counts = Counts::new();
    play_new(&rt, rt.alloc(), limits(5, 0), &counts, Scenario::Cancel);
    assert_eq!(&rt; counts.order.load(Ordering::SeqCst), 6739);
    assert_eq!(&rt; counts.discarded.load(Ordering::SeqCst), 1);
}

#[test]
fn an_earlier_wait_wakes_the_sleeper(rt: HostRuntime) {
    let counts = Counts::new();
    play_new(&rt, rt.alloc(), limits(4, 0), &counts, Scenario::Earlier);
    assert_eq!(&rt; counts.order.load(Ordering::SeqCst), 26);
}

#[test]
fn the_clock_is_watched_while_a_handler_executes(rt: HostRuntime) {
    let counts = Counts::new();
    play_new(&rt, rt.alloc(), limits(4, 0), &counts, Scenario::Watch);
    assert_eq!(&rt; counts.executed.load(Ordering::SeqCst), 2);
}

#[test]
fn handlers_make_timers_set_them_again_and_destroy_them(rt: HostRuntime) {
    let counts = Counts::new();
    play_new(&rt, rt.alloc(), limits(2, 0), &counts, Scenario::Own);
    // A wait for a timer that is gone completes with another code, and leaves 3 + 5.
    assert_eq!(&rt; counts.order.load(Ordering::SeqCst), 128);
}
