use crate::handlers::{Counts, Task, await_count, count};
use crate::running::{Case, Part, Scenario, limits, play_new, post};
use io_context::{Lane, Named, Reactor};
use std::alloc::Global;
use std::process::Abort;
use std::sync::Wait;
use std::sync::atomic::Ordering;
use std::thread;
use std::thread::Threads;

/// While a handler executes, a thread posts till no place is free; then the handler posts four.
pub(crate) fn grant<
    'a,
    R: Abort + Threads + Wait + Sync,
    C: Named + Send + Sync,
    W: Reactor + Sync,
>(rt: &R, alloc: Global, case: Case<'a, C, W>)
where
    W::Socket: Send,
    W::Poll: Send,
{
    let Case {
        context,
        mut part,
        counts,
    } = case;
    let shared = &context;
    post(rt, shared, Lane::Own, Task::Initiate(4), counts);
    thread::join(
        rt,
        || part.run(rt, alloc, shared, 1),
        || {
            await_count(&counts.executed, 1);
            for _ in 0..4u32 {
                post(rt, shared, Lane::Own, Task::Nothing, counts);
            }
            count(&counts.order);
        },
    );
    let Part { share } = part;
    let _history = context.finish(rt, share);
}

#[test]
fn granted_places_are_reserved(rt: HostRuntime) {
    let counts = Counts::new();
    play_new(&rt, rt.alloc(), limits(4, 0), &counts, Scenario::Grant);
    // Of four places one is the handler's own and two are granted to it.
    assert_eq!(&rt; counts.refused.load(Ordering::SeqCst), 3);
    assert_eq!(&rt; counts.discarded.load(Ordering::SeqCst), 1);
    assert_eq!(&rt; counts.executed.load(Ordering::SeqCst), 5);
}
