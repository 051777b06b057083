use crate::handlers::{Counts, Task};
use crate::running::{Case, Scenario, limits, play_new};
use io_context::{Named, Reactor};
use std::alloc::Global;
use std::process::Abort;
use std::sync::Wait;
use std::sync::atomic::Ordering;
use std::thread::Threads;

/// A handler of a strand posts 2, dispatches 3 and is 1; 4 is ready behind it.
pub(crate) fn dispatch<
    'a,
    R: Abort + Threads + Wait + Sync,
    C: Named + Send + Sync,
    W: Reactor + Sync,
>(rt: &R, alloc: Global, case: Case<'a, C, W>)
where
    W::Socket: Send,
    W::Poll: Send,
{
    let mut case = case;
    let lane = case.new_strand(rt);
    case.post(rt, lane, Task::Dispatch(lane));
    case.post(rt, lane, Task::Mark(4));
    case.run(rt, alloc, 2);
    case.finish(rt);
}

#[test]
fn a_dispatch_goes_first_and_executes_behind_its_handler(rt: HostRuntime) {
    let counts = Counts::new();
    play_new(&rt, rt.alloc(), limits(4, 1), &counts, Scenario::Dispatch);
    assert_eq!(&rt; counts.order.load(Ordering::SeqCst), 1342);
}
