use crate::handlers::{Counts, Task};
use crate::running::{Case, Scenario, limits, play_new};
use io_context::{Named, Reactor};
use std::alloc::Global;
use std::process::Abort;
use std::sync::Wait;
use std::sync::atomic::Ordering;
use std::thread::Threads;

/// A handler on each of two strands, which waits for the other one.
pub(crate) fn meet<'a, R: Abort + Threads + Wait + Sync, C: Named + Send + Sync, W: Reactor + Sync>(
    rt: &R,
    alloc: Global,
    case: Case<'a, C, W>,
)
where
    W::Socket: Send,
    W::Poll: Send,
{
    let mut case = case;
    for _ in 0..2u32 {
        let lane = case.new_strand(rt);
        case.post(rt, lane, Task::Meet(2));
    }
    case.run(rt, alloc, 2);
    case.finish(rt);
}

#[test]
fn handlers_of_two_strands_execute_at_the_same_time(rt: HostRuntime) {
    let counts = Counts::new();
    play_new(&rt, rt.alloc(), limits(8, 2), &counts, Scenario::Meet);
    assert_eq!(&rt; counts.executed.load(Ordering::SeqCst), 2);
    assert_eq!(&rt; counts.retired.load(Ordering::SeqCst), 2);
}
