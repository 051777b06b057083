use crate::handlers::{Counts, Task};
use crate::running::{Case, Scenario, limits, play_new};
use io_context::{Named, Reactor};
use std::alloc::Global;
use std::process::Abort;
use std::sync::Wait;
use std::sync::atomic::Ordering;
use std::thread::Threads;

/// A handler of a strand posts itself so many times, one after another, while four threads run.
pub(crate) fn chain<
    'a,
    R: Abort + Threads + Wait + Sync,
    C: Named + Send + Sync,
    W: Reactor + Sync,
>(rt: &R, alloc: Global, case: Case<'a, C, W>, length: u64)
where
    W::Socket: Send,
    W::Poll: Send,
{
    let mut case = case;
    let lane = case.new_strand(rt);
    case.post(rt, lane, Task::Chain(length, lane));
    case.run(rt, alloc, 4);
    case.finish(rt);
}

#[test]
fn a_chain_of_a_million_posts_takes_one_place(rt: HostRuntime) {
    let counts = Counts::new();
    play_new(
        &rt,
        rt.alloc(),
        limits(1, 1),
        &counts,
        Scenario::Chain(999_999),
    );
    assert_eq!(&rt; counts.executed.load(Ordering::SeqCst), 1_000_000);
}
