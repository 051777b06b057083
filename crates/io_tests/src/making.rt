use crate::handlers::{Counts, Task};
use crate::running::{Case, Scenario, limits, play_new};
use io_context::{Lane, Named, Reactor};
use std::alloc::Global;
use std::process::Abort;
use std::sync::Wait;
use std::sync::atomic::Ordering;
use std::thread::Threads;

/// One strand after another, made by handlers at the only place that there is.
pub(crate) fn make_strands<
    'a,
    R: Abort + Threads + Wait + Sync,
    C: Named + Send + Sync,
    W: Reactor + Sync,
>(rt: &R, alloc: Global, case: Case<'a, C, W>)
where
    W::Socket: Send,
    W::Poll: Send,
{
    let mut case = case;
    for task in [Task::MakeStrand, Task::MakeAndFree, Task::MakeStrand] {
        case.post(rt, Lane::Own, task);
        case.run(rt, alloc, 2);
        let (restarted, _) = case.context.restart();
        assert!(rt; restarted);
    }
    case.finish(rt);
}

#[test]
fn handlers_make_strands_and_free_them(rt: HostRuntime) {
    let counts = Counts::new();
    play_new(&rt, rt.alloc(), limits(8, 1), &counts, Scenario::Strands);
    // What is posted to a strand that is gone leaves mark 8.
    assert_eq!(&rt; counts.order.load(Ordering::SeqCst), 11_281_128);
    assert_eq!(&rt; counts.executed.load(Ordering::SeqCst), 11);
    assert_eq!(&rt; counts.refused.load(Ordering::SeqCst), 0);
    assert_eq!(&rt; counts.retired.load(Ordering::SeqCst), 3);
}
