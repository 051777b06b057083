//! One step of a task.
ghost use Rattle.std.specs.Prelude.{◌≡◌, IfNone, IfSome};
ghost use Rattle.lane_turns.specs.Attempts.{IsSeated};
ghost use Rattle.lane_turns.specs.LaneValues.{terms, tries};
ghost use Rattle.op_future.specs.Steps.{HasGot, HasReadSome, WhyEnds, WhyGoesOn, party};

use crate::collecting::collect;
use crate::task::Task;
use crate::task_end::TaskEnd;
use lane_context::{Context, Worker};
use lane_logs::LaneSession;
use lane_turns::One;
use op_handlers::CompletionHandler;
use reactor_trait::Reactor;
use std::thread::yield_now;

/// Reads the work where nothing was found to do; where none is left, looks for what the task wants
/// once more. Where some is, another thread goes first.
fn settle<'a, X, H, N, T>(
    context: &Context<'a, X, H, N>,
    worker: &mut Worker<'a, X, H, N>,
    task: &mut T,
) -> Option<TaskEnd>
where
    X: Reactor,
    H: CompletionHandler,
    N: LaneSession,
    T: Task,
    requires turns { IsSeated context.now worker.old }
    ensures got { HasGot N.names.script (party worker.old (T.state task.old))
        (party worker.new (T.state task.new)) }
    ensures ended { IfSome result (λ end. WhyEnds
        (tries (terms N.names H.marks X.state X.told X.faults N.faults N.clock) 1) context.now.lanes end
        (party worker.old (T.state task.old)) (party worker.new (T.state task.new))) }
    ensures read { IfNone result (HasReadSome worker.old worker.new) }
    ensures same { IfNone result (T.state task.new ≡ T.state task.old) }
    ensures turns { IsSeated context.now worker.new }
{
    let work = context.work(worker);
    let is_left = work > 0;
    if is_left {
        yield_now();
        return None;
    }
    match collect(context, worker, task) {
        Some(end) => Some(end),
        None => Some(TaskEnd::Ended),
    }
}

/// Hands the task every receipt that is found for what it wants; if it still wants, one attempt is
/// made to do something for the context, and it is handed what is found behind that. `None` where
/// what it wants wasn't found, and something was done or work is left.
pub fn step<'a, X, H, N, T>(
    context: &Context<'a, X, H, N>,
    worker: &mut Worker<'a, X, H, N>,
    task: &mut T,
) -> Option<TaskEnd>
where
    X: Reactor,
    H: CompletionHandler,
    N: LaneSession,
    T: Task,
    requires turns { IsSeated context.now worker.old }
    ensures got { HasGot N.names.script (party worker.old (T.state task.old))
        (party worker.new (T.state task.new)) }
    ensures ended { IfSome result (λ end. WhyEnds
        (tries (terms N.names H.marks X.state X.told X.faults N.faults N.clock) 1) context.now.lanes end
        (party worker.old (T.state task.old)) (party worker.new (T.state task.new))) }
    ensures goes_on { IfNone result (WhyGoesOn
        (tries (terms N.names H.marks X.state X.told X.faults N.faults N.clock) 1) context.now.lanes
        (party worker.old (T.state task.old)) (party worker.new (T.state task.new))) }
    ensures turns { IsSeated context.now worker.new }
{
    if let Some(end) = collect(context, worker, task) {
        return Some(end);
    }
    let one = context.poll_one(worker);
    if let Some(end) = collect(context, worker, task) {
        return Some(end);
    }
    match one {
        One::Stopped => Some(TaskEnd::Stopped),
        One::Fault => Some(TaskEnd::Fault),
        One::Nothing => settle(context, worker, task),
        _ => None,
    }
}
