//! Running a task to its end.
ghost use Rattle.std.specs.Prelude.{◌≡◌};
ghost use Rattle.lane_turns.specs.Attempts.{IsSeated};
ghost use Rattle.lane_turns.specs.LaneValues.{terms, tries};
ghost use Rattle.op_future.specs.Steps.{HasGot, WhyEnds, party};

use crate::stepping::step;
use crate::task::Task;
use crate::task_end::TaskEnd;
use lane_context::{Context, Worker};
use lane_logs::LaneSession;
use op_handlers::CompletionHandler;
use reactor_trait::Reactor;
use std::sync::Wait;

/// Makes steps of a task until one ends it: its worker executes handlers meanwhile. Takes no memory.
pub fn run_task<'a, Rt, X, H, N, T>(
    rt: &Rt,
    context: &Context<'a, X, H, N>,
    worker: &mut Worker<'a, X, H, N>,
    task: &mut T,
) -> TaskEnd
where
    Rt: Wait,
    X: Reactor,
    H: CompletionHandler,
    N: LaneSession,
    T: Task,
    requires turns { IsSeated context.now worker.old }
    ensures got { HasGot N.names.script (party worker.old (T.state task.old))
        (party worker.new (T.state task.new)) }
    ensures ended { WhyEnds
        (tries (terms N.names H.marks X.state X.told X.faults N.faults N.clock) 1) context.now.lanes result
        (party worker.old (T.state task.old)) (party worker.new (T.state task.new)) }
    ensures turns { IsSeated context.now worker.new }
{
    for _ in rt.forever() {
        if let Some(end) = step(context, worker, task) {
            return end;
        }
    }
    unreachable!()
}
