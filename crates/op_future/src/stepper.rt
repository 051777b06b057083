//! Who makes steps of tasks.
ghost use Rattle.std.specs.Prelude.{IfSome};

use crate::stepping::step;
use crate::task::Task;
use crate::task_end::TaskEnd;
use lane_context::{Context, Worker};
use lane_logs::LaneSession;
use op_handlers::CompletionHandler;
use reactor_trait::Reactor;

/// Who makes steps of tasks on such a context: a worker, or what holds one. A bound, so that a future
/// may borrow a type that says more of its worker than that it is one.
pub trait Stepper<C> {
    ghost use Rattle.std.specs.Prelude.{Option};
    ghost use Rattle.op_future.specs.declared.task_end.TaskEnd.{TaskEnd};
    ghost use Rattle.op_future.specs.Tasks.{TaskState};

    /// It may make a step.
    ghost may: { C → Self → Type 0 };

    /// A step answered so: of it and of the task as they were, and as they are then.
    ghost stepped: { C → Option TaskEnd → Self → TaskState → Self → TaskState → Type 0 };

    /// A task may end so, whoever made steps of it.
    ghost ends: { C → TaskEnd → Type 0 };

    /// Makes one step of the task, as `step` does: how the task ends, or `None` where it goes on.
    fn step_on<T: Task>(&mut self, context: &C, task: &mut T) -> Option<TaskEnd>
        requires may { may context.now self.old }
        ensures may { may context.now self.new }
        ensures stepped { stepped context.now result self.old (T.state task.old) self.new (T.state task.new) }
        ensures ends { IfSome result (ends context.now) };
}

impl<'a, X: Reactor, H: CompletionHandler, N: LaneSession> Stepper<Context<'a, X, H, N>>
    for Worker<'a, X, H, N> {
    ghost use Rattle.lane_turns.specs.Attempts.{IsSeated};
    ghost use Rattle.lane_turns.specs.LaneValues.{terms, tries};
    ghost use Rattle.op_future.specs.Futures.{HasStepped, MayEnd};
    ghost use Rattle.op_future.specs.Steps.{party};

    ghost may = { λ context worker. IsSeated context worker };

    ghost stepped = { λ context answer old before new after. HasStepped
        (tries (terms N.names H.marks X.state X.told X.faults N.faults N.clock) 1) context answer
        (party old before) (party new after) };

    ghost ends = { λ context end. MayEnd N.names.script end };

    fn step_on<T: Task>(
        &mut self,
        context: &Context<'a, X, H, N>,
        task: &mut T,
    ) -> Option<TaskEnd> {
        step(context, self, task)
    }
}
