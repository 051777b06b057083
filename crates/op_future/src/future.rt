//! A task as a future.
ghost use Rattle.std.specs.Prelude.{◌≡◌, IfSome};

use crate::stepper::Stepper;
use crate::task::Task;
use crate::task_end::TaskEnd;
use futures::Future;
use futures::task::{Context as Polling, Poll};
use std::marker::Model;

/// A task with who makes its steps, as a worker that looks for what it wants. A poll makes one step;
/// where that ends nothing the future is pending and has yielded, so who polls it is kept busy, as `run`
/// is. Of a plain worker nothing is known behind an executor; a `SeatedWorker` still has its seats.
#[derive(Drop)]
pub struct TaskFuture<'f, C, W: Stepper<C>, T: Task> {
    context: &'f C,
    worker: &'f mut W,
    task: &'f mut T,
}

impl<'f, C, W: Stepper<C>, T: Task> Model for TaskFuture<'f, C, W, T> {
    ghost use Rattle.op_future.specs.Futures.{FutureState};

    ghost Value = { FutureState C W };

    ghost view = { λ f. record {
      context = f.context.now;
      worker = f.worker.now;
      task = T.state f.task.now;
    } };
}

impl<'f, C, W: Stepper<C>, T: Task> TaskFuture<'f, C, W, T> {
    /// The future of a task, whose value is how it ends.
    pub fn of(context: &'f C, worker: &'f mut W, task: &'f mut T) -> TaskFuture<'f, C, W, T>
        ensures context { result.context ≡ context.now }
        ensures worker { result.worker ≡ worker.old }
        ensures task { result.task ≡ T.state task.old }
    {
        TaskFuture {
            context,
            worker,
            task,
        }
    }

    /// Makes one step of the task, as `step` does: hands it every receipt that is found for what it
    /// wants; if it still wants, one attempt is made to do something for the context, and it is handed
    /// what is found behind that. `None` where what it wants wasn't found, and something was done or
    /// work is left. Waits for nobody and takes no memory, if who makes its steps doesn't.
    pub fn step(&mut self) -> Option<TaskEnd>
        requires turns { W.may self.old.context self.old.worker }
        ensures turns { W.may self.new.context self.new.worker }
        ensures stepped { W.stepped self.old.context result self.old.worker self.old.task
            self.new.worker self.new.task }
        ensures ends { IfSome result (W.ends self.old.context) }
        ensures context { self.new.context ≡ self.old.context }
    {
        self.worker.step_on(self.context, self.task)
    }
}

impl<'f, C, W: Stepper<C>, T: Task> Future for TaskFuture<'f, C, W, T> {
    type Output = TaskEnd;

    ghost can_poll = { λ f. W.may f.context f.worker };

    ghost gives = { λ f end. W.ends f.context end };

    fn poll(&mut self, cx: &mut Polling<'_>) -> Poll<TaskEnd> {
        match self.step() {
            Some(end) => Poll::Ready(end),
            None => cx.yield_now(),
        }
    }
}
