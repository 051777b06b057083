//! Calls of a worker, and what they answer.

ghost use Rattle.std.specs.Prelude.{◌<◌, length};
ghost use Rattle.lane_turns.specs.AllWorkers.{AreReady};
ghost use Rattle.context_tests.specs.Asking.{IsReadyAs};

use lane_context::{Context, Worker};
use lane_logs::LaneSession;
use lane_turns::One;
use op_handlers::CompletionHandler;
use reactor_trait::Reactor;

/// A call of one worker.
#[derive(Clone, Copy)]
pub(crate) enum Ask {
    PollOne,
    Stop,
    Stopped,
    Work,
}

/// What it answers.
#[derive(Clone, Copy, Debug, PartialEq, Eq)]
pub(crate) enum Answer {
    Came(One),
    Stops,
    Stopped(bool),
    Work(u64),
}

/// The worker with this number polls.
fn came<'a, X: Reactor, H: CompletionHandler, N: LaneSession>(
    context: &Context<'a, X, H, N>,
    worker: &mut Worker<'a, X, H, N>,
    number: usize,
) -> One
    requires ready { IsReadyAs N.names.script context.now number worker.old }
    ensures ready { IsReadyAs N.names.script context.now number worker.new }
{
    context.poll_one(worker)
}

/// It stops the context.
fn stops<'a, X: Reactor, H: CompletionHandler, N: LaneSession>(
    context: &Context<'a, X, H, N>,
    worker: &mut Worker<'a, X, H, N>,
    number: usize,
)
    requires ready { IsReadyAs N.names.script context.now number worker.old }
    ensures ready { IsReadyAs N.names.script context.now number worker.new }
{
    context.stop(worker);
}

/// It asks whether the context is stopped.
fn is_stopped<'a, X: Reactor, H: CompletionHandler, N: LaneSession>(
    context: &Context<'a, X, H, N>,
    worker: &mut Worker<'a, X, H, N>,
    number: usize,
) -> bool
    requires ready { IsReadyAs N.names.script context.now number worker.old }
    ensures ready { IsReadyAs N.names.script context.now number worker.new }
{
    context.stopped(worker)
}

/// It asks how much work is left.
fn work_left<'a, X: Reactor, H: CompletionHandler, N: LaneSession>(
    context: &Context<'a, X, H, N>,
    worker: &mut Worker<'a, X, H, N>,
    number: usize,
) -> u64
    requires ready { IsReadyAs N.names.script context.now number worker.old }
    ensures ready { IsReadyAs N.names.script context.now number worker.new }
{
    context.work(worker)
}

/// It makes a call.
fn asked<'a, X: Reactor, H: CompletionHandler, N: LaneSession>(
    context: &Context<'a, X, H, N>,
    worker: &mut Worker<'a, X, H, N>,
    number: usize,
    call: Ask,
) -> Answer
    requires ready { IsReadyAs N.names.script context.now number worker.old }
    ensures ready { IsReadyAs N.names.script context.now number worker.new }
{
    match call {
        Ask::PollOne => Answer::Came(came(context, worker, number)),
        Ask::Stop => {
            stops(context, worker, number);
            Answer::Stops
        }
        Ask::Stopped => Answer::Stopped(is_stopped(context, worker, number)),
        Ask::Work => Answer::Work(work_left(context, worker, number)),
    }
}

/// The worker with this number makes a call.
pub(crate) fn nth_asked<'a, X: Reactor, H: CompletionHandler, N: LaneSession>(
    context: &Context<'a, X, H, N>,
    all: &mut [Worker<'a, X, H, N>],
    number: usize,
    call: Ask,
) -> Answer
    requires there { number < length all.old }
    requires ready { AreReady N.names.script context.now all.old }
    ensures ready { AreReady N.names.script context.now all.new }
{
    asked(context, &mut all[number], number, call)
}
