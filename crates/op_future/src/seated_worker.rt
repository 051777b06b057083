//! A worker that has its seats, whoever polls it.
ghost use Rattle.std.specs.Prelude.{◌≡◌};
ghost use Rattle.op_future.specs.SeatedWorkers.{IsReadyAs};

use crate::stepper::Stepper;
use crate::stepping::step;
use crate::task::Task;
use crate::task_end::TaskEnd;
use lane_context::{Context, Worker};
use lane_logs::LaneSession;
use op_handlers::CompletionHandler;
use reactor_trait::Reactor;
use std::marker::{Brand, Model, PhantomData};

/// The table of turns of one context, for contracts alone: which it is, a call picks at `Brand`.
pub trait LanesNamed {
    ghost use Rattle.turn_table.specs.Seated.{Lanes};

    ghost lanes: { Lanes };
}

impl LanesNamed for Brand {
    ghost use Rattle.op_future.specs.SeatedWorkers.{no_lanes};

    ghost lanes = { no_lanes };
}

/// A worker with its number, which has its seats of the clock and of the table of turns. What an
/// executor leaves of a worker that a future borrowed is known by its type alone: a plain worker can't
/// be used again behind it, this one can.
pub struct SeatedWorker<'a, X: Reactor, H: CompletionHandler, N: LaneSession, L: LanesNamed> {
    worker: Worker<'a, X, H, N>,
    number: usize,
    lanes: PhantomData<L>,
}

impl<'a, X: Reactor, H: CompletionHandler, N: LaneSession, L: LanesNamed> Model
    for SeatedWorker<'a, X, H, N, L> {
    ghost use Rattle.op_future.specs.SeatedWorkers.{IsReadyAs, SeatedState};

    ghost Value = { SeatedState H X };

    ghost view = { λ s. record { number = s.number; worker = s.worker } };

    ghost invariant = { λ s. IsReadyAs N.names.script L.lanes s.number s.worker };
}

impl<'a, X: Reactor, H: CompletionHandler, N: LaneSession, L: LanesNamed> SeatedWorker<
    'a,
    X,
    H,
    N,
    L,
> {
    /// The worker with this number, which has its seats.
    pub fn of(worker: Worker<'a, X, H, N>, number: usize) -> SeatedWorker<'a, X, H, N, L>
        requires ready { IsReadyAs N.names.script L.lanes number worker }
        ensures number { result.number ≡ number }
        ensures worker { result.worker ≡ worker.entry }
    {
        SeatedWorker {
            worker,
            number,
            lanes: PhantomData,
        }
    }

    /// Its number. Behind an executor it tells which of several workers this is.
    pub fn number(&self) -> usize
        ensures { result ≡ self.now.number }
    {
        self.number
    }

    /// The worker again, which has its seats.
    pub fn leave(self) -> Worker<'a, X, H, N>
        ensures worker { result ≡ self.entry.worker }
        ensures ready { IsReadyAs N.names.script L.lanes self.entry.number result }
    {
        let SeatedWorker {
            worker,
            number: _,
            lanes: _,
        } = self;
        worker
    }
}

impl<'a, X: Reactor, H: CompletionHandler, N: LaneSession, L: LanesNamed> Stepper<
    Context<'a, X, H, N>,
> for SeatedWorker<'a, X, H, N, L> {
    ghost use Rattle.lane_turns.specs.LaneValues.{terms, tries};
    ghost use Rattle.op_future.specs.Futures.{MayEnd};
    ghost use Rattle.op_future.specs.SeatedWorkers.{HasSteppedAs};
    ghost use Rattle.op_future.specs.Steps.{party};

    ghost may = { λ context seated. context ≡ L.lanes };

    ghost stepped = { λ context answer old before new after. HasSteppedAs
        (tries (terms N.names H.marks X.state X.told X.faults N.faults N.clock) 1) context answer
        old before new after };

    ghost ends = { λ context end. MayEnd N.names.script end };

    fn step_on<T: Task>(
        &mut self,
        context: &Context<'a, X, H, N>,
        task: &mut T,
    ) -> Option<TaskEnd> {
        step(context, &mut self.worker, task)
    }
}
