//! Runs of the caller's own worker, with all turns in one hand.
ghost use Rattle.std.specs.Prelude.{◌≡◌, ◌<◌, IsFalse, IsTrue, None, length};
ghost use Rattle.lane_turns.specs.AllWorkers.{NoneFaulted};
ghost use Rattle.lane_turns.specs.Gathering.{NoneKeeps, StandsForFirst};
ghost use Rattle.lane_turns.specs.LaneValues.{terms, tries};
ghost use Rattle.lane_turns.specs.OwnRuns.{HasRunOwn, LastHasRun};
ghost use Rattle.lane_context.specs.RoundEnds.{OneFaulted, OneKnowsFault, closing_after};

use crate::context::Context;
use crate::worker::Worker;
use lane_logs::LaneSession;
use lane_turns::{Closing, RunEnd};
use op_handlers::CompletionHandler;
use reactor_trait::Reactor;
use std::sync::Wait;
use turn_table::TurnSeat;

/// How a call of `run` of the caller's own worker ended, and its seat at the table.
pub(crate) struct OwnRun {
    pub(crate) end: RunEnd,
    pub(crate) seat: TurnSeat,
}

impl<'a, X: Reactor, H: CompletionHandler, N: LaneSession> Context<'a, X, H, N> {
    /// The caller's own worker runs with a seat that stands for all numbers, and gives back what it
    /// kept.
    fn run_own<Rt: Wait>(&self, rt: &Rt, worker: &mut Worker<'a, X, H, N>, seat: TurnSeat) -> OwnRun
        requires free { worker.old.kept ≡ None }
        requires seat { StandsForFirst self.now self.now.seats seat }
        ensures ran { HasRunOwn
            (tries (terms N.names H.marks X.state X.told X.faults N.faults N.clock) 16)
            self.now.lanes result.end worker.old worker.new }
        ensures seat { StandsForFirst self.now self.now.seats result.seat }
    {
        worker.sit_down(seat);
        let end = self.run(rt, worker);
        let seat = self.unseat(worker);
        OwnRun { end, seat }
    }

    /// The last of all workers does so.
    pub(crate) fn run_last<Rt: Wait>(
        &self,
        rt: &Rt,
        workers: &mut [Worker<'a, X, H, N>],
        seat: TurnSeat,
    ) -> OwnRun
        requires some { 0 < length workers.old }
        requires free { NoneKeeps workers.old }
        requires seat { StandsForFirst self.now self.now.seats seat }
        ensures ran { LastHasRun
            (tries (terms N.names H.marks X.state X.told X.faults N.faults N.clock) 16)
            self.now.lanes result.end workers.old workers.new }
        ensures seat { StandsForFirst self.now self.now.seats result.seat }
    {
        let last = workers.len() - 1;
        self.run_own(rt, &mut workers[last], seat)
    }
}

/// Whether the last call of one of these workers ended by a fault of the reactor.
pub(crate) fn has_one_faulted<'a, X: Reactor, H: CompletionHandler, N: LaneSession>(
    workers: &[Worker<'a, X, H, N>],
) -> bool
    ensures none { IsFalse result → NoneFaulted workers.now }
    ensures one { IsTrue result → OneFaulted workers.now }
    ensures knows { IsTrue result → OneKnowsFault N.names.script workers.now }
{
    for worker in workers {
        if worker.has_faulted() {
            return true;
        }
    }
    false
}

/// The closing by which a round ends where `run` answered so, unless that was a fault.
pub(crate) fn closing_after(end: RunEnd) -> Option<Closing>
    ensures { result ≡ closing_after end }
{
    match end {
        RunEnd::Ended => Some(Closing::Ended),
        RunEnd::Stopped => Some(Closing::Stopped),
        RunEnd::Idle => Some(Closing::Polled),
        RunEnd::Fault => None,
    }
}
