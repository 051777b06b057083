//! Executing handlers until there is nothing left to do.
ghost use Rattle.std.specs.Prelude.{◌≡◌, IfErr, IfSome, None, OnOk, true};
ghost use Rattle.lane_turns.specs.Attempts.{IsSeated};
ghost use Rattle.lane_turns.specs.LaneValues.{terms, tries};
ghost use Rattle.lane_turns.specs.Runs.{EndsAtOnce, EndsFor, HasReadLeft, HasRun, HasSettled, HasStoppedAtOnce, HasTriedAndRead, MayHaveRead, ReadsAndTries, StopsAtOnce};
ghost use Rattle.lane_turns.specs.Scanning.{GoesOn};
ghost use Rattle.lane_context.specs.StopCauses.{StoppedByRead};

use crate::context::Context;
use crate::worker::Worker;
use lane_logs::LaneSession;
use lane_turns::{One, RunEnd};
use op_handlers::CompletionHandler;
use reactor_trait::Reactor;
use std::sync::Wait;

// how many times a lane is polled at most while its turn is held
const MOST_KEPT: u32 = 16;

impl<'a, X: Reactor, H: CompletionHandler, N: LaneSession> Context<'a, X, H, N> {
    /// Reads, before lanes are looked at; answers how the call ends, if that ends it, and else the clock.
    fn read_first(&self, worker: &mut Worker<'a, X, H, N>) -> Result<u64, RunEnd>
        requires turns { IsSeated self.now worker.old }
        ensures ended { IfErr result (λ now. EndsAtOnce now worker.old worker.new) }
        ensures left { OnOk result (HasReadLeft worker.old worker.new) }
        ensures free { OnOk result (worker.new.kept ≡ None) }
        ensures turns { IsSeated self.now worker.new }
        ensures on { GoesOn worker.old worker.new }
    {
        let found = worker.read(&self.clock);
        if worker.is_barred(found) {
            return Err(RunEnd::Stopped);
        }
        if found.work == 0 {
            return Err(RunEnd::Ended);
        }
        Ok(found.clock)
    }

    /// Where nothing was found to do: in a round in which time passes, other threads go first; in
    /// another one it reads, and the call ends where work is left, and nothing bars it.
    #[tactic(auto, using(crate::proofs::RunLemmas::none_read, crate::proofs::RunLemmas::one_read))]
    fn settle(&self, worker: &mut Worker<'a, X, H, N>) -> Option<RunEnd>
        requires turns { IsSeated self.now worker.old }
        ensures ended { IfSome result (λ now. HasSettled now worker.old worker.new) }
        ensures read { MayHaveRead worker.old worker.new }
        ensures turns { IsSeated self.now worker.new }
        ensures on { GoesOn worker.old worker.new }
    {
        if worker.is_running() {
            worker.stand_back();
            return None;
        }
        let found = worker.read(&self.clock);
        if worker.is_barred(found) || found.work == 0 {
            return None;
        }
        Some(RunEnd::Idle)
    }

    /// Looks at all lanes once; answers how the call ends, if it ends behind them. Where a lane found other
    /// stops, the next read tells.
    fn look_once(&self, worker: &mut Worker<'a, X, H, N>) -> Option<RunEnd>
        requires turns { IsSeated self.now worker.old }
        requires free { worker.old.kept ≡ None }
        ensures ended { IfSome result (λ now. EndsFor
            (tries (terms N.names H.marks X.state X.told X.faults N.faults N.clock) 16) self.now.lanes now
            worker.old worker.new) }
        ensures tried { HasTriedAndRead
            (tries (terms N.names H.marks X.state X.told X.faults N.faults N.clock) 16) self.now.lanes
            worker.old worker.new }
        ensures turns { IsSeated self.now worker.new }
        ensures on { GoesOn worker.old worker.new }
    {
        match self.look_round(worker, MOST_KEPT) {
            One::Fault => Some(RunEnd::Fault),
            One::Nothing => self.settle(worker),
            _ => None,
        }
    }

    /// Reads, and where that doesn't end the call, and others aren't quick without it, looks at all lanes
    /// once, from where a note was put last, or else from where a hint is; answers how the call ends, if it
    /// ends.
    fn run_round<Rt: Wait>(&self, rt: &Rt, worker: &mut Worker<'a, X, H, N>) -> Option<RunEnd>
        requires turns { IsSeated self.now worker.old }
        ensures ended { IfSome result (λ now. EndsFor
            (tries (terms N.names H.marks X.state X.told X.faults N.faults N.clock) 16) self.now.lanes now
            worker.old worker.new) }
        ensures round { ReadsAndTries
            (tries (terms N.names H.marks X.state X.told X.faults N.faults N.clock) 16) self.now.lanes
            worker.old worker.new }
        ensures stopped { worker.old.seat.stopped ≡ true →
            StopsAtOnce result worker.old worker.new }
        ensures turns { IsSeated self.now worker.new }
        ensures on { GoesOn worker.old worker.new }
    {
        match self.read_first(worker) {
            Err(end) => Some(end),
            Ok(clock) => {
                if !worker.takes_part(clock) {
                    return None;
                }
                worker.share_hints(rt);
                self.look_once(worker)
            }
        }
    }

    /// Executes handlers until no work is left, the context is stopped, the reactor failed, or, in a
    /// round in which time doesn't pass, nothing is ready (Asio reference, io_context::run, ::poll).
    /// Before each round of looks it reads whether work is left and whether the context is stopped; behind
    /// a stop of its own it does nothing but that. `Stopped` comes by such a read alone: of other stops than
    /// those with which the worker's round began, or by a worker for which no round is open, or that was
    /// asked to stop or keeps the failed reactor.
    /// A lane's turn is kept while something is done there, for 16 executions or turns of the reactor at
    /// most. The first lane into which notes were put then is looked at next; at the others it hints, in
    /// the order of the puts, to whichever worker looks for one. A hint may take memory, and is dropped
    /// where that is refused; it may wait for another worker's hint. Where nothing was found, and where
    /// others do the work faster than one more worker would, other threads go first.
    pub fn run<Rt: Wait>(&self, rt: &Rt, worker: &mut Worker<'a, X, H, N>) -> RunEnd
        requires turns { IsSeated self.now worker.old }
        ensures run { HasRun
            (tries (terms N.names H.marks X.state X.told X.faults N.faults N.clock) 16) self.now.lanes result
            worker.old worker.new }
        ensures stopped { worker.old.seat.stopped ≡ true →
            HasStoppedAtOnce result worker.old worker.new }
        ensures cause { result ≡ RunEnd.Stopped → StoppedByRead worker.old worker.new }
        ensures turns { IsSeated self.now worker.new }
        ensures on { GoesOn worker.old worker.new }
    {
        for _ in rt.forever() {
            if let Some(end) = self.run_round(rt, worker) {
                return worker.ends(end);
            }
        }
        unreachable!()
    }
}
