ghost use Rattle.std.specs.Prelude.{◌≡◌, Some};
ghost use Rattle.lane_turns.specs.declared.run_end.RunEnd.TheVariants.{Fault};
ghost use Rattle.lane_turns.specs.KnownFaults.{KnowsAfterFault, has_faulted};
ghost use Rattle.lane_turns.specs.Runs.{is_barred, last_end, with_end};
ghost use Rattle.lane_turns.specs.Scanning.{GoesOn, HasLooked};
ghost use Rattle.lane_turns.specs.Workers.{Stops, is_set, may_draw_stop};

use lane_clock::{Found, LaneClock};
use lane_logs::LaneSession;
use lane_turns::{Baton, Lookout, RunEnd, WorkerSeat};
use op_handlers::CompletionHandler;
use reactor_trait::Reactor;
use std::marker::Model;
use std::sync::Wait;
use strand_core::Posted;
use turn_table::TurnSeat;

/// One who executes handlers of a context: each thread that calls `run` has one of its own (Asio
/// reference, io_context::run). It draws nothing itself but stops.
pub struct Worker<'a, X: Reactor, H: CompletionHandler, N: LaneSession> {
    pub(crate) seat: WorkerSeat<N>,
    // its seat at the table of turns, unless another has gathered it
    pub(crate) turns: Option<TurnSeat>,
    // the reactor's lane, which it keeps after a fault
    pub(crate) kept: Option<Baton<'a, X, H, N>>,
    // how its last call ended
    pub(crate) last: Option<RunEnd>,
    // the lane at which it looks first, its place at the hints, and whether it takes part
    pub(crate) lookout: Lookout,
    // the room for the calls of an execution; out while one is made
    pub(crate) made: Option<Vec<Posted>>,
}

impl<'a, X: Reactor, H: CompletionHandler, N: LaneSession> Model for Worker<'a, X, H, N> {
    ghost use Rattle.lane_turns.specs.Attempts.{HoldsTurns, IsCallRoom, KeepsAfterFault, WorkerState};
    ghost use Rattle.lane_turns.specs.KnownFaults.{KnowsAfterFault};

    ghost Value = { WorkerState H X };

    ghost view = { λ w. record { seat = w.seat; turns = w.turns; kept = w.kept; last = w.last } };

    ghost invariant = { λ w. record {
      turns : HoldsTurns w.kept w.turns;
      last : KeepsAfterFault w.kept w.last;
      room : IsCallRoom N.names.script w.made;
      knows : KnowsAfterFault N.names.script w.last w.seat.pen.seat;
    } };
}

impl<'a, X: Reactor, H: CompletionHandler, N: LaneSession> Worker<'a, X, H, N> {
    /// Reads the clock, the work and the stops.
    pub(crate) fn read(&mut self, clock: &LaneClock) -> Found
        requires clock { clock.now ≡ N.clock }
        ensures looked { HasLooked self.old self.new result }
        ensures on { GoesOn self.old self.new }
    {
        self.seat.read(clock)
    }

    /// Whether it may begin nothing, by what it read: the context is stopped, or it keeps the reactor
    /// that failed.
    pub(crate) fn is_barred(&self, found: Found) -> bool
        ensures { result ≡ is_barred self.now found }
    {
        self.kept.is_some() || self.seat.is_set(found)
    }

    /// Whether the stop word counts as set for it, by what it read.
    pub(crate) fn is_set(&self, found: Found) -> bool
        ensures { result ≡ is_set self.now.seat found }
    {
        self.seat.is_set(found)
    }

    /// Stops the context.
    pub(crate) fn stop(&mut self, clock: &LaneClock)
        requires clock { clock.now ≡ N.clock }
        ensures stops { Stops self.old.seat self.new.seat (may_draw_stop self.old.seat) }
        ensures turns { self.new.turns ≡ self.old.turns }
        ensures kept { self.new.kept ≡ self.old.kept }
        ensures last { self.new.last ≡ self.old.last }
    {
        self.seat.stop(clock);
    }

    /// Whether time may pass in the round.
    pub(crate) fn is_running(&self) -> bool
        ensures { result ≡ self.now.seat.round.running }
    {
        self.seat.is_running()
    }

    /// Whether its last call ended by a fault of the reactor; then it knows that.
    pub(crate) fn has_faulted(&self) -> bool
        ensures is { result ≡ has_faulted self.now.last }
        ensures knows { KnowsAfterFault N.names.script self.now.last self.now.seat.pen.seat }
    {
        match self.last {
            Some(RunEnd::Fault) => true,
            _ => false,
        }
    }

    /// Gives hints of its last turn's notes, and takes one where it needs one.
    pub(crate) fn share_hints<Rt: Wait>(&mut self, rt: &Rt)
        ensures { self.new ≡ self.old }
    {
        self.lookout.share(rt);
    }

    /// Whether it looks at lanes now that it read this clock; if not, it lets other threads go first.
    pub(crate) fn takes_part(&mut self, clock: u64) -> bool
        ensures { self.new ≡ self.old }
    {
        if self.lookout.takes_part(clock) {
            return true;
        }
        self.lookout.wait();
        false
    }

    /// Found nothing to do, it lets other threads go first.
    pub(crate) fn stand_back(&mut self)
        ensures { self.new ≡ self.old }
    {
        self.lookout.found_nothing();
        self.lookout.wait();
    }

    /// Keeps how a call ended; after a fault that stays. A fault it had met before.
    pub(crate) fn ends(&mut self, end: RunEnd) -> RunEnd
        requires fault { end ≡ Fault → self.old.last ≡ Some Fault }
        ensures same { result ≡ end }
        ensures kept { self.new ≡ with_end self.old end }
    {
        self.last = last_end(self.last, end);
        end
    }
}

/// The last end of a worker whose last was this one.
fn last_end(last: Option<RunEnd>, end: RunEnd) -> Option<RunEnd>
    ensures { result ≡ last_end last end }
{
    match last {
        Some(RunEnd::Fault) => last,
        _ => Some(end),
    }
}
