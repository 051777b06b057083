ghost use Rattle.std.specs.Prelude.{◌≡◌, [], IsFalse, IsTrue, true};
ghost use Rattle.lane_clock.specs.Seats.{copy_seat};
ghost use Rattle.lane_map.specs.LaneNumbers.{cells_of, reactor_lane};
ghost use Rattle.lane_logs.specs.Cuts.{NoneStops};
ghost use Rattle.lane_logs.specs.Knowing.{lists_of};
ghost use Rattle.lane_logs.specs.SeatNumbers.{opener_seat};
ghost use Rattle.lane_logs.specs.Stand.{first_stand, is_round_open, wants_restart};
ghost use Rattle.lane_turns.specs.Benches.{AreLanes, AreStartedAt, places_of};
ghost use Rattle.lane_turns.specs.Meeting.{PenHasMet};
ghost use Rattle.lane_turns.specs.OpenerEvents.{HasClosed, HasOpened, HasReadAlone, HasRestarted, HasWaited};
ghost use Rattle.lane_turns.specs.Openers.{HasTakenIn, HaveMet, IsOpener, round_of};

use crate::attendee::LaneAttendee;
use crate::closing::Closing;
use crate::law::{clock_fits, rounds_are_few};
use crate::opening::draw_opening;
use crate::pen::Pen;
use crate::standing::{RoundNow, RoundStanding};
use crate::weighing::weigh;
use asio_types::Event;
use lane_clock::{Change, LaneClock};
use lane_logs::LaneSession;
use lane_map::{LaneMap, lanes_have_cells};
use session_script::Script;
use std::marker::{Model, PhantomData};

/// Who makes the calls of `open`, and closes and restarts rounds: its log is made of these.
#[derive(Drop)]
pub struct Opener<N: LaneSession> {
    pub pen: Pen,
    pub rounds: RoundStanding,
    pub names: PhantomData<N>,
}

impl<N: LaneSession> Model for Opener<N> {
    ghost use Rattle.lane_turns.specs.Openers.{IsOpener, OpenerView, stand_at};

    ghost Value = { OpenerView };

    ghost view = { λ o. record { pen = o.pen; stand = stand_at o.rounds } };

    ghost invariant = { λ o. IsOpener N.names.script N.clock
        (record { pen = o.pen; stand = stand_at o.rounds }) };
}

impl<N: LaneSession> Opener<N> {
    /// Takes in what a lane or a worker knows.
    pub fn hear(&mut self, clock: &LaneClock, other: &mut Pen)
        requires clock { clock.now ≡ N.clock }
        requires other { other.old.seat.clock ≡ N.clock }
        ensures same { other.new ≡ other.old }
        ensures heard { HasTakenIn N.names.script other.old.seat self.old self.new }
    {
        let copy = other.split(clock);
        self.pen.meet(clock, copy);
    }

    /// A lane or a worker takes in what the opener knows, and then the opener what that knows.
    pub fn meet(&mut self, clock: &LaneClock, other: &mut Pen)
        requires clock { clock.now ≡ N.clock }
        requires other { other.old.seat.clock ≡ N.clock }
        ensures told { PenHasMet (copy_seat self.old.pen.seat) other.old other.new }
        ensures met { HaveMet N.names.script self.old self.new other.old.seat other.new.seat }
        ensures number { self.old.pen.seat.number ≡ opener_seat N.names.script }
    {
        let copy = self.pen.split(clock);
        other.meet(clock, copy);
        let back = other.split(clock);
        self.pen.meet(clock, back);
    }

    /// Where the rounds stand, for lanes and workers.
    pub fn round(&self, script: &Script) -> RoundNow
        requires script { script.now ≡ N.names.script }
        ensures { result ≡ round_of N.names.script self.now.stand }
    {
        self.rounds.round(script)
    }

    /// Makes the calls of `open`, as the first that it draws.
    pub fn opening(&mut self, clock: &LaneClock, script: &Script, map: &LaneMap<'_>)
        requires clock { clock.now ≡ N.clock }
        requires cells { clock.now.plan.cells ≡ cells_of script.now }
        requires script { script.now ≡ N.names.script }
        requires map { map.now ≡ script.now }
        requires none { self.old.pen.log ≡ [] }
        requires first { self.old.stand ≡ first_stand N.names.script }
        ensures opened { HasOpened N.names.script self.old self.new }
    {
        clock_fits(clock, script);
        draw_opening(&mut self.pen, clock, script, map);
        self.rounds.opening = 0;
    }

    /// Reads the clock word, and does nothing else.
    pub(crate) fn read(&mut self, clock: &LaneClock)
        requires clock { clock.now ≡ N.clock }
        ensures { HasReadAlone self.old self.new }
    {
        let _found = self.pen.load(clock);
    }

    /// What holds of every opener.
    pub fn is_one(&self)
        ensures { IsOpener N.names.script N.clock self.now }
    {
        let _rounds = self.rounds;
    }

    /// Restarts the context for the next round.
    pub fn restart(&mut self, clock: &LaneClock)
        requires clock { clock.now ≡ N.clock }
        requires opened { self.old.stand.opening ≡ 0 }
        requires wanted { wants_restart N.names.script self.old.stand ≡ true }
        requires working { NoneStops
            (lists_of self.old.pen.seat (reactor_lane N.names.script)) }
        ensures restarted { HasRestarted self.old self.new }
    {
        let found = self.pen.draw(clock, Change::Same, Event::Restart);
        self.rounds.restarted = true;
        self.rounds.base = found.stops;
    }

    /// Closes the round, where a load bears that out and in a poll round looks at the next cell of
    /// each lane: answers whether it did.
    pub fn close<B: LaneAttendee<N>>(
        &mut self,
        clock: &LaneClock,
        script: &Script,
        map: &LaneMap<'_>,
        lanes: &[B],
        closing: Closing,
    ) -> bool
        requires clock { clock.now ≡ N.clock }
        requires cells { clock.now.plan.cells ≡ cells_of script.now }
        requires script { script.now ≡ N.names.script }
        requires map { map.now ≡ script.now }
        requires lanes { AreLanes B.seat script.now lanes.now }
        requires round { is_round_open N.names.script self.old.stand ≡ true }
        requires working { NoneStops
            (lists_of self.old.pen.seat (reactor_lane N.names.script)) }
        requires started { AreStartedAt N.names.script (lists_of self.old.pen.seat)
            (places_of B.place lanes.now) }
        ensures closed { IsTrue result →
            HasClosed N.names.script (places_of B.place lanes.now) closing self.old self.new }
        ensures waited { IsFalse result → HasWaited N.names.script closing self.old self.new }
    {
        clock_fits(clock, script);
        lanes_have_cells(script);
        rounds_are_few(script);
        let round = self.rounds.round(script);
        let found = self.pen.load(clock);
        if !weigh::<N, B>(&mut self.pen, clock, map, lanes, round, found, closing) {
            return false;
        }
        self.pen.draw(clock, closing.change(), closing.event());
        self.rounds.closings += 1;
        self.rounds.restarted = false;
        true
    }
}
