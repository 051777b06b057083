//! What attends an event of the opener.
ghost use Rattle.std.specs.Prelude.{◌≡◌, ℕ, Bool, IsFalse};
ghost use Rattle.lane_clock.specs.Seats.{Owns, SeatView, copy_seat, own};
ghost use Rattle.lane_map.specs.LaneNumbers.{reactor_lane};
ghost use Rattle.lane_logs.specs.Cuts.{HaveStarted, NoneStops};
ghost use Rattle.lane_logs.specs.SeatNumbers.{opener_seat};
ghost use Rattle.lane_turns.specs.Attending.{IsHeard};
ghost use Rattle.lane_turns.specs.Benches.{IsInRound};
ghost use Rattle.lane_turns.specs.Besides.{Besides};
ghost use Rattle.lane_turns.specs.Meeting.{PenHasMet};
ghost use Rattle.lane_turns.specs.Openers.{HasTakenIn, HaveMet, in_round, round_after};

use crate::lane::LaneState;
use crate::opener::Opener;
use lane_clock::LaneClock;
use lane_logs::LaneSession;
use session_script::Script;

/// Who attends an event of the opener: the baton of a lane, or a worker's seat. Before the event the
/// opener hears what each did; behind it each takes the event in, and the opener that.
pub trait Attendee<N: LaneSession> {
    /// Its seat.
    ghost seat: { Self → SeatView };

    /// The stops with which it may begin something.
    ghost base: { Self → ℕ };

    /// Whether time may pass.
    ghost running: { Self → Bool };

    /// How many notes of its lane were executed or taken; none of a worker, who has no lane.
    ghost place: { Self → ℕ };

    /// What a worker has besides its seat; nothing, of a lane.
    ghost rest: { Self → Besides };

    /// Tells the opener what it did.
    fn report(&mut self, opener: &mut Opener<N>, clock: &LaneClock)
        requires clock { clock.now ≡ N.clock }
        ensures same { self.new ≡ self.old }
        ensures heard { HasTakenIn N.names.script (seat self.old) opener.old opener.new }
        ensures started { HaveStarted (own (seat self.old)) (seat self.old).number (place self.old) };

    /// Takes in what the opener knows, and where the rounds stand; the opener takes in that it did.
    fn attend(&mut self, opener: &mut Opener<N>, clock: &LaneClock, script: &Script)
        requires clock { clock.now ≡ N.clock }
        requires script { script.now ≡ N.names.script }
        requires heard { IsHeard N.names.script opener.old (seat self.old) }
        ensures met { HaveMet N.names.script opener.old opener.new (seat self.old) (seat self.new) }
        ensures owns { Owns (seat self.old) (seat self.old).number }
        ensures place { place self.new ≡ place self.old }
        ensures rest { rest self.new ≡ rest self.old }
        ensures round { IsInRound N.names.script opener.new.stand (base self.new) (running self.new) };
}

/// The baton of a lane at an event of the opener.
pub trait LaneAttendee<N: LaneSession>: Attendee<N> {
    /// The number of its lane.
    fn number(&self) -> u32
        ensures { result ≡ (Self.seat self.now).number };

    /// The lane's next place.
    fn next_place(&self) -> u32
        ensures { result ≡ Self.place self.now };

    /// Whether it is the reactor's, and that has failed: then no round is closed or restarted.
    fn has_failed(&self) -> bool
        ensures { IsFalse result → (Self.seat self.now).number ≡ reactor_lane N.names.script →
            NoneStops (own (Self.seat self.now)) };
}

/// A lane takes in what the opener knows, and where the rounds stand.
pub fn attend_lane<N: LaneSession>(
    state: &mut LaneState,
    opener: &mut Opener<N>,
    clock: &LaneClock,
    script: &Script,
)
    requires clock { clock.now ≡ N.clock }
    requires script { script.now ≡ N.names.script }
    requires seat { state.old.pen.seat.clock ≡ N.clock }
    ensures met { HaveMet N.names.script opener.old opener.new state.old.pen.seat state.new.pen.seat }
    ensures told { PenHasMet (copy_seat opener.old.pen.seat) state.old.pen state.new.pen }
    ensures number { opener.old.pen.seat.number ≡ opener_seat N.names.script }
    ensures round { state.new ≡ in_round state.old state.new.pen
        (round_after N.names.script (own opener.old.pen.seat)) }
{
    opener.meet(clock, &mut state.pen);
    let round = opener.round(script);
    state.at.base = round.base;
    state.at.running = round.running;
}
