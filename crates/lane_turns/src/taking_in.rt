//! The opener takes in all seats when the context is finished.
ghost use Rattle.std.specs.Prelude.{◌≡◌, ◌-◌, ◌<◌, ◌≤◌, ◌++◌, All, length, map, vec_capacity, vec_len};
ghost use Rattle.lane_clock.specs.Seats.{Owns};
ghost use Rattle.lane_logs.specs.SeatNumbers.{opener_seat};
ghost use Rattle.lane_turns.specs.TakingIn.{AreTakenIn, HasJoined};

use crate::opener::Opener;
use crate::pen::Pen;
use lane_clock::{LaneClock, LaneSeat};
use lane_logs::{LaneSession, LogEntry};

impl<N: LaneSession> Opener<N> {
    /// Takes in the seat of a lane or a worker for good.
    fn take_in(&mut self, clock: &LaneClock, other: LaneSeat)
        requires clock { clock.now ≡ N.clock }
        requires same { other.clock ≡ N.clock }
        ensures { HasJoined N.names.script other self.old self.new }
    {
        self.pen.join(clock, other);
    }
}

/// The opener takes in the seats of these pens, one after another. Their logs are put behind those
/// that are there, for which there is room.
pub fn take_in_all<N: LaneSession>(
    opener: &mut Opener<N>,
    clock: &LaneClock,
    pens: Vec<Pen>,
    logs: Vec<Vec<LogEntry>>,
) -> Vec<Vec<LogEntry>>
    requires clock { clock.now ≡ N.clock }
    requires clocks { All (λ pen. pen.seat.clock ≡ N.clock) pens.items }
    requires apart { All (λ pen. pen.seat.number < opener_seat N.names.script) pens.items }
    requires owns { All (λ pen. Owns pen.seat pen.seat.number) pens.items }
    requires room { length pens.items ≤ vec_capacity logs - vec_len logs }
    ensures taken { AreTakenIn N.names.script pens.items opener.old opener.new }
    ensures logs { map (λ log. log.items) result.items
        ≡ map (λ log. log.items) logs.items ++ map (λ pen. pen.log) pens.items }
    ensures capacity { vec_capacity result ≡ vec_capacity logs }
{
    let mut all = logs;
    let mut rest = pens.into_iter();
    while let Some(pen) = rest.next() {
        let (seat, log) = pen.into_parts();
        opener.take_in(clock, seat);
        all.push_reserved(log);
    }
    all
}
