//! What bears out how a round is to be closed.
ghost use Rattle.std.specs.Prelude.{◌≡◌, IsFalse, IsTrue, length};
ghost use Rattle.lane_map.specs.LaneNumbers.{cells_of};
ghost use Rattle.lane_logs.specs.SeatNumbers.{lane_count};
ghost use Rattle.lane_turns.specs.Benches.{AreLanes, places_of};
ghost use Rattle.lane_turns.specs.Closing.{HasSeen, HasWeighed, HaveLooked};
ghost use Rattle.lane_turns.specs.Posting.{FitsClock};

use crate::attendee::LaneAttendee;
use crate::closing::Closing;
use crate::pen::Pen;
use crate::polling::see_next;
use crate::standing::RoundNow;
use lane_clock::{Found, LaneClock};
use lane_logs::LaneSession;
use lane_map::LaneMap;

/// Whether the next cell of each lane is empty where the lane has one: each is looked at, up to the
/// first that holds a note.
fn are_empty<N: LaneSession, B: LaneAttendee<N>>(
    pen: &mut Pen,
    clock: &LaneClock,
    map: &LaneMap<'_>,
    lanes: &[B],
) -> bool
    requires clock { pen.old.seat.clock ≡ clock.now }
    requires fits { FitsClock map.now clock.now }
    requires cells { length (cells_of map.now) ≡ lane_count map.now }
    requires lanes { AreLanes B.seat map.now lanes.now }
    ensures empty { IsTrue result → HaveLooked map.now (places_of B.place lanes.now)
        (length lanes.now) pen.old pen.new }
    ensures seen { IsFalse result → HasSeen pen.old pen.new }
{
    for lane in lanes {
        let number = lane.number();
        let place = lane.next_place();
        match see_next(clock, map, pen, number, place) {
            Some(_note) => return false,
            None => {}
        }
    }
    true
}

/// Whether what a load found, and in a poll round looks at all lanes, bear out a closing.
pub fn weigh<N: LaneSession, B: LaneAttendee<N>>(
    pen: &mut Pen,
    clock: &LaneClock,
    map: &LaneMap<'_>,
    lanes: &[B],
    round: RoundNow,
    found: Found,
    closing: Closing,
) -> bool
    requires clock { pen.old.seat.clock ≡ clock.now }
    requires fits { FitsClock map.now clock.now }
    requires cells { length (cells_of map.now) ≡ lane_count map.now }
    requires lanes { AreLanes B.seat map.now lanes.now }
    ensures { HasWeighed map.now (places_of B.place lanes.now)
        (length (places_of B.place lanes.now)) round found closing result pen.old pen.new }
{
    match closing {
        Closing::Ended => found.stops == round.base && found.work == 0,
        Closing::Stopped => found.stops != round.base,
        Closing::Polled => {
            if round.running || found.stops != round.base || found.work == 0 {
                return false;
            }
            are_empty::<N, B>(pen, clock, map, lanes)
        }
    }
}
