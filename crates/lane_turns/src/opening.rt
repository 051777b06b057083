//! The calls of `open`.
ghost use Rattle.std.specs.Prelude.{◌≡◌};
ghost use Rattle.session_script.specs.Script.{opening_of};
ghost use Rattle.lane_logs.specs.Calls.{called_each};
ghost use Rattle.lane_logs.specs.SeatNumbers.{opener_seat};
ghost use Rattle.lane_logs.specs.Stand.{first_stand};
ghost use Rattle.lane_turns.specs.Pens.{HasDrawnCalls, MayGo};
ghost use Rattle.lane_turns.specs.Posting.{FitsClock};

use crate::calls::draw_call;
use crate::pen::Pen;
use asio_types::Event;
use lane_clock::{Change, LaneClock};
use lane_map::LaneMap;
use session_script::Script;

/// Calls the acts of `open` in text order, each with its back.
pub fn draw_opening(pen: &mut Pen, clock: &LaneClock, script: &Script, map: &LaneMap<'_>)
    requires clock { pen.old.seat.clock ≡ clock.now }
    requires map { map.now ≡ script.now }
    requires fits { FitsClock script.now clock.now }
    requires opener { pen.old.seat.number ≡ opener_seat script.now }
    requires room { MayGo pen.old (first_stand script.now).opening (first_stand script.now).opening }
    ensures { HasDrawnCalls script.now (called_each (opening_of script.now)) pen.old pen.new }
{
    let acts = script.opening();
    for &act in acts {
        draw_call(pen, clock, script, map, act, None);
        pen.draw(clock, Change::Same, Event::Back { act });
    }
}
