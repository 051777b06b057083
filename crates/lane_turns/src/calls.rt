//! How the call of an act is made with a pen.
ghost use Rattle.std.specs.Prelude.{◌≡◌, ◌<◌, [], ◌∷◌, true, false, length, None};
ghost use Rattle.session_script.specs.Script.{stops};
ghost use Rattle.session_script.specs.Lanes.{is_inline};
ghost use Rattle.strand_core.specs.Execution.{events_of};
ghost use Rattle.strand_core.specs.declared.posted.Posted.{Posted};
ghost use Rattle.lane_logs.specs.SeatNumbers.{opener_seat};
ghost use Rattle.lane_turns.specs.Pens.{HasDrawnCall, MayGo};
ghost use Rattle.lane_turns.specs.Posting.{FitsClock};

use crate::pen::Pen;
use asio_types::{ActNo, Code, Event};
use lane_clock::{Change, LaneClock, Note};
use lane_map::LaneMap;
use session_script::Script;
use strand_core::Answered;

/// A stop is called, and stops the context.
fn draw_stop(
    pen: &mut Pen,
    clock: &LaneClock,
    script: &Script,
    act: ActNo,
    answered: Option<&Answered>,
)
    requires clock { pen.old.seat.clock ≡ clock.now }
    requires stops { stops script.now act ≡ true }
    requires opener { answered ≡ None → pen.old.seat.number ≡ opener_seat script.now }
    requires room { MayGo pen.old 2 0 }
    ensures { HasDrawnCall script.now (Posted.Call act) pen.old pen.new }
{
    pen.draw_call(clock, script, Change::Same, act, answered);
    pen.draw(clock, Change::Stop, Event::Stop { act: Some(act) });
}

/// An operation is called that executes inside its call.
fn draw_dispatch(
    pen: &mut Pen,
    clock: &LaneClock,
    script: &Script,
    act: ActNo,
    answered: Option<&Answered>,
)
    requires clock { pen.old.seat.clock ≡ clock.now }
    requires going { stops script.now act ≡ false }
    requires inside { is_inline script.now act ≡ true }
    requires opener { answered ≡ None → pen.old.seat.number ≡ opener_seat script.now }
    requires room { MayGo pen.old 1 0 }
    ensures { HasDrawnCall script.now (Posted.Call act) pen.old pen.new }
{
    pen.draw_call(clock, script, Change::Up, act, answered);
}

/// An act is called that is put on the lane that it asks.
fn draw_post(
    pen: &mut Pen,
    clock: &LaneClock,
    script: &Script,
    map: &LaneMap<'_>,
    act: ActNo,
    answered: Option<&Answered>,
)
    requires clock { pen.old.seat.clock ≡ clock.now }
    requires map { map.now ≡ script.now }
    requires fits { FitsClock script.now clock.now }
    requires known { act < length script.now.acts }
    requires going { stops script.now act ≡ false }
    requires outside { is_inline script.now act ≡ false }
    requires opener { answered ≡ None → pen.old.seat.number ≡ opener_seat script.now }
    requires room { MayGo pen.old 1 1 }
    ensures { HasDrawnCall script.now (Posted.Call act) pen.old pen.new }
{
    pen.draw_call(clock, script, Change::Up, act, answered);
    let lane = map.asked(act);
    let note = Note {
        op: act,
        code: Code::Ok,
        size: 0,
    };
    pen.allot(clock, script, lane, note);
}

/// An act is called: by a handler that has answered, or by `open`.
pub fn draw_call(
    pen: &mut Pen,
    clock: &LaneClock,
    script: &Script,
    map: &LaneMap<'_>,
    act: ActNo,
    answered: Option<&Answered>,
)
    requires clock { pen.old.seat.clock ≡ clock.now }
    requires map { map.now ≡ script.now }
    requires fits { FitsClock script.now clock.now }
    requires known { act < length script.now.acts }
    requires opener { answered ≡ None → pen.old.seat.number ≡ opener_seat script.now }
    requires room { MayGo pen.old (length (events_of script.now (Posted.Call act ∷ []))) 1 }
    ensures { HasDrawnCall script.now (Posted.Call act) pen.old pen.new }
{
    if script.is_stop(act) {
        draw_stop(pen, clock, script, act, answered);
    } else if script.is_inline(act) {
        draw_dispatch(pen, clock, script, act, answered);
    } else {
        draw_post(pen, clock, script, map, act, answered);
    }
}
