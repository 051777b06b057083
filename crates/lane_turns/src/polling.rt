//! One attempt at a lane on which handlers execute.
ghost use Rattle.std.specs.Prelude.{◌≡◌, ◌↔◌, ℕ, ◌+◌, ◌-◌, ◌^◌, ◌<◌, ◌≤◌, [], length, IsSome, IsTrue, vec_capacity, vec_len};
ghost use Rattle.lane_map.specs.LaneNumbers.{cells_of};
ghost use Rattle.strand_core.specs.Answer.{CanExecute};
ghost use Rattle.strand_core.specs.Hands.{held_at};
ghost use Rattle.lane_turns.specs.Batons.{HasRoom};
ghost use Rattle.lane_turns.specs.Pens.{HasGone};
ghost use Rattle.lane_turns.specs.Polling.{CameTo, looks_at, most_made};
ghost use Rattle.lane_turns.specs.Posting.{FitsClock};

use crate::executing::{Drawn, execute_noted};
use crate::lane::LaneState;
use crate::one::One;
use crate::pen::Pen;
use asio_types::OpNo;
use history_rules::is_inline;
use lane_clock::{LaneClock, Note};
use lane_map::LaneMap;
use op_handlers::CompletionHandler;
use session_script::{Script, parents_come_first};
use strand_core::{Hands, Posted};

/// What an attempt leaves: the lane, the calls that were made, and what it came to.
#[derive(Drop)]
pub struct Polled {
    pub lane: LaneState,
    pub made: Vec<Posted>,
    pub one: One,
}

/// Looks at a place of a lane, if the lane has a cell there.
pub fn see_next(
    clock: &LaneClock,
    map: &LaneMap<'_>,
    pen: &mut Pen,
    lane: u32,
    place: u32,
) -> Option<Note>
    requires clock { pen.old.seat.clock ≡ clock.now }
    requires fits { FitsClock map.now clock.now }
    requires lane { lane < length (cells_of map.now) }
    ensures seen { HasGone (looks_at map.now lane place result) pen.old pen.new }
    ensures few { IsSome result → place + 1 < 2 ^ 32 }
{
    if place >= map.cells()[lane as usize] {
        return None;
    }
    pen.look(clock, lane, place)
}

/// Whether the handler of an operation is held that executes by itself.
fn can_execute<H>(script: &Script, hands: &Hands<'_, H>, op: OpNo) -> bool
    requires script { hands.now.script ≡ script.now }
    ensures { IsTrue result ↔ CanExecute hands.now op }
{
    hands.holds(op) && !is_inline(script, op)
}

/// Looks at the lane's next place, and executes what it sees there, unless a load behind the look
/// finds that the context is stopped. Whether the lane has the handler is asked before the load.
/// `made` is the room for the calls.
pub fn poll_handlers<'a, H: CompletionHandler>(
    clock: &LaneClock,
    script: &'a Script,
    map: &LaneMap<'a>,
    state: LaneState,
    made: Vec<Posted>,
    hands: &mut Hands<'a, H>,
) -> Polled
    requires none { made.items ≡ [] }
    requires buffer { most_made script.now ≤ vec_capacity made - vec_len made }
    requires clock { state.pen.seat.clock ≡ clock.now }
    requires map { map.now ≡ script.now }
    requires fits { FitsClock script.now clock.now }
    requires lane { state.lane < length (cells_of script.now) }
    requires script { hands.old.script ≡ script.now }
    requires room { HasRoom hands.old state.pen }
    requires known { (op : ℕ) → IsSome (held_at hands.old op) → op < length script.now.acts }
    ensures came { CameTo H.marks result.one state result.lane hands.old hands.new }
    ensures room { HasRoom hands.new result.lane.pen }
    ensures buffer { most_made script.now ≤ vec_capacity result.made }
{
    parents_come_first(script);
    hands.keeps_inline();
    let LaneState { mut pen, at } = state;
    let Some(note) = see_next(clock, map, &mut pen, at.lane, at.place) else {
        let one = One::Nothing;
        return Polled {
            lane: LaneState { pen, at },
            made,
            one,
        };
    };
    if !can_execute(script, hands, note.op) {
        let at = at.missed_too(note.op);
        let one = One::Missing(note.op);
        return Polled {
            lane: LaneState { pen, at },
            made,
            one,
        };
    }
    let found = pen.load(clock);
    if found.stops != at.base {
        let one = One::Stopped;
        return Polled {
            lane: LaneState { pen, at },
            made,
            one,
        };
    }
    let Drawn { pen, made, mark } = execute_noted(clock, script, map, pen, made, hands, note);
    let at = at.one_place_on();
    let one = One::Ran(note.op, mark);
    Polled {
        lane: LaneState { pen, at },
        made,
        one,
    }
}
