//! One execution of a lane.
ghost use Rattle.std.specs.Prelude.{◌≡◌, ◌-◌, ◌≤◌, [], vec_capacity, vec_len};
ghost use Rattle.strand_core.specs.Answer.{CanExecute, TakesWhole};
ghost use Rattle.lane_turns.specs.Executing.{HasExecutedNoted};
ghost use Rattle.lane_turns.specs.Polling.{most_made};
ghost use Rattle.lane_turns.specs.Posting.{FitsClock, TakesNext};

use crate::lane_poster::{LanePoster, PenStart};
use crate::pen::Pen;
use lane_clock::{LaneClock, Note};
use lane_map::LaneMap;
use op_handlers::CompletionHandler;
use session_script::Script;
use std::marker::{Brand, PhantomData};
use strand_core::{Execution, Hands, Posted, execute};

/// What an execution leaves: the pen, the calls that it made, and the run mark of its handler.
#[derive(Drop)]
pub struct Drawn {
    pub pen: Pen,
    pub made: Vec<Posted>,
    pub mark: u64,
}

/// Executes the operation of a note, from a pen that is named.
fn execute_from<'a, H: CompletionHandler, S: PenStart>(
    clock: &LaneClock,
    script: &'a Script,
    map: &LaneMap<'a>,
    pen: Pen,
    made: Vec<Posted>,
    hands: &mut Hands<'a, H>,
    note: Note,
) -> Drawn
    requires names { S.script ≡ script.now }
    requires start { S.start ≡ pen }
    requires none { made.items ≡ [] }
    requires buffer { most_made script.now ≤ vec_capacity made }
    requires clock { pen.seat.clock ≡ clock.now }
    requires map { map.now ≡ script.now }
    requires fits { FitsClock script.now clock.now }
    requires script { hands.old.script ≡ script.now }
    requires can { CanExecute hands.old note.op }
    requires room { TakesWhole (TakesNext (record {
      script = script.now;
      pen = pen;
      made = made.items;
      spare = vec_capacity made - vec_len made;
    })) script.now note.op note.code note.size }
    ensures script { hands.new.script ≡ hands.old.script }
    ensures executed { HasExecutedNoted H.marks note result.mark S.start result.pen hands.old
        hands.new }
    ensures buffer { most_made script.now ≤ vec_capacity result.made }
{
    let mut poster = LanePoster {
        clock,
        script,
        map,
        pen,
        made,
        start: PhantomData::<S>,
    };
    let Execution::Whole(mark) = execute(&mut poster, script, hands, note.op, note.code, note.size)
    else {
        unreachable!()
    };
    let LanePoster {
        clock: _,
        script: _,
        map: _,
        pen,
        made,
        start: _,
    } = poster;
    Drawn { pen, made, mark }
}

/// Executes the operation of a note, whose handler is held, with a lane's pen, and inside it the
/// dispatches that execute inside their call. `made` is the room for its calls.
pub fn execute_noted<'a, H: CompletionHandler>(
    clock: &LaneClock,
    script: &'a Script,
    map: &LaneMap<'a>,
    pen: Pen,
    made: Vec<Posted>,
    hands: &mut Hands<'a, H>,
    note: Note,
) -> Drawn
    requires none { made.items ≡ [] }
    requires buffer { most_made script.now ≤ vec_capacity made }
    requires clock { pen.seat.clock ≡ clock.now }
    requires map { map.now ≡ script.now }
    requires fits { FitsClock script.now clock.now }
    requires script { hands.old.script ≡ script.now }
    requires can { CanExecute hands.old note.op }
    requires room { TakesWhole (TakesNext (record {
      script = script.now;
      pen = pen;
      made = made.items;
      spare = vec_capacity made - vec_len made;
    })) script.now note.op note.code note.size }
    ensures script { hands.new.script ≡ hands.old.script }
    ensures executed { HasExecutedNoted H.marks note result.mark pen result.pen hands.old hands.new }
    ensures buffer { most_made script.now ≤ vec_capacity result.made }
{
    execute_from::<H, Brand>(clock, script, map, pen, made, hands, note)
}
