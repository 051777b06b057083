ghost use Rattle.std.specs.Prelude.{◌≡◌, ◌∷◌, [], IfOk, List, reverse};
ghost use Rattle.std.specs.List.{All};
ghost use Rattle.run_lines.specs.declared.line.Line.{Line};
ghost use Rattle.run_orders.specs.Laws.{NeverOverlaps};
ghost use Rattle.run_rules.specs.Legal.{IsLegalSoFar};
ghost use Rattle.run_check.specs.After.{plain};
ghost use Rattle.run_forced.specs.Events.{AreEvents, IsEvent};
ghost use Rattle.run_overlaps.specs.Watching.{IsWatch};

use crate::finding::NotFound;
use crate::noting::note;
use crate::strands::strand_at;
use crate::watch::{NotFollowed, Watch};
use run_forced::{Event, find_ordered};
use run_joins::Note;
use run_lines::Line;
use std::alloc::Global;

/// Follows a line, and answers what is known of it, with its strand.
fn event(watch: &mut Watch, line: &Line) -> Result<Event, NotFollowed>
    ensures { IfOk result (λ event. (past : List Line) → IsWatch past watch.old → IsEvent line.now past event × IsWatch (line.now ∷ past) watch.new) }
{
    let strand = strand_at(watch, line);
    let note = note(watch, line)?;
    Ok(Event { note, strand })
}

/// What is known of the lines of a run, with their strands.
fn events_of(alloc: Global, lines: &[Line]) -> Result<Vec<Event>, NotFollowed>
    ensures events { IfOk result (λ events. AreEvents (reverse lines.now) (reverse events.items)) }
    ensures legal { IfOk result (λ _. IsLegalSoFar plain (reverse lines.now)) }
{
    // the borrow checker's plan has to be told of the types within
    let _note: Option<Note> = None;
    let mut watch = Watch::new(alloc);
    let mut events = Vec::new(alloc);
    for line in lines {
        let seen = event(&mut watch, line)?;
        let Ok(()) = events.push(seen) else {
            return Err(NotFollowed::NoRoom);
        };
    }
    Ok(events)
}

/// Those of these things that are handed over in a run, whose lines stand in the order of their text:
/// each claim is given back by a line that comes before the next claim in each order of the run. It is
/// gone through twice.
pub fn find_handed(alloc: Global, lines: &[Line], things: &[u64]) -> Result<Vec<u64>, NotFound>
    ensures { IfOk result (λ handed. All (NeverOverlaps (reverse lines.now)) handed.items) }
{
    let events = events_of(alloc, lines)?;
    match find_ordered(alloc, &events, things) {
        Ok(handed) => Ok(handed),
        Err(_) => Err(NotFound::NoMemory),
    }
}
