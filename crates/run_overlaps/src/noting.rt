ghost use Rattle.std.specs.Prelude.{◌≡◌, ◌∷◌, [], IfOk, IsTrue, List, reverse};
ghost use Rattle.run_lines.specs.declared.line.Line.{Line};
ghost use Rattle.run_rules.specs.Legal.{IsLegalSoFar};
ghost use Rattle.run_rules.specs.Stacks.{frame};
ghost use Rattle.run_check.specs.After.{plain};
ghost use Rattle.run_joins.specs.Notes.{AreNotes, IsGone, IsNote};
ghost use Rattle.run_overlaps.specs.Noting.{HasNoted};
ghost use Rattle.run_overlaps.specs.Watching.{IsWatch};

use crate::watch::{NotFollowed, Watch};
use run_joins::Note;
use run_lines::{Doing, Line};
use run_rules::Resource;
use std::alloc::Global;

/// Whether the frame that releases a thing by this line, which was followed, has it no more.
fn is_gone(watch: &Watch, line: &Line) -> bool
    ensures { (past : List Line) → IsWatch (line.now ∷ past) watch.now → IsTrue result →
        IsGone (line.now ∷ past) line.now.thread (frame (line.now ∷ past) line.now.thread) line.now.does }
{
    match line.does {
        Doing::Release { thing } => !watch.is_taken_here(line.thread, Resource::Thing { thing }),
        _ => true,
    }
}

/// Follows a line, and answers what is known of it.
#[tactic(auto, using(crate::proofs::NotingLemmas::noted))]
pub(crate) fn note(watch: &mut Watch, line: &Line) -> Result<Note, NotFollowed>
    ensures { IfOk result (λ note. (past : List Line) → IsWatch past watch.old → IsNote line.now past note × IsWatch (line.now ∷ past) watch.new) }
{
    let frame = watch.frame(line.thread);
    watch.follow(line)?;
    let gone = is_gone(watch, line);
    Ok(Note {
        line: *line,
        frame,
        gone,
    })
}

/// What is known of the lines of a run.
#[tactic(auto, using(crate::proofs::NotingLemmas::noted_all, crate::proofs::NotingLemmas::legal_all))]
pub(crate) fn notes_of(alloc: Global, lines: &[Line]) -> Result<Vec<Note>, NotFollowed>
    ensures notes { IfOk result (λ notes. AreNotes (reverse lines.now) (reverse notes.items)) }
    ensures legal { IfOk result (λ _. IsLegalSoFar plain (reverse lines.now)) }
{
    let mut watch = Watch::new(alloc);
    let mut notes = Vec::new(alloc);
    for line in lines {
        let noted = note(&mut watch, line)?;
        let Ok(()) = notes.push(noted) else {
            return Err(NotFollowed::NoRoom);
        };
    }
    Ok(notes)
}
