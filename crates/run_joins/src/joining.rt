ghost use Rattle.std.specs.Prelude.{◌≡◌, ◌∷◌, ℕ, IfOk, IsTrue, List, Some, false, true, length, reverse, nat_eq};
ghost use Rattle.std.specs.HashMap.{get};
ghost use Rattle.run_lines.specs.declared.line.Doing.{Doing};
ghost use Rattle.run_rules.specs.declared.frame.Frame.{Frame};
ghost use Rattle.run_lines.specs.declared.line.Line.{Line};
ghost use Rattle.run_rules.specs.Legal.{IsLegalSoFar};
ghost use Rattle.run_orders.specs.Orders.{plain};
ghost use Rattle.run_joins.specs.Notes.{AreNotes};
ghost use Rattle.run_joins.specs.Joining.{Keeps, KeepsJoin, is_after, is_late};

use crate::note::Note;
use crate::reached::Reached;
use run_lines::Doing;
use run_rules::Frame;
use std::alloc::{AllocError, Global};
use std::collections::HashSet;

/// A line that waits for others, outside on a thread: which one of the run, counted from 0.
#[derive(Clone, Copy, Debug, PartialEq, Eq)]
pub struct Join {
    pub thread: u64,
    pub place: u64,
}

/// What comes before a join in each order.
#[derive(Drop)]
pub struct Joined {
    pub join: Join,
    reached: Reached,
    /// Things of which a claim isn't known to be over before the join, and isn't its thread's own behind it.
    late: HashSet<u64>,
}

/// Why what comes before a join isn't known.
#[derive(Clone, Copy, Debug, PartialEq, Eq)]
pub enum NotJoined {
    NoMemory,
    /// No line stands there that waits outside.
    NoJoin,
}

impl From<AllocError> for NotJoined {
    fn from(_fault: AllocError) -> NotJoined {
        NotJoined::NoMemory
    }
}

/// Whether a line waits outside on this thread.
fn is_join(note: &Note, thread: u64) -> bool
    ensures { IsTrue result → (note.now.frame ≡ Frame.Outside thread) × (is_after note.now.line.does ≡ true) }
{
    match (note.line.does, note.frame) {
        (Doing::After { .. }, Frame::Outside { thread: other }) => other == thread,
        _ => false,
    }
}

/// The last line of a run that waits outside.
pub fn last_join(notes: &[Note]) -> Option<Join> {
    let mut last = None;
    let mut place: u64 = 0;
    for note in notes {
        if let (Doing::After { .. }, Frame::Outside { thread }) = (note.line.does, note.frame) {
            last = Some(Join { thread, place });
        }
        place = place.saturating_add(1);
    }
    last
}

impl Joined {
    ghost use Rattle.run_joins.specs.Joining.{IsWithin};
    ghost use Rattle.run_joins.specs.Notes.{IsNote};
    ghost use Rattle.run_joins.specs.Reaching.{Adds, reaches};

    /// Whether a claim of a thing isn't known to be over before the join, nor made behind it by its thread.
    pub fn is_late(&self, thing: u64) -> bool
        ensures { result ≡ is_late self.now thing }
    {
        self.late.contains(&thing)
    }

    /// A line behind the join: only its thread may claim there, outside.
    fn see_behind(&mut self, note: &Note) -> Result<(), AllocError>
        ensures join { self.new.join ≡ self.old.join }
        ensures reached { IfOk result (λ _. self.new.reached ≡ self.old.reached) }
        ensures late { IfOk result (λ _. (thing : ℕ) → is_late self.new thing ≡ false → is_late self.old thing ≡ false) }
        ensures own { IfOk result (λ _. (thing : ℕ) → is_late self.new thing ≡ false → note.now.line.does ≡ Doing.Claim thing →
            note.now.frame ≡ Frame.Outside self.old.join.thread) }
    {
        let own = Frame::Outside {
            thread: self.join.thread,
        };
        match note.line.does {
            Doing::Claim { thing } if note.frame != own => {
                self.late.insert(thing)?;
            }
            _ => {}
        }
        Ok(())
    }

    /// A line before the join: what it claims has to be given back before the join, too.
    fn see_before(&mut self, note: &Note) -> Result<(), AllocError>
        ensures join { self.new.join ≡ self.old.join }
        ensures reached { IfOk result (λ _. self.new.reached ≡ self.old.reached) }
        ensures late { IfOk result (λ _. (thing : ℕ) → is_late self.new thing ≡ false → is_late self.old thing ≡ false) }
        ensures over { IfOk result (λ _. (thing : ℕ) → is_late self.new thing ≡ false → note.now.line.does ≡ Doing.Claim thing →
            get nat_eq self.old.reached.over thing ≡ Some note.now.frame) }
    {
        match note.line.does {
            Doing::Claim { thing } if self.reached.giver(thing) != Some(note.frame) => {
                self.late.insert(thing)?;
            }
            _ => {}
        }
        Ok(())
    }

    /// Keeps what a line at the join, or before it, adds.
    fn keep(&mut self, note: &Note, place: u64) -> Result<(), NotJoined>
        ensures join { self.new.join ≡ self.old.join }
        ensures late { IfOk result (λ _. self.new.late ≡ self.old.late) }
        ensures kept { IfOk result (λ _. Keeps note.now place self.old self.new) }
    {
        if place == self.join.place && !is_join(note, self.join.thread) {
            return Err(NotJoined::NoJoin);
        }
        if place == self.join.place || self.reached.has(note) {
            self.reached.put(note)?;
        }
        Ok(())
    }

    /// Goes on to the line before.
    fn see(&mut self, note: &Note, place: u64) -> Result<(), NotJoined>
        ensures join { self.new.join ≡ self.old.join }
        ensures within { IfOk result (λ _. (run past : List Line) (line : Line) → IsLegalSoFar plain run → place ≡ length past →
            IsNote line past note.now → IsWithin run (line ∷ past) self.old → IsWithin run past self.new) }
    {
        if place > self.join.place {
            self.see_behind(note)?;
        } else {
            self.keep(note, place)?;
            self.see_before(note)?;
        }
        Ok(())
    }
}

/// What comes before a join in each order of a run, of which these are the notes.
pub fn find_joined(alloc: Global, notes: Vec<Note>, join: Join) -> Result<Joined, NotJoined>
    ensures join { IfOk result (λ joined. joined.join ≡ join) }
    ensures kept { IfOk result (λ joined. (run : List Line) → IsLegalSoFar plain run → AreNotes run (reverse notes.items) → KeepsJoin run joined) }
{
    let mut left = notes;
    if join.place >= left.len() as u64 {
        return Err(NotJoined::NoJoin);
    }
    let mut joined = Joined {
        join,
        reached: Reached::new(alloc),
        late: HashSet::new(alloc),
    };
    while let Some(note) = left.pop() {
        joined.see(&note, left.len() as u64)?;
    }
    Ok(joined)
}
