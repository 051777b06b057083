ghost use Rattle.std.specs.Prelude.{◌≡◌, ◌∷◌, ℕ, IfOk, IsTrue, List, Some, false, true, reverse, nat_eq};
ghost use Rattle.std.specs.HashMap.{get};
ghost use Rattle.run_lines.specs.declared.line.Doing.{Doing};
ghost use Rattle.run_lines.specs.declared.line.Line.{Line};
ghost use Rattle.run_rules.specs.Legal.{IsLegalSoFar};
ghost use Rattle.run_orders.specs.Handing.{HandsOver};
ghost use Rattle.run_orders.specs.Orders.{plain};
ghost use Rattle.run_joins.specs.Notes.{AreNotes};

use crate::note::Note;
use crate::reached::Reached;
use run_lines::Doing;
use std::alloc::{AllocError, Global};

/// The claims of a thing, as far as the lines of a run were gone through from the end.
#[derive(Drop)]
struct Chain {
    thing: u64,
    /// Whether one was met.
    met: bool,
    /// What stands before the one that was met last, in each order.
    reached: Reached,
}

impl Chain {
    ghost use Rattle.run_joins.specs.Handing.{GoesOn, IsChain, IsFresh};
    ghost use Rattle.run_joins.specs.Notes.{IsNote};

    fn new(alloc: Global, thing: u64) -> Chain
        ensures thing { result.thing ≡ thing }
        ensures met { result.met ≡ false }
    {
        Chain {
            thing,
            met: false,
            reached: Reached::new(alloc),
        }
    }

    /// Whether a line claims the thing.
    fn claims(&self, note: &Note) -> bool
        ensures yes { IsTrue result → note.now.line.does ≡ Doing.Claim self.now.thing }
        ensures no { result ≡ false → note.now.line.does ≡ Doing.Claim self.now.thing → ⊥ }
    {
        match note.line.does {
            Doing::Claim { thing } => thing == self.thing,
            _ => false,
        }
    }

    /// Whether a claim is given back before the one that was met last, if one was.
    fn is_given_back(&self, note: &Note) -> bool
        ensures { IsTrue result → self.now.met ≡ true → get nat_eq self.now.reached.over self.now.thing ≡ Some note.now.frame }
    {
        !self.met || self.reached.giver(self.thing) == Some(note.frame)
    }

    /// Goes on from a claim.
    fn meet(&mut self, alloc: Global, note: &Note) -> Result<(), AllocError>
        ensures thing { self.new.thing ≡ self.old.thing }
        ensures met { IfOk result (λ _. self.new.met ≡ true) }
        ensures fresh { IfOk result (λ _. IsFresh note.now self.new.reached) }
    {
        let mut reached = Reached::new(alloc);
        reached.put(note)?;
        self.reached = reached;
        self.met = true;
        Ok(())
    }

    /// Goes on to a line that claims something else, or nothing.
    fn go_on(&mut self, note: &Note) -> Result<(), AllocError>
        ensures thing { self.new.thing ≡ self.old.thing }
        ensures met { self.new.met ≡ self.old.met }
        ensures kept { IfOk result (λ _. GoesOn note.now self.old self.new) }
    {
        if self.met && self.reached.has(note) {
            self.reached.put(note)?;
        }
        Ok(())
    }

    /// Goes on to the line before. Whether the thing is still handed over.
    fn see(&mut self, alloc: Global, note: &Note) -> Result<bool, AllocError>
        ensures thing { self.new.thing ≡ self.old.thing }
        ensures chain { IfOk result (λ handed. (run past : List Line) (line : Line) → IsLegalSoFar plain run → IsTrue handed →
            IsNote line past note.now → IsChain run (line ∷ past) self.old → IsChain run past self.new) }
    {
        if !self.claims(note) {
            self.go_on(note)?;
            return Ok(true);
        }
        if !self.is_given_back(note) {
            return Ok(false);
        }
        self.meet(alloc, note)?;
        Ok(true)
    }
}

/// Whether a thing is handed over from claim to claim in each order of the run, of which these are the
/// notes: each claim is given back by a line that is forced before the next claim.
pub fn is_handed_over(alloc: Global, notes: &[Note], thing: u64) -> Result<bool, AllocError>
    ensures { IfOk result (λ handed. (run : List Line) → IsLegalSoFar plain run → AreNotes run (reverse notes.now) → IsTrue handed →
        HandsOver run thing) }
{
    let mut chain = Chain::new(alloc, thing);
    let mut left = notes.len();
    while left > 0 {
        left -= 1;
        if !chain.see(alloc, &notes[left])? {
            return Ok(false);
        }
    }
    Ok(true)
}
