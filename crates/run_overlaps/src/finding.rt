ghost use Rattle.std.specs.Prelude.{◌≡◌, ◌∷◌, ℕ, [], IfOk, List, Some, reverse};
ghost use Rattle.run_lines.specs.declared.line.Line.{Line};
ghost use Rattle.run_orders.specs.declared.guard.Guard.{Guard};
ghost use Rattle.run_orders.specs.Laws.{NeverOverlaps};
ghost use Rattle.run_rules.specs.Legal.{IsLegalSoFar};
ghost use Rattle.run_check.specs.After.{plain};
ghost use Rattle.run_overlaps.specs.Guarding.{HasSeen, KeepsJoins, guard_of};

use crate::guards::Guards;
use crate::guessing::guess;
use crate::noting::notes_of;
use crate::watch::{NotFollowed, Watch};
use run_joins::{Joined, NotJoined, find_joined, last_join};
use run_lines::Line;
use run_rules::Rule;
use std::alloc::Global;

/// Why no guards are known.
#[derive(Clone, Copy, Debug, PartialEq, Eq)]
pub enum NotFound {
    /// A line breaks a rule.
    Illegal { rule: Rule },
    /// There is no memory.
    NoMemory,
    /// What was taken for a guard is none.
    WrongGuess,
}

impl From<NotFollowed> for NotFound {
    fn from(fault: NotFollowed) -> NotFound {
        match fault {
            NotFollowed::Broken { rule } => NotFound::Illegal { rule },
            NotFollowed::NoRoom => NotFound::NoMemory,
        }
    }
}

/// Follows a line, and sees that it stands where the guards want it.
#[tactic(auto, using(crate::proofs::SeeingLemmas::seen_next))]
fn see(
    guards: &Guards,
    joins: &Option<Joined>,
    watch: &mut Watch,
    line: &Line,
) -> Result<(), NotFound>
    ensures { IfOk result (λ _. (past : List Line) → HasSeen guards.now joins.now past watch.old → HasSeen guards.now joins.now (line.now ∷ past) watch.new) }
{
    if !guards.allow(joins, watch, line) {
        return Err(NotFound::WrongGuess);
    }
    watch.follow(line)?;
    if guards.allow_behind(watch, line) {
        Ok(())
    } else {
        Err(NotFound::WrongGuess)
    }
}

/// Sees that all these lines stand where the guards want them.
#[tactic(auto, using(crate::proofs::SeeingLemmas::seen_more, crate::proofs::SeeingLemmas::seen_all))]
fn see_all(
    guards: &Guards,
    joins: &Option<Joined>,
    watch: &mut Watch,
    lines: &[Line],
) -> Result<(), NotFound>
    ensures { IfOk result (λ _. HasSeen guards.now joins.now [] watch.old → HasSeen guards.now joins.now (reverse lines.now) watch.new) }
{
    for line in lines {
        see(guards, joins, watch, line)?;
    }
    Ok(())
}

/// What the last join of a run keeps apart, if there is one.
fn join_of(alloc: Global, lines: &[Line]) -> Result<Option<Joined>, NotFollowed>
    ensures { IfOk result (λ joins. IsLegalSoFar plain (reverse lines.now) → KeepsJoins (reverse lines.now) joins) }
{
    let notes = notes_of(alloc, lines)?;
    let Some(join) = last_join(&notes) else {
        return Ok(None);
    };
    match find_joined(alloc, notes, join) {
        Ok(joined) => Ok(Some(joined)),
        Err(NotJoined::NoMemory) => Err(NotFollowed::NoRoom),
        Err(NotJoined::NoJoin) => Ok(None),
    }
}

/// What keeps claims apart in a run, whose lines stand in the order of their text: a thing for which a
/// guard is found is held by two threads in no order of the run. The run has to be legal so far. It is
/// gone through four times.
pub fn find_guards(alloc: Global, lines: &[Line]) -> Result<Guards, NotFound>
    ensures { IfOk result (λ guards. (thing : ℕ) (how : Guard) →
        guard_of guards thing ≡ Some how → NeverOverlaps (reverse lines.now) thing) }
{
    let joins = join_of(alloc, lines)?;
    let Ok(guards) = guess(alloc, &joins, lines) else {
        return Err(NotFound::NoMemory);
    };
    let mut watch = Watch::new(alloc);
    see_all(&guards, &joins, &mut watch, lines)?;
    Ok(guards)
}
