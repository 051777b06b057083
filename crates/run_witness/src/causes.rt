ghost use Rattle.std.specs.Prelude.{◌≡◌, ◌↔◌, ◌<◌, ◌+◌, [], if◌then◌else◌, ℕ, List, Option, Some, IfOk, IsSomeAnd, IsTrue, nat_eq};
ghost use Rattle.std.specs.List.{All};
ghost use Rattle.run_lines.specs.declared.line.Line.{Line};
ghost use Rattle.run_orders.specs.Causes.{IsCause};
ghost use Rattle.run_orders.specs.Trees.{Spot, spot_at};
ghost use Rattle.run_rules.specs.Stacks.{same_frame};
ghost use Rattle.run_rules.specs.declared.frame.Frame.{Frame};
ghost use Rattle.run_witness.specs.Causes.{AbortsBefore, AreCauses, IsBehindIfPut, IsHarmless, NamesBefore, NotesLine, SeesLine, cancelled_with, left_by};
ghost use Rattle.run_witness.specs.Facts.{AreFacts, fact_at, fact_of};
ghost use Rattle.run_witness.specs.Placing.{position_of};
ghost use Rattle.run_witness.specs.Reached.{IsBefore, reached_at, reached_with};
ghost use Rattle.run_witness.specs.declared.placing.Placing.{Placing};
ghost use Rattle.run_witness.specs.Witness.{AreBehind};

use crate::facts::{Fact, Facts};
use crate::placing::Placing;
use crate::reached::{Reached, note_at};
use crate::spelling::{called_by, completed_by, marked_by};
use run_check::{NoRoom, Waiter};
use run_lines::{Code, Doing};
use run_rules::Frame;
use std::alloc::Global;

/// A line that cancels what is pending on a thing: which line, and where it stands in the order.
#[derive(Clone, Copy)]
pub(crate) struct Cancelled {
    thing: u64,
    place: u64,
    at: Option<u64>,
}

/// Where the lines of a run stand in an order, by what they are causes of.
#[derive(Drop)]
pub(crate) struct Causes {
    trees: Reached<Frame>,
    called: Reached<u64>,
    completed: Reached<u64>,
    marked: Reached<u64>,
    left: Reached<u64>,
    cancelled: Vec<Cancelled>,
}

/// Whether a line stands before a place.
fn stands_before(at: Option<u64>, bound: u64) -> bool
    ensures { IsTrue result ↔ IsSomeAnd at (λ here. here < bound) }
{
    match at {
        Some(at) => at < bound,
        None => false,
    }
}

/// Whether this line doesn't abort what was called so, or stands before a place.
fn is_harmless(cancelled: Cancelled, waiter: &Waiter, bound: u64) -> bool
    ensures { IsTrue result ↔ IsHarmless waiter.now bound cancelled }
{
    match waiter.thing {
        Some(thing) => {
            thing != cancelled.thing
                || cancelled.place <= waiter.place
                || stands_before(cancelled.at, bound)
        }
        None => true,
    }
}

/// The thread that an execution leaves that is inside no other.
fn left_by(fact: &Fact) -> Option<u64>
    ensures { result ≡ left_by fact.now }
{
    if fact.leaves {
        Some(fact.line.thread)
    } else {
        None
    }
}

/// Keeps what a line cancels.
fn note_cancel(
    cancelled: &mut Vec<Cancelled>,
    place: u64,
    at: Option<u64>,
    does: &Doing,
) -> Result<(), NoRoom>
    ensures { IfOk result (λ _. cancelled.new.items ≡ cancelled_with cancelled.old.items place at does.now) }
{
    if let Doing::Cancel { thing } = *does {
        cancelled.push(Cancelled { thing, place, at })?;
    }
    Ok(())
}

/// Notes where a line of this tree stands.
fn note_tree(trees: &mut Reached<Frame>, tree: Frame, at: Option<u64>) -> Result<(), NoRoom>
    ensures { IfOk result (λ _. (other : Frame) → reached_at same_frame trees.new other
        ≡ (if same_frame tree other then Some (reached_with (reached_at same_frame trees.old tree) at) else reached_at same_frame trees.old other)) }
{
    trees.note(tree, at)
}

impl Causes {
    pub(crate) fn new(alloc: Global) -> Self
        ensures { (run : List Line) (apart : List ℕ) (placing : Placing) → AreCauses run apart placing 0 result }
    {
        Causes {
            trees: Reached::new(alloc),
            called: Reached::new(alloc),
            completed: Reached::new(alloc),
            marked: Reached::new(alloc),
            left: Reached::new(alloc),
            cancelled: Vec::new(alloc),
        }
    }

    /// Whether all lines of a tree that were noted stand before a place.
    fn is_behind_tree(&self, tree: Frame, bound: u64) -> bool
        ensures { IsTrue result ↔ IsBefore (reached_at same_frame self.now.trees tree) bound }
    {
        self.trees.is_before(tree, bound)
    }

    /// Whether all lines that abort what was called so stand before a place.
    #[tactic(auto, using(crate::proofs::CausesLemmas::harmless_more, crate::proofs::CausesLemmas::harmless_all))]
    fn is_behind_cancels(&self, waiter: &Waiter, bound: u64) -> bool
        ensures { IsTrue result ↔ All (IsHarmless waiter.now bound) self.now.cancelled.items }
    {
        for cancelled in &self.cancelled {
            if !is_harmless(*cancelled, waiter, bound) {
                return false;
            }
        }
        true
    }

    /// Whether what aborts an operation that begins stands before a place.
    fn is_behind_aborts(&self, fact: &Fact, bound: u64) -> bool
        ensures { IsTrue result ↔ AbortsBefore self.now fact.now bound }
    {
        match (fact.line.does, fact.begun) {
            (
                Doing::Begin {
                    code: Code::Aborted,
                    ..
                },
                Some(waiter),
            ) => self.is_behind_cancels(&waiter, bound),
            _ => true,
        }
    }

    /// Whether what a thread does outside stands before the execution that it then begins.
    fn is_led(&self, fact: &Fact, op: u64, bound: u64) -> bool
        ensures { IsTrue result ↔ (fact.now.tree ≡ Frame.Execution op →
            IsBefore (reached_at same_frame self.now.trees (Frame.Outside fact.now.line.thread)) bound) }
    {
        let outside = Frame::Outside {
            thread: fact.line.thread,
        };
        fact.tree != Frame::Execution { op } || self.is_behind_tree(outside, bound)
    }

    /// Whether what a line names stands before a place.
    fn is_behind_named(&self, fact: &Fact, bound: u64) -> bool
        ensures { IsTrue result ↔ NamesBefore self.now fact.now bound fact.now.line.does }
    {
        match fact.line.does {
            Doing::Begin { op, .. } => {
                self.called.is_before(op, bound)
                    && self.completed.is_before(op, bound)
                    && self.is_led(fact, op, bound)
            }
            Doing::Done { op, .. } => self.called.is_before(op, bound),
            Doing::Drop { op } => self.called.is_before(op, bound),
            Doing::After { mark } => self.marked.is_before(mark, bound),
            _ => true,
        }
    }

    /// Whether the executions of a thread have ended before what it does outside.
    fn is_behind_ends(&self, fact: &Fact, bound: u64) -> bool
        ensures { IsTrue result ↔ ((thread : ℕ) → fact.now.tree ≡ Frame.Outside thread → IsBefore (reached_at nat_eq self.now.left thread) bound) }
    {
        match fact.tree {
            Frame::Outside { thread } => self.left.is_before(thread, bound),
            Frame::Execution { .. } => true,
        }
    }

    /// Whether all causes of a line stand before its place, if it stands.
    fn is_behind(&self, fact: &Fact, at: Option<u64>) -> bool
        ensures { IsTrue result ↔ IsBehindIfPut self.now fact.now at }
    {
        match at {
            Some(bound) => {
                self.is_behind_tree(fact.tree, bound)
                    && self.is_behind_named(fact, bound)
                    && self.is_behind_aborts(fact, bound)
                    && self.is_behind_ends(fact, bound)
            }
            None => true,
        }
    }

    /// Whether all causes of a line stand.
    pub(crate) fn allows(&self, fact: &Fact) -> bool {
        self.is_behind(fact, Some(u64::MAX))
    }

    /// Notes what a line is a cause of, which is at this place in the run, and stands here.
    pub(crate) fn note(&mut self, fact: &Fact, place: u64, at: Option<u64>) -> Result<(), NoRoom>
        ensures { IfOk result (λ _. NotesLine self.old self.new fact.now place at) }
    {
        let does = &fact.line.does;
        note_tree(&mut self.trees, fact.tree, at)?;
        note_at(&mut self.called, called_by(does), at)?;
        note_at(&mut self.completed, completed_by(does), at)?;
        note_at(&mut self.marked, marked_by(does), at)?;
        note_at(&mut self.left, left_by(fact), at)?;
        note_cancel(&mut self.cancelled, place, at, does)
    }

    /// Whether the line at this place stands behind its causes, if it stands; and notes it.
    fn see(&mut self, facts: &Facts, placing: &Placing, place: u64) -> Result<bool, NoRoom>
        ensures { IfOk result (λ good. (apart : List ℕ) (thing : ℕ) (run : List Line) → AreFacts apart thing run facts.now →
            place < facts.now.lines → AreCauses run apart placing.now place self.old → SeesLine run apart placing.now place self.new good) }
    {
        let stands = placing.position(place);
        match facts.at(place) {
            Some(fact) => {
                if self.is_behind(&fact, stands) {
                    self.note(&fact, place, stands)?;
                    Ok(true)
                } else {
                    Ok(false)
                }
            }
            None => Ok(false),
        }
    }
}

/// Whether each line of a run stands behind its causes, if it stands.
pub(crate) fn are_behind(alloc: Global, facts: &Facts, placing: &Placing) -> Result<bool, NoRoom>
    ensures { IfOk result (λ good. (apart : List ℕ) (thing : ℕ) (run : List Line) → AreFacts apart thing run facts.now →
        IsTrue good ↔ AreBehind run apart (position_of placing.now)) }
{
    let mut causes = Causes::new(alloc);
    for place in 0..facts.lines {
        if !causes.see(facts, placing, place)? {
            return Ok(false);
        }
    }
    Ok(true)
}
