ghost use Rattle.std.specs.Prelude.{◌≡◌, ◌↔◌, ◌+◌, ◌==◌, ◌∷◌, [], if◌then◌else◌, ℕ, List, Some, None, IfOk, IsTrue, length};
ghost use Rattle.std.specs.Option.{unwrap_or};
ghost use Rattle.run_check.specs.declared.waiting.Waiter.{Waiter};
ghost use Rattle.run_lines.specs.declared.line.Line.{Line};
ghost use Rattle.run_orders.specs.declared.order.Step.{Step};
ghost use Rattle.run_orders.specs.Orders.{EachMayStand, lines_of, renumbered};
ghost use Rattle.run_rules.specs.Against.{op_of};
ghost use Rattle.run_rules.specs.Stacks.{frame, same_frame};
ghost use Rattle.run_rules.specs.declared.frame.Frame.{Frame};
ghost use Rattle.run_witness.specs.Facts.{AreFacts, works};
ghost use Rattle.run_witness.specs.Placing.{BeginsIts, IsOrUnknown, IsPlacing, IsPutWell, MayPair, MayPut, NotesPut, number_of, op_named, position_of, thread_of};

use crate::facts::{Fact, Facts};
use crate::spelling::{is_copy, op_of};
use run_check::{Checker, NoRoom};
use run_lines::{Doing, Line};
use run_orders::Step;
use run_rules::Frame;
use std::alloc::Global;
use std::collections::HashMap;

/// Whether what is known is this.
fn is_or_unknown(known: Option<u64>, number: u64) -> bool
    ensures { IsTrue result ↔ IsOrUnknown known number }
{
    match known {
        Some(other) => other == number,
        None => true,
    }
}

/// Whether an outside line stands on its own thread.
fn is_at_home(fact: &Fact, step: &Step) -> bool
    ensures { IsTrue result ↔ ((thread : ℕ) → fact.now.tree ≡ Frame.Outside thread → thread ≡ step.now.line.thread) }
{
    match fact.tree {
        Frame::Outside { thread } => thread == step.line.thread,
        Frame::Execution { .. } => true,
    }
}

/// Whether a line is the first of the tree of an execution, or no execution is round it.
fn begins_tree(fact: &Fact) -> bool
    ensures { IsTrue result ↔ BeginsIts fact.now.line.does fact.now.tree }
{
    match fact.tree {
        Frame::Outside { .. } => true,
        Frame::Execution { op } => match fact.line.does {
            Doing::Begin { op: begun, .. } => begun == op,
            _ => false,
        },
    }
}

/// Whether a handler is begun by a thread that executes handlers of its context.
fn is_by_worker(facts: &Facts, fact: &Fact, step: &Step) -> bool
    ensures { IsTrue result ↔ ((waiter : Waiter) → fact.now.begun ≡ Some waiter → IsTrue (works facts.now step.now.line.thread waiter.context)) }
{
    match fact.begun {
        Some(waiter) => facts.works(step.line.thread, waiter.context),
        None => true,
    }
}

/// Whether nothing executes where a tree begins.
fn is_idle(fact: &Fact, step: &Step, frame: Frame) -> bool
    ensures { IsTrue result ↔ (BeginsIts fact.now.line.does fact.now.tree → frame ≡ Frame.Outside step.now.line.thread) }
{
    let thread = step.line.thread;
    !begins_tree(fact) || frame == Frame::Outside { thread }
}

/// An order of a run, as far as its lines were put.
#[derive(Drop)]
pub(crate) struct Placing {
    count: u64,
    /// Where each line of the run stands in the order.
    places: HashMap<u64, u64>,
    /// On which thread each tree is.
    threads: HashMap<Frame, u64>,
    /// The number of each operation of the run in the order, and the other way round.
    numbers: HashMap<u64, u64>,
    ops: HashMap<u64, u64>,
}

impl Placing {
    pub(crate) fn new(alloc: Global) -> Self
        ensures { (run : List Line) (apart : List ℕ) → IsPlacing run apart [] result }
    {
        Placing {
            count: 0,
            places: HashMap::new(alloc),
            threads: HashMap::new(alloc),
            numbers: HashMap::new(alloc),
            ops: HashMap::new(alloc),
        }
    }

    /// Where a line of the run stands.
    pub(crate) fn position(&self, place: u64) -> Option<u64>
        ensures { result ≡ position_of self.now place }
    {
        self.places.get(&place).copied()
    }

    /// On which thread a tree is.
    pub(crate) fn thread(&self, tree: Frame) -> Option<u64>
        ensures { result ≡ thread_of self.now tree }
    {
        self.threads.get(&tree).copied()
    }

    pub(crate) fn number(&self, op: u64) -> Option<u64>
        ensures { result ≡ number_of self.now op }
    {
        self.numbers.get(&op).copied()
    }

    fn op(&self, number: u64) -> Option<u64>
        ensures { result ≡ op_named self.now number }
    {
        self.ops.get(&number).copied()
    }

    /// Whether operations are numbered one to one, with these two.
    fn is_one_to_one(&self, op: Option<u64>, number: Option<u64>) -> bool
        ensures { IsTrue result ↔ MayPair self.now op number }
    {
        match (op, number) {
            (Some(op), Some(number)) => {
                is_or_unknown(self.number(op), number) && is_or_unknown(self.op(number), op)
            }
            (None, None) => true,
            _ => false,
        }
    }

    /// Whether the caller of a line inside a tree is the same, where this frame writes it.
    fn is_by_same(&self, fact: &Fact, frame: Frame) -> bool
        ensures { IsTrue result ↔ ((op number : ℕ) → fact.now.writer ≡ Frame.Execution op → number_of self.now op ≡ Some number → frame ≡ Frame.Execution number) }
    {
        match fact.writer {
            Frame::Execution { op } => match self.number(op) {
                Some(number) => frame == Frame::Execution { op: number },
                None => true,
            },
            Frame::Outside { .. } => true,
        }
    }

    /// Whether the caller of a line is the same, where this frame writes it, unless its tree begins there.
    fn has_caller(&self, fact: &Fact, frame: Frame) -> bool
        ensures { IsTrue result ↔ (¬ (BeginsIts fact.now.line.does fact.now.tree) → (op number : ℕ) → fact.now.writer ≡ Frame.Execution op →
            number_of self.now op ≡ Some number → frame ≡ Frame.Execution number) }
    {
        if begins_tree(fact) {
            true
        } else {
            self.is_by_same(fact, frame)
        }
    }

    /// Whether a line of the run may be put behind these, as this frame's next one.
    fn may_put(&self, facts: &Facts, fact: &Fact, step: &Step, frame: Frame) -> bool
        ensures { IsTrue result ↔ MayPut self.now facts.now fact.now step.now frame }
    {
        self.position(step.place).is_none()
            && is_copy(fact.line.does, step.line.does)
            && self.is_one_to_one(op_of(&fact.line.does), op_of(&step.line.does))
            && is_or_unknown(self.thread(fact.tree), step.line.thread)
            && is_at_home(fact, step)
            && self.has_caller(fact, frame)
            && is_idle(fact, step, frame)
            && is_by_worker(facts, fact, step)
    }

    fn note_place(&mut self, place: u64) -> Result<(), NoRoom>
        ensures counted { IfOk result (λ _. self.new.count ≡ self.old.count + 1) }
        ensures places { IfOk result (λ _. (other : ℕ) →
            position_of self.new other ≡ (if place == other then Some self.old.count else position_of self.old other)) }
        ensures threads { IfOk result (λ _. self.new.threads ≡ self.old.threads) }
        ensures numbers { IfOk result (λ _. self.new.numbers ≡ self.old.numbers) }
        ensures ops { IfOk result (λ _. self.new.ops ≡ self.old.ops) }
    {
        let at = self.count;
        self.count = at.checked_add(1).ok_or(NoRoom)?;
        self.places.insert(place, at)?;
        Ok(())
    }

    fn note_thread(&mut self, tree: Frame, thread: u64) -> Result<(), NoRoom>
        ensures threads { IfOk result (λ _. (other : Frame) →
            thread_of self.new other ≡ (if same_frame tree other then Some thread else thread_of self.old other)) }
        ensures counted { IfOk result (λ _. self.new.count ≡ self.old.count) }
        ensures places { IfOk result (λ _. self.new.places ≡ self.old.places) }
        ensures numbers { IfOk result (λ _. self.new.numbers ≡ self.old.numbers) }
        ensures ops { IfOk result (λ _. self.new.ops ≡ self.old.ops) }
    {
        self.threads.insert(tree, thread)?;
        Ok(())
    }

    fn note_pair(&mut self, op: u64, number: u64) -> Result<(), NoRoom>
        ensures numbers { IfOk result (λ _. (other : ℕ) →
            number_of self.new other ≡ (if op == other then Some number else number_of self.old other)) }
        ensures ops { IfOk result (λ _. (other : ℕ) →
            op_named self.new other ≡ (if number == other then Some op else op_named self.old other)) }
        ensures counted { IfOk result (λ _. self.new.count ≡ self.old.count) }
        ensures places { IfOk result (λ _. self.new.places ≡ self.old.places) }
        ensures threads { IfOk result (λ _. self.new.threads ≡ self.old.threads) }
    {
        self.numbers.insert(op, number)?;
        self.ops.insert(number, op)?;
        Ok(())
    }

    /// Notes that a line of the run is this one of the order, which may be put.
    fn note(&mut self, fact: &Fact, step: &Step) -> Result<(), NoRoom>
        ensures { IfOk result (λ _. NotesPut self.old self.new fact.now step.now) }
    {
        self.note_place(step.place)?;
        self.note_thread(fact.tree, step.line.thread)?;
        match (op_of(&fact.line.does), op_of(&step.line.does)) {
            (Some(op), Some(number)) => self.note_pair(op, number),
            _ => Ok(()),
        }
    }

    /// Puts a line of the run behind these, if it may stand there as this frame's next one.
    pub(crate) fn put(&mut self, facts: &Facts, step: &Step, who: Frame) -> Result<bool, NoRoom>
        ensures good { IfOk result (λ good. (apart : List ℕ) (thing : ℕ) (run : List Line) (before : List Step) → AreFacts apart thing run facts.now →
            IsPlacing run apart before self.old → who ≡ frame (lines_of before) step.now.line.thread → IsTrue good →
            IsPlacing run apart (step.now ∷ before) self.new × IsPutWell run apart before step.now) }
        ensures bad { IfOk result (λ good. (apart : List ℕ) (thing : ℕ) (run : List Line) (before : List Step) → AreFacts apart thing run facts.now →
            IsPlacing run apart before self.old → who ≡ frame (lines_of before) step.now.line.thread →
            EachMayStand run apart (step.now ∷ before) → IsTrue good) }
    {
        match facts.at(step.place) {
            Some(fact) => {
                if self.may_put(facts, &fact, step, who) {
                    self.note(&fact, step)?;
                    Ok(true)
                } else {
                    Ok(false)
                }
            }
            None => Ok(false),
        }
    }
}
