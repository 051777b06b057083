ghost use Rattle.std.specs.Prelude.{◌≡◌, ◌↔◌, ◌∷◌, [], ℕ, List, Some, IfOk, OnOk, IsErrOf, IsSome, IsTrue, reverse};
ghost use Rattle.std.specs.List.{All, Contains};
ghost use Rattle.run_check.specs.Called.{called_by};
ghost use Rattle.run_check.specs.After.{IsAfter, loose};
ghost use Rattle.run_lines.specs.declared.line.Line.{Line};
ghost use Rattle.run_orders.specs.declared.order.Step.{Step};
ghost use Rattle.run_orders.specs.Holding.{HoldsBoth, IsHeld};
ghost use Rattle.run_orders.specs.Apart.{StandsAlone};
ghost use Rattle.run_orders.specs.Orders.{EachMayStand, IsBusy, lines_of, plain};
ghost use Rattle.run_rules.specs.Calls.{call_of};
ghost use Rattle.run_rules.specs.Legal.{IsLegalSoFar};
ghost use Rattle.run_rules.specs.MayCome.{MayCome, MayDo};
ghost use Rattle.run_witness.specs.Facts.{AreFacts};
ghost use Rattle.run_witness.specs.Placing.{FindsBusy, IsPlacing, position_of, thread_of};
ghost use Rattle.run_witness.specs.declared.facts.Fact.{Fact};
ghost use Rattle.run_witness.specs.declared.fault.Fault.{Fault};
ghost use Rattle.run_witness.specs.Judging.{ArePlain, HasEntry, IsClaimAt, IsFirstIn, IsPlacedNext, IsPutWhole, IsReplay, Keeps, KeepsAll, SomeHasEntry, called_with};
ghost use Rattle.run_witness.specs.Witness.{AreBehind, IsWitness};

use crate::causes::are_behind;
use crate::facts::{Fact, Facts, facts_of};
use crate::fault::Fault;
use crate::placing::Placing;
use crate::spelling::called_by;
use run_check::{Checker, NoRoom, Waiter};
use run_lines::{Doing, Line};
use run_orders::Step;
use run_rules::Frame;
use std::alloc::Global;

/// Whether what a line begins is the first of its strand.
fn is_first(checker: &Checker, does: &Doing) -> bool
    ensures { (past : List Line) (thread : ℕ) → IsAfter past checker.now → MayDo loose past thread does.now → IsTrue result ↔
        IsFirstIn past does.now }
{
    match *does {
        Doing::Begin { op, .. } => checker.is_first(op),
        _ => true,
    }
}

/// Whether a line of an order may come.
fn may_come(checker: &Checker, line: &Line) -> bool
    ensures { (past : List Line) → IsAfter past checker.now → IsTrue result ↔ MayCome plain past line.now }
{
    match checker.may_come(line) {
        Ok(()) => is_first(checker, &line.does),
        Err(_) => false,
    }
}

/// Follows a line of an order, if it may come.
fn follow(checker: &mut Checker, line: &Line) -> Result<bool, NoRoom>
    ensures exact { IfOk result (λ good. (past : List Line) → IsAfter past checker.old → IsTrue good ↔ MayCome plain past line.now) }
    ensures followed { IfOk result (λ good. (past : List Line) → IsAfter past checker.old → IsTrue good →
        IsAfter (line.now ∷ past) checker.new) }
{
    if may_come(checker, line) {
        checker.follow(line)?;
        Ok(true)
    } else {
        Ok(false)
    }
}

/// Whether an operation of which this is known was submitted to this strand.
fn is_submitted(waiter: &Waiter, strand: u64) -> bool
    ensures { IsTrue result ↔ ((waiter.now.strand ≡ Some strand) × IsSome waiter.now.entry) }
{
    waiter.strand == Some(strand) && waiter.entry.is_some()
}

/// Whether an operation stands in the queue of this strand, or has just been submitted to it.
fn has_entry(checker: &Checker, op: u64, strand: u64) -> bool
    ensures { (past : List Line) → IsAfter past checker.now → IsTrue result ↔ HasEntry past strand op }
{
    match checker.waiter(op) {
        Some(waiter) => is_submitted(&waiter, strand),
        None => false,
    }
}

/// Whether one of these operations does.
fn some_has_entry(checker: &Checker, ops: &[u64], strand: u64) -> bool
    ensures { (past : List Line) → IsAfter past checker.now → IsTrue result ↔ SomeHasEntry past strand ops.now }
{
    for op in ops {
        if has_entry(checker, *op, strand) {
            return true;
        }
    }
    false
}

/// Whether a strand is held, or one of these operations waits for it, which are all that were called.
fn is_busy(checker: &Checker, called: &[u64], strand: u64) -> bool
    ensures { (past : List Line) → IsAfter past checker.now →
        ((op : ℕ) → IsSome (call_of past op) → Contains called.now op) → IsTrue result ↔ IsBusy past strand }
{
    match checker.holder(strand) {
        Some(_) => true,
        None => some_has_entry(checker, called, strand),
    }
}

/// Keeps the operation that a line calls, if it calls one.
fn note_called(called: &mut Vec<u64>, does: &Doing) -> Result<(), NoRoom>
    ensures { IfOk result (λ _. called.new.items ≡ called_with called.old.items (called_by does.now)) }
{
    if let Some(op) = called_by(does) {
        called.push(op)?;
    }
    Ok(())
}

/// An order of a run, as far as its lines were put and followed.
#[derive(Drop)]
pub(crate) struct Replay {
    placing: Placing,
    checker: Checker,
    /// The operations that were called in the order.
    called: Vec<u64>,
}

impl Replay {
    pub(crate) fn new(alloc: Global) -> Self
        ensures { (run : List Line) (apart : List ℕ) → IsReplay run apart [] result }
    {
        Replay {
            placing: Placing::new(alloc),
            checker: Checker::new(alloc),
            called: Vec::new(alloc),
        }
    }

    /// Whether a line may come next, as far as the rules of runs have a say.
    pub(crate) fn may_put(&self, step: &Step) -> bool {
        may_come(&self.checker, &step.line)
    }

    /// Where a line of the run stands.
    pub(crate) fn position(&self, place: u64) -> Option<u64> {
        self.placing.position(place)
    }

    /// On which thread a tree is.
    pub(crate) fn thread(&self, tree: Frame) -> Option<u64> {
        self.placing.thread(tree)
    }

    /// The number of an operation of the run.
    pub(crate) fn number(&self, op: u64) -> Option<u64> {
        self.placing.number(op)
    }

    /// Whether the strand is busy of what this line calls, if that has to be so.
    fn finds_busy(&self, facts: &Facts, step: &Step) -> bool
        ensures { (apart : List ℕ) (thing : ℕ) (run : List Line) (before : List Step) → AreFacts apart thing run facts.now →
            IsReplay run apart before self.now → IsTrue result ↔ FindsBusy run apart before step.now }
    {
        match facts.idle_at(step.place) {
            Some(strand) => is_busy(&self.checker, &self.called, strand),
            None => true,
        }
    }

    /// Places a line of the run behind these, if it may stand there; the rules of runs aren't asked.
    fn place(&mut self, facts: &Facts, step: &Step) -> Result<bool, NoRoom>
        ensures good { IfOk result (λ good. (apart : List ℕ) (thing : ℕ) (run : List Line) (before : List Step) →
            AreFacts apart thing run facts.now → IsReplay run apart before self.old → IsTrue good →
            IsPlacedNext run apart before step.now self.new.placing) }
        ensures bad { IfOk result (λ good. (apart : List ℕ) (thing : ℕ) (run : List Line) (before : List Step) →
            AreFacts apart thing run facts.now → IsReplay run apart before self.old →
            EachMayStand run apart (step.now ∷ before) → IsTrue good) }
        ensures checker { IfOk result (λ _. self.new.checker ≡ self.old.checker) }
        ensures called { IfOk result (λ _. self.new.called ≡ self.old.called) }
    {
        let who = self.checker.frame(step.line.thread);
        if self.finds_busy(facts, step) {
            self.placing.put(facts, step, who)
        } else {
            Ok(false)
        }
    }

    /// Follows a line of the order, if it may come.
    fn follow(&mut self, line: &Line) -> Result<bool, NoRoom>
        ensures exact { IfOk result (λ good. (past : List Line) → IsAfter past self.old.checker → IsTrue good ↔ MayCome plain past line.now) }
        ensures followed { IfOk result (λ good. (past : List Line) → IsAfter past self.old.checker → IsTrue good →
            IsAfter (line.now ∷ past) self.new.checker) }
        ensures called { IfOk result (λ good. IsTrue good → self.new.called.items ≡ called_with self.old.called.items (called_by line.now.does)) }
        ensures placing { IfOk result (λ _. self.new.placing ≡ self.old.placing) }
    {
        note_called(&mut self.called, &line.does)?;
        follow(&mut self.checker, line)
    }

    /// Puts a line of the run behind these, if it may stand there and come.
    pub(crate) fn put(&mut self, facts: &Facts, step: &Step) -> Result<bool, NoRoom>
        ensures good { IfOk result (λ good. (apart : List ℕ) (thing : ℕ) (run : List Line) (before : List Step) →
            AreFacts apart thing run facts.now → IsReplay run apart before self.old → IsTrue good →
            IsReplay run apart (step.now ∷ before) self.new) }
        ensures bad { IfOk result (λ good. (apart : List ℕ) (thing : ℕ) (run : List Line) (before : List Step) →
            AreFacts apart thing run facts.now → IsReplay run apart before self.old →
            ArePlain run apart (step.now ∷ before) → IsTrue good) }
    {
        if self.place(facts, step)? {
            self.follow(&step.line)
        } else {
            Ok(false)
        }
    }

    /// Puts all these lines.
    fn put_all(&mut self, facts: &Facts, steps: &[Step]) -> Result<bool, NoRoom>
        ensures good { IfOk result (λ good. (apart : List ℕ) (thing : ℕ) (run : List Line) → AreFacts apart thing run facts.now →
            IsReplay run apart [] self.old → IsTrue good → IsReplay run apart (reverse steps.now) self.new) }
        ensures bad { IfOk result (λ good. (apart : List ℕ) (thing : ℕ) (run : List Line) → AreFacts apart thing run facts.now →
            IsReplay run apart [] self.old → ArePlain run apart (reverse steps.now) → IsTrue good) }
    {
        for step in steps {
            if !self.put(facts, step)? {
                return Ok(false);
            }
        }
        Ok(true)
    }

    /// Puts all lines of an order; of the last one the rules of runs aren't asked.
    fn put_order(&mut self, facts: &Facts, steps: &[Step], last: &Step) -> Result<bool, NoRoom>
        ensures good { IfOk result (λ good. (apart : List ℕ) (thing : ℕ) (run : List Line) → AreFacts apart thing run facts.now →
            IsReplay run apart [] self.old → IsTrue good → IsPutWhole run apart (reverse steps.now) last.now self.new.placing) }
        ensures bad { IfOk result (λ good. (apart : List ℕ) (thing : ℕ) (run : List Line) → AreFacts apart thing run facts.now →
            IsReplay run apart [] self.old → EachMayStand run apart (last.now ∷ reverse steps.now) →
            IsLegalSoFar plain (lines_of (reverse steps.now)) → IsTrue good) }
    {
        if self.put_all(facts, steps)? {
            self.place(facts, last)
        } else {
            Ok(false)
        }
    }
}

/// The line of the run by which a thing is claimed.
fn claim_at(facts: &Facts, place: u64, thing: u64) -> Option<Fact>
    ensures { (claim : Fact) → (result ≡ Some claim) ↔ IsClaimAt facts.now place thing claim }
{
    let fact = facts.at(place)?;
    match fact.line.does {
        Doing::Claim { thing: other } => { if other == thing { Some(fact) } else { None } }
        _ => None,
    }
}

/// Whether a line that stands doesn't give back what this one claims.
fn keeps(facts: &Facts, placing: &Placing, place: u64, claim: &Fact, at: u64) -> bool
    ensures { IsTrue result ↔ Keeps facts.now placing.now place claim.now at }
{
    match facts.at(at) {
        Some(fact) => {
            at <= place || fact.writer != claim.writer || fact.has || placing.position(at).is_none()
        }
        None => false,
    }
}

/// Whether no line stands by which a claim is given back.
#[tactic(auto, using(crate::proofs::JudgingLemmas::kept_more))]
fn is_kept(facts: &Facts, placing: &Placing, place: u64, claim: &Fact) -> bool
    ensures { IsTrue result ↔ KeepsAll facts.now placing.now place claim.now }
{
    for at in 0..facts.lines {
        if !keeps(facts, placing, place, claim, at) {
            return false;
        }
    }
    true
}

/// The thread that holds a thing by this claim, which stands, at the end of an order.
fn keeper(facts: &Facts, placing: &Placing, place: u64, claim: &Fact) -> Option<u64>
    ensures { (thread : ℕ) → (result ≡ Some thread)
        ↔ ((thread_of placing.now claim.now.tree ≡ Some thread) × KeepsAll facts.now placing.now place claim.now) }
{
    if is_kept(facts, placing, place, claim) {
        placing.thread(claim.tree)
    } else {
        None
    }
}

/// The thread that holds a thing by the claim at this place at the end of an order.
fn holder(facts: &Facts, placing: &Placing, place: u64, thing: u64) -> Option<u64>
    ensures { (apart : List ℕ) (run : List Line) (steps : List Step) → AreFacts apart thing run facts.now →
        IsPlacing run apart steps placing.now →
        (thread : ℕ) → (result ≡ Some thread) ↔ IsHeld run steps place thread thing }
{
    match (claim_at(facts, place, thing), placing.position(place)) {
        (Some(claim), Some(_)) => keeper(facts, placing, place, &claim),
        _ => None,
    }
}

/// Whether two threads hold a thing by these claims at the end of an order.
fn hold_both(facts: &Facts, placing: &Placing, thing: u64, one: u64, other: u64) -> bool
    ensures { (apart : List ℕ) (run : List Line) (steps : List Step) → AreFacts apart thing run facts.now →
        IsPlacing run apart steps placing.now →
        IsTrue result ↔ HoldsBoth run steps thing one other }
{
    match (
        holder(facts, placing, one, thing),
        holder(facts, placing, other, thing),
    ) {
        (Some(first), Some(second)) => first != second,
        _ => false,
    }
}

/// Whether each line that was put stands behind its causes, and two threads hold a thing at the end.
fn is_shown(
    alloc: Global,
    facts: &Facts,
    placing: &Placing,
    thing: u64,
    one: u64,
    other: u64,
) -> Result<bool, NoRoom>
    ensures { IfOk result (λ good. (apart : List ℕ) (run : List Line) (steps : List Step) → AreFacts apart thing run facts.now →
        IsPlacing run apart steps placing.now →
        IsTrue good ↔ (AreBehind run apart (position_of placing.now) × HoldsBoth run steps thing one other)) }
{
    if are_behind(alloc, facts, placing)? {
        Ok(hold_both(facts, placing, thing, one, other))
    } else {
        Ok(false)
    }
}

/// Whether all these executions may be set apart.
fn may_be_apart(facts: &Facts, apart: &[u64]) -> bool
    ensures { (asked : List ℕ) (thing : ℕ) (run : List Line) → AreFacts asked thing run facts.now →
        IsTrue result ↔ All (StandsAlone run) apart.now }
{
    for op in apart {
        if !facts.executions.is_lent(*op) {
            return false;
        }
    }
    true
}

/// Whether these lines are an order, if these executions may be set apart.
fn judge_lines(
    alloc: Global,
    facts: &Facts,
    steps: &[Step],
    last: &Step,
    thing: u64,
    claim: u64,
) -> Result<bool, NoRoom>
    ensures { IfOk result (λ good. (apart : List ℕ) (run : List Line) → AreFacts apart thing run facts.now → All (StandsAlone run) apart →
        IsTrue good ↔ IsWitness run apart (reverse steps.now) last.now thing claim) }
{
    let mut replay = Replay::new(alloc);
    if replay.put_order(facts, steps, last)? {
        is_shown(alloc, facts, &replay.placing, thing, claim, last.place)
    } else {
        Ok(false)
    }
}

/// Whether these lines are an order of a run of which this is known.
pub(crate) fn judge_by(
    alloc: Global,
    facts: &Facts,
    apart: &[u64],
    steps: &[Step],
    last: &Step,
    thing: u64,
    claim: u64,
) -> Result<bool, NoRoom>
    ensures { IfOk result (λ good. (run : List Line) → AreFacts apart.now thing run facts.now →
        IsTrue good ↔ IsWitness run apart.now (reverse steps.now) last.now thing claim) }
{
    if may_be_apart(facts, apart) {
        judge_lines(alloc, facts, steps, last, thing, claim)
    } else {
        Ok(false)
    }
}

/// Whether these lines are an order of a run in which the executions of these operations stand alone,
/// that are inside others in the run: `steps`, in their order, and behind them `last`, by which `thing`
/// is claimed while another thread holds it by the claim at place `claim`. All lines but the last keep
/// the rules of runs. A run that breaks a rule itself has no orders: `Illegal`.
pub fn judge(
    alloc: Global,
    run: &[Line],
    apart: &[u64],
    steps: &[Step],
    last: &Step,
    thing: u64,
    claim: u64,
) -> Result<bool, Fault>
    ensures exact { IfOk result (λ good. IsTrue good ↔ IsWitness (reverse run.now) apart.now (reverse steps.now) last.now thing claim) }
    ensures legal { OnOk result (IsLegalSoFar loose (reverse run.now)) }
    ensures illegal { IsErrOf result Fault.Illegal → ¬ (IsLegalSoFar loose (reverse run.now)) }
{
    let facts = facts_of(alloc, run, apart, thing)?;
    Ok(judge_by(alloc, &facts, apart, steps, last, thing, claim)?)
}
