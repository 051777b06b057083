ghost use Rattle.std.specs.Prelude.{◌≡◌, ◌↔◌, ◌&&◌, ◌||◌, ◌==◌, ◌≢◌, IfOk, ℕ, List, [], None, Some, IsSomeAnd, IsTrue, false, nat_eq};
ghost use Rattle.std.specs.HashMap.{get};
ghost use Rattle.run_check.specs.After.{IsAfter, loose, waiter_of};
ghost use Rattle.run_check.specs.Judging.{is_number};
ghost use Rattle.run_lines.specs.declared.line.Line.{Line};
ghost use Rattle.run_check.specs.declared.waiting.CallKind.{CallKind};
ghost use Rattle.run_rules.specs.declared.frame.Frame.{Frame};
ghost use Rattle.run_orders.specs.Trees.{is_among};
ghost use Rattle.run_rules.specs.Calls.{begins};
ghost use Rattle.run_rules.specs.MayCome.{MayDo};
ghost use Rattle.run_rules.specs.Stacks.{stack};
ghost use Rattle.run_rules.specs.Starting.{Holds, IsInside};
ghost use Rattle.run_witness.specs.Executions.{IsIdle, IsLent, IsWithin, idle_strand, is_lent, is_straight, is_work, known_after, op_begun, work_of, works_in};
ghost use Rattle.run_witness.specs.Facts.{begun_by, called_at};
ghost use Rattle.run_witness.specs.declared.executions.Executions.{Executions};

use run_check::{CallKind, Checker, NoRoom, Waiter};
use run_lines::{Doing, Line};
use run_rules::Frame;
use std::alloc::Global;
use std::collections::{HashMap, HashSet};

/// What is known of the executions of a run.
#[derive(Drop)]
pub(crate) struct Executions {
    /// Which threads execute handlers of which contexts.
    workers: HashSet<(u64, u64)>,
    /// Those that begin inside others, and aren't their own.
    lent: HashSet<u64>,
    /// The strands of those that are set apart, and began inside their calls as their strands were idle.
    idle: HashMap<u64, u64>,
}

/// Whether an operation is one of these.
pub(crate) fn is_among(apart: &[u64], op: u64) -> bool
    ensures { result ≡ is_among apart.now op }
{
    apart.contains(&op)
}

/// The context for which a line makes its thread work.
fn work_of(does: &Doing, begun: Option<Waiter>) -> Option<u64>
    ensures { result ≡ work_of does.now begun }
{
    match *does {
        Doing::Work { context } => Some(context),
        _ => match begun {
            Some(waiter) => Some(waiter.context),
            None => None,
        },
    }
}

/// Whether an operation was dispatched by this execution.
fn is_dispatched_by(innermost: Option<u64>, waiter: &Waiter) -> bool
    ensures { IsTrue result ↔ ((waiter.now.kind ≡ CallKind.Dispatch) × IsSomeAnd innermost (λ op. waiter.now.caller ≡ Frame.Execution op)) }
{
    match innermost {
        Some(op) => waiter.kind == CallKind::Dispatch && waiter.caller == Frame::Execution { op },
        None => false,
    }
}

/// Whether what begins on this thread was dispatched by the innermost execution there.
fn is_inside(checker: &Checker, thread: u64, waiter: &Waiter) -> bool
    ensures { (past : List Line) (op : ℕ) → IsAfter past checker.now → waiter_of past op ≡ Some waiter.now →
        IsTrue result ↔ IsInside past thread op }
{
    is_dispatched_by(checker.innermost(thread), waiter)
}

/// Whether a thread holds a strand.
fn holds(checker: &Checker, thread: u64, strand: u64) -> bool
    ensures { (past : List Line) → IsAfter past checker.now → IsTrue result ↔ Holds past thread strand }
{
    match checker.holder(strand) {
        Some(holder) => holder == thread,
        None => false,
    }
}

/// Whether a thread holds a strand, if there is one.
fn is_within(checker: &Checker, thread: u64, strand: Option<u64>) -> bool
    ensures { (past : List Line) → IsAfter past checker.now → IsTrue result ↔ IsWithin past thread strand }
{
    match strand {
        Some(strand) => holds(checker, thread, strand),
        None => true,
    }
}

/// Whether what begins on this thread is the own one of the execution that it begins in.
fn is_own(checker: &Checker, thread: u64, waiter: &Waiter) -> bool
    ensures { (past : List Line) (op : ℕ) → IsAfter past checker.now → waiter_of past op ≡ Some waiter.now →
        IsTrue result ↔ (IsInside past thread op × IsWithin past thread waiter.now.strand) }
{
    is_inside(checker, thread, waiter) && is_within(checker, thread, waiter.strand)
}

/// Whether a thread executes something.
fn is_executing(checker: &Checker, thread: u64) -> bool
    ensures { (past : List Line) → IsAfter past checker.now → IsTrue result ↔ (stack past thread ≢ []) }
{
    checker.innermost(thread).is_some()
}

/// The operation that a line begins.
fn op_begun(does: &Doing) -> Option<u64>
    ensures { result ≡ op_begun does.now }
{
    match *does {
        Doing::Begin { op, .. } => Some(op),
        _ => None,
    }
}

/// Whether what begins on this thread begins inside an execution, and isn't its own.
fn is_lent(checker: &Checker, thread: u64, waiter: &Waiter) -> bool
    ensures { (past : List Line) (op : ℕ) → IsAfter past checker.now → waiter_of past op ≡ Some waiter.now →
        IsTrue result ↔ ((stack past thread ≢ []) × ¬ (IsInside past thread op × IsWithin past thread waiter.now.strand)) }
{
    is_executing(checker, thread) && !is_own(checker, thread, waiter)
}

/// What a line begins, of which this is known, inside an execution, if it isn't its own.
fn lent_with(checker: &Checker, line: &Line, waiter: &Waiter) -> Option<u64>
    ensures { (past : List Line) → IsAfter past checker.now → begun_by past line.now.does ≡ Some waiter.now →
        (op : ℕ) → (result ≡ Some op) ↔ IsLent past line.now.thread line.now.does op }
{
    if is_lent(checker, line.thread, waiter) {
        op_begun(&line.does)
    } else {
        None
    }
}

/// What a line begins inside an execution, and isn't its own.
pub(crate) fn lent_by(checker: &Checker, line: &Line, begun: Option<Waiter>) -> Option<u64>
    ensures { (past : List Line) → IsAfter past checker.now → begun ≡ begun_by past line.now.does →
        MayDo loose past line.now.thread line.now.does →
        (op : ℕ) → (result ≡ Some op) ↔ IsLent past line.now.thread line.now.does op }
{
    match begun {
        Some(waiter) => lent_with(checker, line, &waiter),
        None => None,
    }
}

/// The strand of an operation, if it has one that this thread doesn't hold.
fn unheld(checker: &Checker, thread: u64, strand: Option<u64>) -> Option<u64>
    ensures { (past : List Line) → IsAfter past checker.now →
        (on : ℕ) → (result ≡ Some on) ↔ ((strand ≡ Some on) × ¬ (Holds past thread on)) }
{
    let on = strand?;
    if holds(checker, thread, on) {
        None
    } else {
        Some(on)
    }
}

/// Whether a line begins what is set apart, straight behind this call.
fn is_straight(apart: &[u64], does: &Doing, call: Option<u64>) -> bool
    ensures { result ≡ is_straight apart.now does.now call }
{
    match (*does, call) {
        (Doing::Begin { op, .. }, Some(called)) => called == op && is_among(apart, op),
        _ => false,
    }
}

/// The strand of what a line begins, of which this is known, if that is set apart and began as its
/// strand was idle; the last line of the thread made this call.
fn idle_with(
    checker: &Checker,
    apart: &[u64],
    line: &Line,
    waiter: &Waiter,
    call: Option<u64>,
) -> Option<u64>
    ensures { (past : List Line) → IsAfter past checker.now → begun_by past line.now.does ≡ Some waiter.now →
        call ≡ called_at past line.now.thread → (op strand : ℕ) → IsTrue (begins line.now.does op) →
        (result ≡ Some strand) ↔ IsIdle apart.now past line.now.thread line.now.does op strand }
{
    if is_straight(apart, &line.does, call) {
        unheld(checker, line.thread, waiter.strand)
    } else {
        None
    }
}

/// The strand of what a line begins, if that is set apart and began as its strand was idle; the last
/// line of the thread made this call.
pub(crate) fn idle_by(
    checker: &Checker,
    apart: &[u64],
    line: &Line,
    begun: Option<Waiter>,
    call: Option<u64>,
) -> Option<u64>
    ensures { (past : List Line) → IsAfter past checker.now → begun ≡ begun_by past line.now.does →
        call ≡ called_at past line.now.thread → MayDo loose past line.now.thread line.now.does →
        (op strand : ℕ) → IsTrue (begins line.now.does op) →
        (result ≡ Some strand) ↔ IsIdle apart.now past line.now.thread line.now.does op strand }
{
    match begun {
        Some(waiter) => idle_with(checker, apart, line, &waiter, call),
        None => None,
    }
}

/// Keeps that a thread executes handlers of a context.
fn put_work(workers: &mut HashSet<(u64, u64)>, thread: u64, context: u64) -> Result<(), NoRoom>
    ensures { IfOk result (λ _. (by to : ℕ) → works_in workers.new by to ≡ ((thread == by && context == to) || works_in workers.old by to)) }
{
    workers.insert((thread, context))?;
    Ok(())
}

/// Keeps what is known of the operation that a line begins, if anything is.
pub(crate) fn note_begun(
    table: &mut HashMap<u64, u64>,
    does: &Doing,
    value: Option<u64>,
) -> Result<(), NoRoom>
    ensures { IfOk result (λ _. (other : ℕ) → get nat_eq table.new other ≡ known_after does.now value other (get nat_eq table.old other)) }
{
    if let (Doing::Begin { op, .. }, Some(value)) = (*does, value) {
        table.insert(op, value)?;
    }
    Ok(())
}

impl Executions {
    pub(crate) fn new(alloc: Global) -> Self
        ensures workers { (thread context : ℕ) → works_in result.workers thread context ≡ false }
        ensures lent { (op : ℕ) → is_lent result op ≡ false }
        ensures idle { (op : ℕ) → idle_strand result op ≡ None }
    {
        Executions {
            workers: HashSet::new(alloc),
            lent: HashSet::new(alloc),
            idle: HashMap::new(alloc),
        }
    }

    /// Whether a thread executes handlers of this context in the run.
    pub(crate) fn works(&self, thread: u64, context: u64) -> bool
        ensures { result ≡ works_in self.now.workers thread context }
    {
        self.workers.contains(&(thread, context))
    }

    /// Whether an execution begins inside another one in the run, and isn't its own.
    pub(crate) fn is_lent(&self, op: u64) -> bool
        ensures { result ≡ is_lent self.now op }
    {
        self.lent.contains(&op)
    }

    /// The strand that was idle as an execution that is set apart began inside its call in the run.
    pub(crate) fn idle_strand(&self, op: u64) -> Option<u64>
        ensures { result ≡ idle_strand self.now op }
    {
        self.idle.get(&op).copied()
    }

    /// Keeps which thread executes handlers of a context, if there is one.
    fn note_work(&mut self, thread: u64, context: Option<u64>) -> Result<(), NoRoom>
        ensures workers { IfOk result (λ _. (by to : ℕ) →
            works_in self.new.workers by to ≡ (is_work thread context by to || works_in self.old.workers by to)) }
        ensures lent { IfOk result (λ _. self.new.lent ≡ self.old.lent) }
        ensures idle { IfOk result (λ _. self.new.idle ≡ self.old.idle) }
    {
        match context {
            Some(context) => put_work(&mut self.workers, thread, context),
            None => Ok(()),
        }
    }

    /// Keeps what begins inside another execution and isn't its own, if something does.
    fn note_lent(&mut self, lent: Option<u64>) -> Result<(), NoRoom>
        ensures lent { IfOk result (λ _. (op : ℕ) → is_lent self.new op ≡ (is_number lent op || is_lent self.old op)) }
        ensures workers { IfOk result (λ _. self.new.workers ≡ self.old.workers) }
        ensures idle { IfOk result (λ _. self.new.idle ≡ self.old.idle) }
    {
        if let Some(op) = lent {
            self.lent.insert(op)?;
        }
        Ok(())
    }

    /// Keeps what a line makes known of executions.
    pub(crate) fn note(
        &mut self,
        line: &Line,
        begun: Option<Waiter>,
        lent: Option<u64>,
        idle: Option<u64>,
    ) -> Result<(), NoRoom>
        ensures workers { IfOk result (λ _. (by to : ℕ) → works_in self.new.workers by to
            ≡ (is_work line.now.thread (work_of line.now.does begun) by to || works_in self.old.workers by to)) }
        ensures lent { IfOk result (λ _. (op : ℕ) → is_lent self.new op ≡ (is_number lent op || is_lent self.old op)) }
        ensures idle { IfOk result (λ _. (op : ℕ) → idle_strand self.new op ≡ known_after line.now.does idle op (idle_strand self.old op)) }
    {
        self.note_work(line.thread, work_of(&line.does, begun))?;
        self.note_lent(lent)?;
        note_begun(&mut self.idle, &line.does, idle)
    }
}
