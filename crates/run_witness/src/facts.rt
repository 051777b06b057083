ghost use Rattle.std.specs.Prelude.{◌≡◌, ◌↔◌, ◌+◌, ◌==◌, ◌∷◌, [], if◌then◌else◌, IfOk, IsErrOf, ℕ, List, Some, nat_eq, reverse};
ghost use Rattle.std.specs.HashMap.{get};
ghost use Rattle.run_check.specs.After.{IsAfter, loose};
ghost use Rattle.run_lines.specs.declared.line.Line.{Line};
ghost use Rattle.run_rules.specs.Legal.{IsLegalSoFar};
ghost use Rattle.run_rules.specs.MayCome.{MayDo};
ghost use Rattle.run_orders.specs.Trees.{around, frame_by, root};
ghost use Rattle.run_check.specs.Called.{called_by};
ghost use Rattle.run_witness.specs.Executions.{idle_strand};
ghost use Rattle.run_witness.specs.Facts.{AreFacts, CallsIdle, IsFactBefore, IsSurvey, begun_by, call_known, ends_outside, fact_at, fact_of, known_of, root_by, works};
ghost use Rattle.run_witness.specs.declared.fault.Fault.{Fault};

use crate::executions::{Executions, idle_by, is_among, lent_by, note_begun};
use crate::fault::Fault;
use crate::spelling::{called_by, is_end};
use run_check::{Checker, NoRoom, Outcome, Waiter};
use run_lines::{Code, Doing, Line, Word};
use run_rules::{Frame, Resource};
use std::alloc::Global;
use std::collections::HashMap;
use std::hash::Hash;

/// What is known of a line of a run.
#[derive(Clone, Copy)]
pub(crate) struct Fact {
    pub(crate) line: Line,
    /// The innermost execution round it that stands alone, or the outside of its thread.
    pub(crate) tree: Frame,
    /// Who writes it.
    pub(crate) writer: Frame,
    /// Whether it ends an execution that is inside no other.
    pub(crate) leaves: bool,
    /// How the operation was called that it begins.
    pub(crate) begun: Option<Waiter>,
    /// Whether its writer has the thing that is asked for, behind it.
    pub(crate) has: bool,
}

/// What is known of the lines of a run.
#[derive(Drop)]
pub(crate) struct Facts {
    pub(crate) lines: u64,
    by_place: HashMap<u64, Fact>,
    pub(crate) executions: Executions,
}

/// A run as far as its lines were seen.
#[derive(Drop)]
pub(crate) struct Survey {
    checker: Checker,
    /// For each execution the innermost one round it that stands alone, or itself.
    roots: HashMap<u64, u64>,
    /// What the last line of each thread calls.
    calls: HashMap<u64, Option<u64>>,
    facts: Facts,
}

/// Puts a value at a key, in the place of the one that stands there.
fn put<K: Eq + Hash + Drop, V: Drop>(
    table: &mut HashMap<K, V>,
    key: K,
    value: V,
) -> Result<(), NoRoom>
    ensures { IfOk result
        (λ _. (other : K) → get K.eq table.new other ≡ (if K.eq key other then Some value else get K.eq table.old other)) }
{
    table.insert(key, value)?;
    Ok(())
}

/// The innermost execution round a line that stands alone, where this is the one of the executions on
/// its thread, of which this is the innermost.
fn root_by(apart: &[u64], does: &Doing, innermost: Option<u64>, known: Option<u64>) -> Option<u64>
    ensures { result ≡ root_by apart.now does.now innermost known }
{
    match (*does, innermost) {
        (Doing::Begin { op, .. }, None) => Some(op),
        (Doing::Begin { op, .. }, Some(_)) => { if is_among(apart, op) { Some(op) } else { known } }
        (_, None) => None,
        (_, Some(_)) => known,
    }
}

/// This execution, or the outside of a thread.
fn frame_by(thread: u64, op: Option<u64>) -> Frame
    ensures { result ≡ frame_by thread op }
{
    match op {
        Some(op) => Frame::Execution { op },
        None => Frame::Outside { thread },
    }
}

impl Facts {
    pub(crate) fn at(&self, place: u64) -> Option<Fact>
        ensures { result ≡ fact_at self.now place }
    {
        self.by_place.get(&place).copied()
    }

    /// Whether a thread executes handlers of this context in the run.
    pub(crate) fn works(&self, thread: u64, context: u64) -> bool
        ensures { result ≡ works self.now thread context }
    {
        self.executions.works(thread, context)
    }

    /// The strand that was idle of the operation that is called so, if it is set apart and began inside
    /// its call.
    fn idle_called(&self, does: &Doing) -> Option<u64>
        ensures { result ≡ known_of (idle_strand self.now.executions) (called_by does.now) }
    {
        match called_by(does) {
            Some(op) => self.executions.idle_strand(op),
            None => None,
        }
    }

    /// The same of the line at a place.
    pub(crate) fn idle_at(&self, place: u64) -> Option<u64>
        ensures { (apart : List ℕ) (thing : ℕ) (run : List Line) → AreFacts apart thing run self.now →
            (strand : ℕ) → (result ≡ Some strand) ↔ CallsIdle run apart place strand }
    {
        match self.at(place) {
            Some(fact) => self.idle_called(&fact.line.does),
            None => None,
        }
    }

    /// Keeps how many lines there are.
    fn count(&mut self, place: u64) -> Result<(), NoRoom>
        ensures counted { IfOk result (λ _. self.new.lines ≡ place + 1) }
        ensures lines { IfOk result (λ _. self.new.by_place ≡ self.old.by_place) }
        ensures executions { IfOk result (λ _. self.new.executions ≡ self.old.executions) }
    {
        self.lines = place.checked_add(1).ok_or(NoRoom)?;
        Ok(())
    }

    /// Keeps what is known of the line at a place.
    fn note(&mut self, place: u64, fact: Fact) -> Result<(), NoRoom>
        ensures lines { IfOk result (λ _. (other : ℕ) →
            fact_at self.new other ≡ (if place == other then Some fact else fact_at self.old other)) }
        ensures counted { IfOk result (λ _. self.new.lines ≡ self.old.lines) }
        ensures executions { IfOk result (λ _. self.new.executions ≡ self.old.executions) }
    {
        // the borrow checker's plan has to be told of the types within
        let _word: Option<Word> = None;
        let _code: Option<Code> = None;
        let _line: Option<Line> = None;
        let _does: Option<Doing> = None;
        let _begun: Option<Waiter> = None;
        let _outcome: Option<Outcome> = None;
        put(&mut self.by_place, place, fact)
    }
}

/// How the operation was called that a line begins.
fn begun_of(checker: &Checker, does: &Doing) -> Option<Waiter>
    ensures { (past : List Line) → IsAfter past checker.now → result ≡ begun_by past does.now }
{
    match *does {
        Doing::Begin { op, .. } => checker.waiter(op),
        _ => None,
    }
}

/// Whether a line, which was followed, ends an execution that is inside no other.
fn leaves(checker: &Checker, line: &Line) -> bool
    ensures { (past : List Line) → IsAfter (line.now ∷ past) checker.now → result ≡ ends_outside (record { line = line.now; past = past }) }
{
    match checker.innermost(line.thread) {
        None => is_end(&line.does),
        Some(_) => false,
    }
}

impl Survey {
    pub(crate) fn new(alloc: Global) -> Self
        ensures { (apart : List ℕ) (thing : ℕ) → IsSurvey apart thing [] result }
    {
        Survey {
            checker: Checker::new(alloc),
            roots: HashMap::new(alloc),
            calls: HashMap::new(alloc),
            facts: Facts {
                lines: 0,
                by_place: HashMap::new(alloc),
                executions: Executions::new(alloc),
            },
        }
    }

    /// What the last line of a thread calls.
    fn call(&self, thread: u64) -> Option<u64>
        ensures { result ≡ call_known self.now thread }
    {
        self.calls.get(&thread).copied().unwrap_or(None)
    }

    /// The innermost one that stands alone of this execution and those round it.
    fn known(&self, op: Option<u64>) -> Option<u64>
        ensures { result ≡ known_of (get nat_eq self.now.roots) op }
    {
        match op {
            Some(op) => self.roots.get(&op).copied(),
            None => None,
        }
    }

    /// The innermost execution round a line that stands alone, before the line is followed.
    fn root(&self, apart: &[u64], line: &Line) -> Option<u64>
        ensures { (thing : ℕ) (past : List Line) → IsSurvey apart.now thing past self.now →
            result ≡ root apart.now (around (record { line = line.now; past = past })) }
    {
        let innermost = self.checker.innermost(line.thread);
        let known = self.known(innermost);
        root_by(apart, &line.does, innermost, known)
    }

    /// What is known of the next line, before it is followed; this execution round it stands alone.
    fn fact(&self, alone: Option<u64>, line: &Line) -> Fact
        ensures { (apart : List ℕ) (past : List Line) → IsAfter past self.now.checker →
            alone ≡ root apart (around (record { line = line.now; past = past })) →
            IsFactBefore apart result (record { line = line.now; past = past }) }
    {
        Fact {
            line: *line,
            tree: frame_by(line.thread, alone),
            writer: self.checker.frame(line.thread),
            leaves: false,
            begun: begun_of(&self.checker, &line.does),
            has: false,
        }
    }

    /// What is known of a line, which was followed.
    fn fact_behind(&self, line: &Line, before: Fact, thing: u64) -> Fact
        ensures { (apart : List ℕ) (past : List Line) → IsAfter (line.now ∷ past) self.now.checker →
            IsFactBefore apart before (record { line = line.now; past = past }) →
            result ≡ fact_of apart thing (record { line = line.now; past = past }) }
    {
        let thread = line.thread;
        Fact {
            line: before.line,
            tree: before.tree,
            writer: before.writer,
            leaves: leaves(&self.checker, line),
            begun: before.begun,
            has: self
                .checker
                .is_taken_by(thread, before.writer, Resource::Thing { thing }),
        }
    }

    /// Follows a line, if it may come, and keeps what is known of it.
    pub(crate) fn see(&mut self, apart: &[u64], line: &Line, thing: u64) -> Result<(), Fault>
        ensures seen { IfOk result (λ _. (past : List Line) → IsSurvey apart.now thing past self.old →
            IsSurvey apart.now thing (line.now ∷ past) self.new) }
        ensures illegal { IsErrOf result Fault.Illegal → (past : List Line) → IsSurvey apart.now thing past self.old →
            ¬ (MayDo loose past line.now.thread line.now.does) }
    {
        let thread = line.thread;
        let place = self.checker.lines();
        let alone = self.root(apart, line);
        let call = self.call(thread);
        let before = self.fact(alone, line);
        let lent = lent_by(&self.checker, line, before.begun);
        let idle = idle_by(&self.checker, apart, line, before.begun, call);
        note_begun(&mut self.roots, &line.does, alone)?;
        put(&mut self.calls, thread, called_by(&line.does))?;
        self.facts.executions.note(line, before.begun, lent, idle)?;
        self.checker.step(line)?;
        let fact = self.fact_behind(line, before, thing);
        self.facts.count(place)?;
        self.facts.note(place, fact)?;
        Ok(())
    }
}

/// Sees all these lines.
fn see_all(survey: &mut Survey, apart: &[u64], lines: &[Line], thing: u64) -> Result<(), Fault>
    ensures seen { IfOk result (λ _. IsSurvey apart.now thing [] survey.old → IsSurvey apart.now thing (reverse lines.now) survey.new) }
    ensures illegal { IsErrOf result Fault.Illegal → IsSurvey apart.now thing [] survey.old → ¬ (IsLegalSoFar loose (reverse lines.now)) }
{
    for line in lines {
        survey.see(apart, line, thing)?;
    }
    Ok(())
}

/// What is known of the lines of a run, each of which may come, where these executions are set apart.
pub(crate) fn facts_of(
    alloc: Global,
    run: &[Line],
    apart: &[u64],
    thing: u64,
) -> Result<Facts, Fault>
    ensures known { IfOk result (λ facts. AreFacts apart.now thing (reverse run.now) facts) }
    ensures illegal { IsErrOf result Fault.Illegal → ¬ (IsLegalSoFar loose (reverse run.now)) }
{
    let mut survey = Survey::new(alloc);
    see_all(&mut survey, apart, run, thing)?;
    Ok(survey.facts)
}
