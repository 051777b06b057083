ghost use Rattle.std.specs.Prelude.{◌≡◌, ◌∷◌, ◌==◌, ℕ, IfOk, IsTrue, List, None, Option, Some, false, if◌then◌else◌};
ghost use Rattle.run_joins.specs.declared.joining.Joined.{Joined};
ghost use Rattle.run_lines.specs.declared.code.Code.{Code};
ghost use Rattle.run_lines.specs.declared.line.Doing.{Doing};
ghost use Rattle.run_lines.specs.declared.line.Line.{Line};
ghost use Rattle.run_orders.specs.declared.guard.Guard.{Guard};
ghost use Rattle.run_rules.specs.declared.taking.Resource.{Resource};
ghost use Rattle.run_rules.specs.Stacks.{frame};
ghost use Rattle.run_rules.specs.Takings.{is_taken_by};
ghost use Rattle.run_overlaps.specs.Guarding.{IsExempt, IsGivenBack};
ghost use Rattle.run_overlaps.specs.Watching.{IsWatch};

use crate::watch::{Called, Watch};
use run_joins::Joined;
use run_lines::{Doing, Line};
use run_orders::Guard;
use run_rules::{Frame, Resource};
use std::alloc::{AllocError, Global};
use std::collections::HashMap;

/// A thing that a mutex guards.
#[derive(Clone, Copy, Debug, PartialEq, Eq)]
pub(crate) struct UnderLock {
    pub(crate) lock: u64,
    pub(crate) thing: u64,
}

/// What guards the claims of things, and which thread alone executes the handlers of a context.
#[derive(Drop)]
pub struct Guards {
    things: HashMap<u64, Guard>,
    locked: Vec<UnderLock>,
    workers: HashMap<u64, u64>,
}

/// Whether this number is known to be that one, or isn't known.
fn is_or_unknown(known: Option<u64>, number: u64) -> bool
    ensures { (other : ℕ) → IsTrue result → known ≡ Some other → number ≡ other }
{
    match known {
        Some(other) => number == other,
        None => true,
    }
}

/// Whether the frame that unlocks a mutex here has a thing no more, if that mutex guards it.
fn is_given_back(watch: &Watch, by: u64, lock: u64, under: UnderLock) -> bool
    ensures { IsTrue result → IsGivenBack watch.now by lock under }
{
    under.lock != lock || !watch.is_taken_here(by, Resource::Thing { thing: under.thing })
}

/// Whether a thread claims outside, behind its join, what isn't late there.
pub(crate) fn is_exempt(joins: &Option<Joined>, watch: &Watch, by: u64, thing: u64) -> bool
    ensures { (past : List Line) → IsWatch past watch.now → IsTrue result → IsExempt joins.now past by thing }
{
    match joins {
        Some(joined) => {
            let outside = Frame::Outside {
                thread: joined.join.thread,
            };
            !joined.is_late(thing)
                && watch.frame(by) == outside
                && watch.lines() > joined.join.place
        }
        None => false,
    }
}

impl Guards {
    ghost use Rattle.run_overlaps.specs.Guarding.{IsGivenUp, IsGuardedBy, KeepsGuards, guard_of, lists_locked, worker_of};
    ghost use Rattle.run_overlaps.specs.Watching.{called_of};

    /// No guards.
    pub(crate) fn new(alloc: Global) -> Guards
        ensures none { (thing : ℕ) → guard_of result thing ≡ None }
        ensures listed { lists_locked result }
    {
        Guards {
            things: HashMap::new(alloc),
            locked: Vec::new(alloc),
            workers: HashMap::new(alloc),
        }
    }

    /// What keeps all claims of a thing apart in each order of the run, if anything was found.
    pub fn of(&self, thing: u64) -> Option<Guard>
        ensures { result ≡ guard_of self.now thing }
    {
        self.things.get(&thing).copied()
    }

    /// The thread that alone executes the handlers of a context.
    pub(crate) fn worker(&self, context: u64) -> Option<u64>
        ensures { result ≡ worker_of self.now context }
    {
        self.workers.get(&context).copied()
    }

    /// Takes this for what guards a thing.
    pub(crate) fn put(&mut self, thing: u64, guard: Guard) -> Result<(), AllocError>
        ensures { IfOk result (λ _. lists_locked self.old → lists_locked self.new) }
    {
        if let Guard::Lock { lock } = guard {
            self.locked.push(UnderLock { lock, thing })?;
        }
        self.things.insert(thing, guard)?;
        Ok(())
    }

    /// Takes this for the thread that alone executes the handlers of a context.
    pub(crate) fn put_worker(&mut self, context: u64, thread: u64) -> Result<(), AllocError>
        ensures { IfOk result (λ _. lists_locked self.old → lists_locked self.new) }
    {
        self.workers.insert(context, thread)?;
        Ok(())
    }

    /// Whether an execution is of a context whose handlers only this thread executes.
    fn is_alone(&self, called: &Called, thread: u64) -> bool
        ensures { IsTrue result → worker_of self.now called.now.context ≡ Some thread }
    {
        match self.worker(called.context) {
            Some(other) => thread == other,
            None => false,
        }
    }

    /// Whether the next line of a thread stands under this guard.
    fn is_under(&self, watch: &Watch, by: u64, guard: Guard) -> bool
        ensures { (past : List Line) → IsWatch past watch.now → IsTrue result → IsGuardedBy self.now past by guard }
    {
        let frame = watch.frame(by);
        match (guard, frame) {
            (Guard::Strand { strand }, Frame::Execution { op }) => match watch.called(op) {
                Some(called) => called.strand == Some(strand),
                None => false,
            },
            (Guard::Strand { .. }, Frame::Outside { .. }) => false,
            (Guard::Lock { lock }, _) => watch.is_taken_here(by, Resource::Lock { lock }),
            (Guard::Thread { thread }, Frame::Outside { thread: other }) => thread == other,
            (Guard::Thread { thread }, Frame::Execution { op }) => match watch.called(op) {
                Some(called) => self.is_alone(&called, thread),
                None => false,
            },
        }
    }

    /// Whether a thread may claim a thing here, as far as its guard has a say.
    fn allow_claim(&self, joins: &Option<Joined>, watch: &Watch, by: u64, thing: u64) -> bool
        ensures { (past : List Line) → IsWatch past watch.now → IsTrue result →
            KeepsGuards self.now joins.now past by (Doing.Claim thing) }
    {
        match self.of(thing) {
            Some(guard) => self.is_under(watch, by, guard) || is_exempt(joins, watch, by, thing),
            None => true,
        }
    }

    /// Whether the frame that unlocks a mutex here has none of the things that it guards.
    #[tactic(auto, using(crate::proofs::UnlockLemmas::back_more, crate::proofs::UnlockLemmas::back_all))]
    fn allow_unlock(&self, watch: &Watch, by: u64, lock: u64) -> bool
        ensures { (past : List Line) (joins : Option Joined) → IsWatch past watch.now → lists_locked self.now → IsTrue result →
            KeepsGuards self.now joins past by (Doing.Unlock lock) }
    {
        for under in &self.locked {
            if !is_given_back(watch, by, lock, *under) {
                return false;
            }
        }
        true
    }

    /// Whether a handler of this context may begin on a thread.
    fn allow_begin(&self, watch: &Watch, by: u64, op: u64) -> bool
        ensures { (past : List Line) (joins : Option Joined) (code : Code) (size : ℕ) → IsWatch past watch.now → IsTrue result →
            KeepsGuards self.now joins past by (Doing.Begin op code size) }
    {
        match watch.called(op) {
            Some(called) => is_or_unknown(self.worker(called.context), by),
            None => true,
        }
    }

    /// Whether a line stands where the guards want it.
    pub(crate) fn allow(&self, joins: &Option<Joined>, watch: &Watch, line: &Line) -> bool
        ensures { (past : List Line) → IsWatch past watch.now → lists_locked self.now → IsTrue result →
            KeepsGuards self.now joins.now past line.now.thread line.now.does }
    {
        match line.does {
            Doing::Claim { thing } => self.allow_claim(joins, watch, line.thread, thing),
            Doing::Unlock { lock } => self.allow_unlock(watch, line.thread, lock),
            Doing::Work { context } => is_or_unknown(self.worker(context), line.thread),
            Doing::Begin { op, .. } => self.allow_begin(watch, line.thread, op),
            _ => true,
        }
    }

    /// Whether a mutex is given up by the line that unlocks it, which was followed.
    pub(crate) fn allow_behind(&self, watch: &Watch, line: &Line) -> bool
        ensures { (past : List Line) → IsWatch (line.now ∷ past) watch.now → IsTrue result →
            IsGivenUp (line.now ∷ past) line.now.thread line.now.does }
    {
        match line.does {
            Doing::Unlock { lock } => !watch.is_taken_here(line.thread, Resource::Lock { lock }),
            _ => true,
        }
    }
}
