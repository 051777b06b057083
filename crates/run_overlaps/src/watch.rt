ghost use Rattle.std.specs.Prelude.{◌≡◌, ◌∷◌, [], ℕ, IfOk, IsTrue, List, length};
ghost use Rattle.run_lines.specs.declared.line.Line.{Line};
ghost use Rattle.run_rules.specs.MayCome.{MayDo};
ghost use Rattle.run_rules.specs.Stacks.{frame};
ghost use Rattle.run_rules.specs.Starting.{Holds};
ghost use Rattle.run_rules.specs.Takings.{is_taken_by};
ghost use Rattle.run_check.specs.After.{loose};

use run_check::{Checker, Refusal};
use run_lines::{Doing, Line};
use run_rules::{Frame, Resource, Rule};
use std::alloc::{AllocError, Global};
use std::collections::HashMap;

/// Where an operation was called to.
#[derive(Clone, Copy, Debug, PartialEq, Eq)]
pub(crate) struct Called {
    pub(crate) context: u64,
    pub(crate) strand: Option<u64>,
}

/// How each operation was called.
#[derive(Drop)]
pub(crate) struct Calls {
    by_op: HashMap<u64, Called>,
}

impl Calls {
    ghost use Rattle.run_overlaps.specs.Watching.{AreCalls, called_at, calls_after};

    pub(crate) fn new(alloc: Global) -> Calls
        ensures { AreCalls [] result }
    {
        Calls {
            by_op: HashMap::new(alloc),
        }
    }

    pub(crate) fn of(&self, op: u64) -> Option<Called>
        ensures { result ≡ called_at self.now op }
    {
        self.by_op.get(&op).copied()
    }

    /// Follows a line.
    pub(crate) fn follow(&mut self, does: &Doing) -> Result<(), AllocError>
        ensures { IfOk result (λ _. (other : ℕ) → called_at self.new other ≡ calls_after does.now other (called_at self.old other)) }
    {
        if let Doing::Call {
            op,
            context,
            strand,
            ..
        } = *does
        {
            self.by_op.insert(op, Called { context, strand })?;
        }
        Ok(())
    }
}

/// Why a line isn't followed.
#[derive(Clone, Copy, Debug, PartialEq, Eq)]
pub(crate) enum NotFollowed {
    /// It breaks a rule.
    Broken { rule: Rule },
    NoRoom,
}

/// A run as far as its lines were followed.
#[derive(Drop)]
pub(crate) struct Watch {
    checker: Checker,
    calls: Calls,
}

impl Watch {
    ghost use Rattle.run_overlaps.specs.Watching.{IsFirstIn, IsWatch, called_of};

    pub(crate) fn new(alloc: Global) -> Watch
        ensures { IsWatch [] result }
    {
        Watch {
            checker: Checker::new(alloc),
            calls: Calls::new(alloc),
        }
    }

    /// How many lines were followed.
    pub(crate) fn lines(&self) -> u64
        ensures { (past : List Line) → IsWatch past self.now → result ≡ length past }
    {
        self.checker.lines()
    }

    /// Who writes the next line of a thread.
    pub(crate) fn frame(&self, thread: u64) -> Frame
        ensures { (past : List Line) → IsWatch past self.now → result ≡ frame past thread }
    {
        self.checker.frame(thread)
    }

    /// How an operation was called.
    pub(crate) fn called(&self, op: u64) -> Option<Called>
        ensures { (past : List Line) → IsWatch past self.now → result ≡ called_of past op }
    {
        self.calls.of(op)
    }

    /// Whether an execution of a strand goes on on a thread.
    pub(crate) fn holds(&self, thread: u64, strand: u64) -> bool
        ensures { (past : List Line) → IsWatch past self.now → Holds past thread strand → IsTrue result }
    {
        self.checker.holder(strand) == Some(thread)
    }

    /// Whether the frame that writes the next line of a thread has taken this.
    pub(crate) fn is_taken_here(&self, thread: u64, resource: Resource) -> bool
        ensures { (past : List Line) → IsWatch past self.now → result ≡ is_taken_by past thread (frame past thread) resource }
    {
        let frame = self.checker.frame(thread);
        self.checker.is_taken_by(thread, frame, resource)
    }

    /// Whether what a line begins is the first of its strand.
    fn is_first(&self, does: &Doing) -> bool
        ensures { (past : List Line) (thread : ℕ) → IsWatch past self.now → MayDo loose past thread does.now
            → IsTrue result → IsFirstIn past does.now }
    {
        match *does {
            Doing::Begin { op, .. } => self.checker.is_first(op),
            _ => true,
        }
    }

    /// Follows a line that begins nothing, or the first of its strand.
    #[tactic(auto, using(crate::proofs::WatchLemmas::watch_next))]
    fn take(&mut self, line: &Line) -> Result<(), NotFollowed>
        ensures { IfOk result (λ _. (past : List Line) → IsWatch past self.old →
            (MayDo loose past line.now.thread line.now.does → IsFirstIn past line.now.does) → IsWatch (line.now ∷ past) self.new) }
    {
        match self.checker.step(line) {
            Ok(()) => {}
            Err(Refusal::Broken { rule }) => return Err(NotFollowed::Broken { rule }),
            Err(Refusal::NoRoom) => return Err(NotFollowed::NoRoom),
        }
        match self.calls.follow(&line.does) {
            Ok(()) => Ok(()),
            Err(_) => Err(NotFollowed::NoRoom),
        }
    }

    /// Follows a line, if it may come and there is room.
    pub(crate) fn follow(&mut self, line: &Line) -> Result<(), NotFollowed>
        ensures { IfOk result (λ _. (past : List Line) → IsWatch past self.old → IsWatch (line.now ∷ past) self.new) }
    {
        if self.is_first(&line.does) {
            self.take(line)
        } else {
            Err(NotFollowed::Broken { rule: Rule::First })
        }
    }
}
