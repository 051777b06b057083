ghost use Rattle.std.specs.Prelude.{◌≡◌, ◌==◌, ◌↔◌, if◌then◌else◌, IfOk, ℕ, Some, None, is_some};
ghost use Rattle.run_check.specs.Stacks.{innermost_of, execution_of, frame_at, outer_of, strand_let_in};
ghost use Rattle.run_check.specs.Following.{innermost_after, execution_after};

use run_lines::Doing;
use run_rules::Frame;
use std::alloc::{AllocError, Global};
use std::collections::HashMap;

/// An execution of a handler that goes on.
#[derive(Clone, Copy)]
pub(crate) struct Execution {
    /// The execution of the same thread inside which it runs.
    pub(crate) outer: Option<u64>,
    /// Its strand, if no execution around it holds that strand already.
    pub(crate) strand: Option<u64>,
}

/// The executions that go on, each thread's from the innermost outwards.
#[derive(Drop)]
pub(crate) struct Stacks {
    innermost: HashMap<u64, u64>,
    executions: HashMap<u64, Execution>,
}

impl Stacks {
    pub(crate) fn new(alloc: Global) -> Self
        ensures idle { (thread : ℕ) → innermost_of result thread ≡ None }
        ensures empty { (op : ℕ) → execution_of result op ≡ None }
    {
        Stacks {
            innermost: HashMap::new(alloc),
            executions: HashMap::new(alloc),
        }
    }

    pub(crate) fn innermost(&self, thread: u64) -> Option<u64>
        ensures { result ≡ innermost_of self.now thread }
    {
        self.innermost.get(&thread).copied()
    }

    /// Whether the handler of this operation is executed.
    pub(crate) fn has(&self, op: u64) -> bool
        ensures { result ≡ is_some (execution_of self.now op) }
    {
        self.executions.contains_key(&op)
    }

    /// On how many threads something executes.
    pub(crate) fn len(&self) -> usize
        ensures { (result ≡ 0) ↔ ((thread : ℕ) → innermost_of self.now thread ≡ None) }
    {
        self.innermost.len()
    }

    /// Who writes the next line of a thread.
    pub(crate) fn frame(&self, thread: u64) -> Frame
        ensures { result ≡ frame_at (innermost_of self.now thread) thread }
    {
        match self.innermost(thread) {
            Some(op) => Frame::Execution { op },
            None => Frame::Outside { thread },
        }
    }

    fn begin(&mut self, thread: u64, op: u64, strand: Option<u64>) -> Result<(), AllocError>
        ensures innermost { IfOk result
            (λ _. (other : ℕ) →
            innermost_of self.new other ≡ (if thread == other then Some op else innermost_of self.old other)) }
        ensures executions { IfOk result (λ _. (other : ℕ) → execution_of self.new other ≡
            (if op == other then Some (record { outer = innermost_of self.old thread; strand = strand }) else execution_of self.old other)) }
    {
        let outer = self.innermost(thread);
        self.executions.insert(op, Execution { outer, strand })?;
        self.innermost.insert(thread, op)?;
        Ok(())
    }

    /// The strand that an execution let in.
    pub(crate) fn let_in(&self, op: u64) -> Option<u64>
        ensures { result ≡ strand_let_in (execution_of self.now op) }
    {
        match self.executions.get(&op).copied() {
            Some(execution) => execution.strand,
            None => None,
        }
    }

    /// Follows a line of a thread; a begin lets this strand in.
    pub(crate) fn follow(
        &mut self,
        thread: u64,
        does: &Doing,
        own: Option<u64>,
    ) -> Result<(), AllocError>
        ensures innermost { IfOk result
            (λ _. (other : ℕ) →
            innermost_of self.new other ≡ innermost_after (execution_of self.old) thread does.now other
            (innermost_of self.old other)) }
        ensures executions { IfOk result
            (λ _. (other : ℕ) →
            execution_of self.new other ≡ execution_after (innermost_of self.old thread) own does.now other
            (execution_of self.old other)) }
    {
        match *does {
            Doing::Begin { op, .. } => self.begin(thread, op, own),
            Doing::End { op } | Doing::Throw { op } => self.end(thread, op),
            _ => Ok(()),
        }
    }

    /// Takes the innermost execution of a thread away.
    fn end(&mut self, thread: u64, op: u64) -> Result<(), AllocError>
        ensures innermost { IfOk result
            (λ _. (other : ℕ) →
            innermost_of self.new
            other ≡ (if thread == other then outer_of (execution_of self.old op) else innermost_of self.old other)) }
        ensures executions { IfOk result
            (λ _. (other : ℕ) → execution_of self.new other ≡ (if op == other then None else execution_of self.old other)) }
    {
        let ended = self.executions.remove(&op);
        let Some(execution) = ended else {
            self.innermost.remove(&thread);
            return Ok(());
        };
        match execution.outer {
            Some(outer) => {
                self.innermost.insert(thread, outer)?;
            }
            None => {
                self.innermost.remove(&thread);
            }
        }
        Ok(())
    }
}
