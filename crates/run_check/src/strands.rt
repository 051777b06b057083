ghost use Rattle.std.specs.Prelude.{◌≡◌, ◌==◌, if◌then◌else◌, IfOk, ℕ, Some, None};
ghost use Rattle.std.specs.Option.{option_and_then};
ghost use Rattle.run_check.specs.Following.{holder_after};
ghost use Rattle.run_check.specs.Strands.{holder_of};

use run_lines::Doing;
use std::alloc::{AllocError, Global};
use std::collections::HashMap;

/// The strands that run something, and the threads on which.
#[derive(Drop)]
pub(crate) struct Strands {
    holders: HashMap<u64, u64>,
}

impl Strands {
    pub(crate) fn new(alloc: Global) -> Self
        ensures { (strand : ℕ) → holder_of result strand ≡ None }
    {
        Strands {
            holders: HashMap::new(alloc),
        }
    }

    pub(crate) fn holder(&self, strand: u64) -> Option<u64>
        ensures { result ≡ holder_of self.now strand }
    {
        self.holders.get(&strand).copied()
    }

    /// The thread that holds this strand, if there is one.
    pub(crate) fn holder_of(&self, strand: Option<u64>) -> Option<u64>
        ensures { result ≡ option_and_then (holder_of self.now) strand }
    {
        match strand {
            Some(strand) => self.holder(strand),
            None => None,
        }
    }

    /// Follows a line of a thread; a begin lets this strand in, and an end lets it go.
    pub(crate) fn follow(
        &mut self,
        thread: u64,
        does: &Doing,
        own: Option<u64>,
    ) -> Result<(), AllocError>
        ensures { IfOk result
            (λ _. (other : ℕ) → holder_of self.new other ≡ holder_after thread own does.now other (holder_of self.old other)) }
    {
        let Some(strand) = own else {
            return Ok(());
        };
        match *does {
            Doing::Begin { .. } => self.hold(strand, thread),
            Doing::End { .. } | Doing::Throw { .. } => {
                self.let_go(strand);
                Ok(())
            }
            _ => Ok(()),
        }
    }

    pub(crate) fn hold(&mut self, strand: u64, thread: u64) -> Result<(), AllocError>
        ensures { IfOk result
            (λ _. (other : ℕ) → holder_of self.new other ≡ (if strand == other then Some thread else holder_of self.old other)) }
    {
        self.holders.insert(strand, thread)?;
        Ok(())
    }

    pub(crate) fn let_go(&mut self, strand: u64)
        ensures { (other : ℕ) → holder_of self.new other ≡ (if strand == other then None else holder_of self.old other) }
    {
        self.holders.remove(&strand);
    }
}
