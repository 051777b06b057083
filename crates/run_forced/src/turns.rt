ghost use Rattle.std.specs.Prelude.{◌≡◌, ◌⊎◌, ℕ, IfOk, IfSome, List};
ghost use Rattle.std.specs.List.{Contains};
ghost use Rattle.run_lines.specs.declared.line.Line.{Line};
ghost use Rattle.run_forced.specs.Turns.{HasEnded};
ghost use Rattle.run_forced.specs.declared.turns.Ended.{Ended};

use std::alloc::{AllocError, Global};
use std::collections::HashMap;

/// An execution of a strand that ended: by which line, by which line it began, and behind which line it
/// stood in the queue.
#[derive(Clone, Copy, Debug, PartialEq, Eq)]
pub(crate) struct Ended {
    pub(crate) op: u64,
    pub(crate) place: u64,
    pub(crate) begin: Option<u64>,
    pub(crate) behind: Option<u64>,
}

/// So many executions of a strand are kept.
const MOST_KEPT: usize = 64;

/// The latest executions of strands that ended, the oldest first.
#[derive(Drop)]
pub(crate) struct Turns {
    by_strand: HashMap<u64, Vec<Ended>>,
}

/// Keeps an execution, and gives one back that is too many.
fn keep(list: &mut Vec<Ended>, ended: Ended) -> Result<Option<Ended>, AllocError>
    ensures { IfOk result (λ _. (one : Ended) → Contains list.new.items one → Contains list.old.items one ⊎ (ended ≡ one)) }
{
    list.push(ended)?;
    if list.len() > MOST_KEPT {
        Ok(Some(list.remove(0)))
    } else {
        Ok(None)
    }
}

impl Turns {
    ghost use Rattle.run_forced.specs.Turns.{HaveEnded};

    pub(crate) fn new(alloc: Global) -> Turns
        ensures { (run : List Line) → HaveEnded run result }
    {
        Turns {
            by_strand: HashMap::new(alloc),
        }
    }

    /// The latest executions of a strand that ended, the oldest first.
    pub(crate) fn of(&self, strand: u64) -> &[Ended]
        ensures { (run : List Line) → HaveEnded run self.now → (ended : Ended) → Contains result.now ended → HasEnded run strand ended }
    {
        match self.by_strand.get(&strand) {
            Some(list) => list.as_slice(),
            None => &[],
        }
    }

    /// Takes out the latest executions of a strand.
    fn take(&mut self, alloc: Global, strand: u64) -> Vec<Ended>
        ensures rest { (run : List Line) → HaveEnded run self.old → HaveEnded run self.new }
        ensures taken { (run : List Line) → HaveEnded run self.old → (ended : Ended) → Contains result.items ended → HasEnded run strand ended }
    {
        match self.by_strand.remove(&strand) {
            Some(list) => list,
            None => Vec::new(alloc),
        }
    }

    /// Keeps an execution of a strand, and gives back one that is too many.
    pub(crate) fn put(
        &mut self,
        alloc: Global,
        strand: u64,
        ended: Ended,
    ) -> Result<Option<Ended>, AllocError>
        ensures { IfOk result (λ _. (run : List Line) → HaveEnded run self.old → HasEnded run strand ended → HaveEnded run self.new) }
    {
        let mut list = self.take(alloc, strand);
        let gone = keep(&mut list, ended)?;
        self.by_strand.insert(strand, list)?;
        Ok(gone)
    }
}
