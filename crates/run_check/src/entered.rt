ghost use Rattle.std.specs.Prelude.{◌≡◌, ◌==◌, if◌then◌else◌, IfOk, ℕ, None};
ghost use Rattle.run_check.specs.Entered.{entered_by, entered_of};

use run_lines::{Doing, Word};
use std::alloc::{AllocError, Global};
use std::collections::HashMap;

/// The operations that entered a queue by the last line of their thread, so that nobody knows yet
/// whether they stand in it.
#[derive(Drop)]
pub(crate) struct Entered {
    operations: HashMap<u64, u64>,
}

/// The operation that a line submits.
fn entered_by(does: &Doing) -> Option<u64>
    ensures { result ≡ entered_by does.now }
{
    match *does {
        Doing::Call { op, word, .. } => match word {
            Word::Post | Word::Defer | Word::Dispatch => Some(op),
            Word::Other(_) => None,
        },
        Doing::Done { op, .. } => Some(op),
        _ => None,
    }
}

impl Entered {
    pub(crate) fn new(alloc: Global) -> Self
        ensures { (thread : ℕ) → entered_of result thread ≡ None }
    {
        Entered {
            operations: HashMap::new(alloc),
        }
    }

    pub(crate) fn of(&self, thread: u64) -> Option<u64>
        ensures { result ≡ entered_of self.now thread }
    {
        self.operations.get(&thread).copied()
    }

    pub(crate) fn follow(&mut self, thread: u64, does: &Doing) -> Result<(), AllocError>
        ensures { IfOk result
            (λ _. (other : ℕ) →
            entered_of self.new other ≡ (if thread == other then entered_by does.now else entered_of self.old other)) }
    {
        match entered_by(does) {
            Some(op) => {
                self.operations.insert(thread, op)?;
            }
            None => {
                self.operations.remove(&thread);
            }
        }
        Ok(())
    }
}
