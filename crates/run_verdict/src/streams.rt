ghost use Rattle.std.specs.Prelude.{◌≡◌, [], ◌∷◌, ℕ, List, IfOk, IsTrue};
ghost use Rattle.run_lines.specs.declared.line.Line.{Line};
ghost use Rattle.run_rules.specs.declared.level.Level.{Level};
ghost use Rattle.run_rules.specs.MayCome.{MayDo};
ghost use Rattle.run_rules.specs.Legal.{IsLegalSoFar};
ghost use Rattle.run_verdict.specs.Streams.{AreStreams, pending_in};

use crate::uses::{Uses, Way, is_by};
use run_lines::{Doing, Word};
use std::alloc::{AllocError, Global};

/// The reads and writes that are pending on streams, at most one of both on each.
#[derive(Drop)]
pub(crate) struct Streams {
    reads: Uses,
    writes: Uses,
}

impl Streams {
    pub(crate) fn new(alloc: Global) -> Self
        ensures { AreStreams [] result }
    {
        Streams {
            reads: Uses::new(alloc),
            writes: Uses::new(alloc),
        }
    }

    /// The operation that is pending where a call by this word on this thing would be, too.
    pub(crate) fn pending(&self, word: &Word, thing: Option<u64>) -> Option<u64>
        ensures { result ≡ pending_in self.now word.now thing }
    {
        match thing {
            Some(stream) => {
                if is_by(Way::Read, word) {
                    self.reads.user(stream)
                } else if is_by(Way::Write, word) {
                    self.writes.user(stream)
                } else {
                    None
                }
            }
            None => None,
        }
    }

    /// Follows a line that may come.
    pub(crate) fn follow(&mut self, does: &Doing) -> Result<(), AllocError>
        ensures { IfOk result (λ _. (level : Level) (past : List Line) (thread : ℕ) → IsTrue level.streams
            → IsLegalSoFar level past → MayDo level past thread does.now
            → AreStreams past self.old → AreStreams (record { thread = thread; does = does.now } ∷ past) self.new) }
    {
        self.reads.follow(Way::Read, does)?;
        self.writes.follow(Way::Write, does)?;
        Ok(())
    }
}
