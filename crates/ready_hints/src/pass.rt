ghost use Rattle.std.specs.Prelude.{◌≡◌, [], ◌∷◌, MatchOption};

use crate::rule::QueuePass;
use std::marker::Model;

/// A place at the hints, with which a worker hints and takes. Contracts see the hints that it made
/// and those that it took, in order, each with its number and its lane, and how many parts it has
/// of the right to know the whole.
#[derive(Drop)]
pub struct HintPass {
    pub(crate) pass: QueuePass,
}

impl Model for HintPass {
    ghost use Rattle.ready_hints.specs.Hints.{Passed, hint_passed, IsPassReady};

    ghost Value = { Passed };

    ghost view = { hint_passed };

    ghost invariant = { IsPassReady };
}

/// The passes that were made with the hints and not given out yet. Contracts see the list of them,
/// the next first.
#[derive(Drop)]
pub struct HintPasses {
    // the next one last
    pub(crate) left: Vec<HintPass>,
}

impl Model for HintPasses {
    ghost use Rattle.std.specs.Prelude.{List, reverse};
    ghost use Rattle.ready_hints.specs.Hints.{Passed};

    ghost Value = { List Passed };

    ghost view = { λ p. reverse p.left.items };
}

impl HintPasses {
    /// The next pass, in the order in which they were made; `None` exactly where all were given.
    /// Takes no memory.
    pub fn next(&mut self) -> Option<HintPass>
        ensures { MatchOption result ((self.old ≡ []) × (self.new ≡ []))
            (λ pass. self.old ≡ pass ∷ self.new) }
    {
        self.left.pop()
    }
}
