ghost use Rattle.std.specs.Prelude.{◌≡◌, ◌||◌, ℕ, IfOk, false};
ghost use Rattle.run_rules.specs.MayCome.{marks};
ghost use Rattle.run_check.specs.Marks.{has_mark};

use run_lines::Doing;
use std::alloc::{AllocError, Global};
use std::collections::HashSet;

/// The marks that stand in a run.
#[derive(Drop)]
pub(crate) struct Marks {
    numbers: HashSet<u64>,
}

impl Marks {
    pub(crate) fn new(alloc: Global) -> Self
        ensures { (mark : ℕ) → has_mark result mark ≡ false }
    {
        Marks {
            numbers: HashSet::new(alloc),
        }
    }

    pub(crate) fn has(&self, mark: u64) -> bool
        ensures { result ≡ has_mark self.now mark }
    {
        self.numbers.contains(&mark)
    }

    pub(crate) fn follow(&mut self, does: &Doing) -> Result<(), AllocError>
        ensures { IfOk result (λ _. (mark : ℕ) → has_mark self.new mark ≡ (marks does.now mark || has_mark self.old mark)) }
    {
        if let Doing::Mark { mark } = *does {
            self.numbers.insert(mark)?;
        }
        Ok(())
    }
}
