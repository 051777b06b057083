ghost use Rattle.std.specs.Prelude.{◌≡◌, ◌||◌, IfOk, false};
ghost use Rattle.run_rules.specs.declared.frame.Frame.{Frame};
ghost use Rattle.run_rules.specs.Stacks.{same_frame};
ghost use Rattle.run_joins.specs.Reaching.{has_frame};

use run_rules::Frame;
use std::alloc::{AllocError, Global};
use std::collections::HashSet;

/// Frames of a run.
#[derive(Drop)]
pub(crate) struct Frames {
    executions: HashSet<u64>,
    /// The threads whose outsides are among them.
    outsides: HashSet<u64>,
}

impl Frames {
    pub(crate) fn new(alloc: Global) -> Frames
        ensures { (who : Frame) → has_frame result who ≡ false }
    {
        Frames {
            executions: HashSet::new(alloc),
            outsides: HashSet::new(alloc),
        }
    }

    pub(crate) fn has(&self, who: Frame) -> bool
        ensures { result ≡ has_frame self.now who }
    {
        match who {
            Frame::Execution { op } => self.executions.contains(&op),
            Frame::Outside { thread } => self.outsides.contains(&thread),
        }
    }

    pub(crate) fn put(&mut self, who: Frame) -> Result<(), AllocError>
        ensures { IfOk result (λ _. (other : Frame) → has_frame self.new other ≡ (same_frame who other || has_frame self.old other)) }
    {
        match who {
            Frame::Execution { op } => {
                self.executions.insert(op)?;
            }
            Frame::Outside { thread } => {
                self.outsides.insert(thread)?;
            }
        }
        Ok(())
    }
}
