ghost use Rattle.std.specs.Prelude.{◌≡◌, if◌then◌else◌, IfOk, Some, None};
ghost use Rattle.run_rules.specs.declared.frame.Frame.{Frame};
ghost use Rattle.run_rules.specs.Stacks.{same_frame};
ghost use Rattle.run_check.specs.LastCalls.{last_call_of, followed};

use run_lines::Doing;
use run_rules::Frame;
use std::alloc::{AllocError, Global};
use std::collections::HashMap;

/// The calls that aren't known to be back, by who made them.
#[derive(Drop)]
pub(crate) struct LastCalls {
    calls: HashMap<Frame, u64>,
}

impl LastCalls {
    pub(crate) fn new(alloc: Global) -> Self
        ensures { (who : Frame) → last_call_of result who ≡ None }
    {
        LastCalls {
            calls: HashMap::new(alloc),
        }
    }

    pub(crate) fn of(&self, who: Frame) -> Option<u64>
        ensures { result ≡ last_call_of self.now who }
    {
        self.calls.get(&who).copied()
    }

    fn put(&mut self, who: Frame, op: u64) -> Result<(), AllocError>
        ensures { IfOk result
            (λ _. (frame : Frame) →
            last_call_of self.new frame ≡ (if same_frame who frame then Some op else last_call_of self.old frame)) }
    {
        self.calls.insert(who, op)?;
        Ok(())
    }

    fn forget(&mut self, who: Frame)
        ensures { (frame : Frame) →
            last_call_of self.new frame ≡ (if same_frame who frame then None else last_call_of self.old frame) }
    {
        self.calls.remove(&who);
    }

    pub(crate) fn follow(&mut self, who: Frame, does: &Doing) -> Result<(), AllocError>
        ensures { IfOk result
            (λ _. (frame : Frame) → last_call_of self.new frame ≡ followed who does.now frame (last_call_of self.old frame)) }
    {
        match *does {
            Doing::Call { op, .. } => {
                self.put(who, op)?;
            }
            Doing::Back { .. } => {
                self.forget(who);
            }
            Doing::End { op } | Doing::Throw { op } => {
                self.forget(Frame::Execution { op });
            }
            _ => {}
        }
        Ok(())
    }
}
