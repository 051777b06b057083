ghost use Rattle.std.specs.Prelude.{◌≡◌};
ghost use Rattle.lane_turns.specs.Answers.{is_done, is_fault, is_nothing};

use asio_types::OpNo;

/// What one attempt to do something for a context came to (Asio reference, io_context::poll_one).
#[derive(Clone, Copy, Debug, PartialEq, Eq)]
pub enum One {
    /// The handler of this operation was executed, and with it those that execute inside it; this
    /// is its run mark.
    Ran(OpNo, u64),
    /// The reactor took a request, or passed to a time point, and told what completed.
    Turned,
    /// Nothing was found to do.
    Nothing,
    /// The context is stopped, or its reactor had failed before.
    Stopped,
    /// The reactor failed.
    Fault,
    /// A lane saw this operation at its next place, whose handler it doesn't hold, or which is no
    /// request that it may take.
    Missing(OpNo),
}

impl One {
    /// Whether nothing was found to do.
    pub fn is_nothing(self) -> bool
        ensures { result ≡ is_nothing self }
    {
        matches!(self, One::Nothing)
    }

    /// Whether the reactor failed.
    pub fn is_fault(self) -> bool
        ensures { result ≡ is_fault self }
    {
        matches!(self, One::Fault)
    }

    /// Whether a handler was executed or a turn of the reactor made.
    pub fn is_done(self) -> bool
        ensures { result ≡ is_done self }
    {
        matches!(self, One::Ran(_, _) | One::Turned)
    }
}
