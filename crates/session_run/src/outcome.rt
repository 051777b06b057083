ghost use Rattle.std.specs.Prelude.{◌≡◌};
ghost use Rattle.session_run.specs.Outcome.{ending_of};

use crate::ending::Ending;

/// How the work on a script ended.
#[derive(Clone, Copy, Debug, PartialEq, Eq)]
pub(crate) enum WorkOutcome {
    /// All of it was done and written.
    Done,
    /// Writing failed.
    WriteFault,
    /// The reactor failed, and all was written.
    ReactorFault,
    /// Memory was asked for and not given; nothing was begun.
    NoMemory,
}

impl WorkOutcome {
    /// How the session ends with it.
    pub(crate) fn ending(self) -> Ending
        ensures { result ≡ ending_of self }
    {
        match self {
            WorkOutcome::Done => Ending::Done,
            WorkOutcome::WriteFault => Ending::WriteFault,
            WorkOutcome::ReactorFault => Ending::ReactorFault,
            WorkOutcome::NoMemory => Ending::NoMemory,
        }
    }
}
