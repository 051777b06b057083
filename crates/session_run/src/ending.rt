ghost use Rattle.std.specs.Prelude.{◌≡◌};
ghost use Rattle.session_run.specs.Ending.{status_of};

use crate::status::Status;

/// The fault of a text, and where it stands: both 0 where it is the script as a whole.
#[derive(Clone, Copy, Debug, PartialEq, Eq)]
pub(crate) struct Refused {
    pub(crate) rule: u8,
    pub(crate) line: u32,
    pub(crate) token: u32,
}

/// How a session ended, before its note is written.
#[derive(Clone, Copy, Debug, PartialEq, Eq)]
pub(crate) enum Ending {
    /// All was read and written.
    Done,
    /// The words are no form of the command.
    Usage,
    /// What was read has this fault.
    Refused(Refused),
    /// Reading failed.
    ReadFault,
    /// Writing failed.
    WriteFault,
    /// The reactor failed, and the trace was written whole.
    ReactorFault,
    /// Memory was asked for and not given.
    NoMemory,
}

impl Ending {
    /// The status that is answered.
    pub(crate) fn status(self) -> Status
        ensures { result ≡ status_of self }
    {
        match self {
            Ending::Done => Status::Done,
            Ending::Usage => Status::Usage,
            Ending::Refused(_) => Status::Refused,
            Ending::ReadFault => Status::ReadFault,
            Ending::WriteFault => Status::WriteFault,
            Ending::ReactorFault => Status::ReactorFault,
            Ending::NoMemory => Status::NoMemory,
        }
    }
}
