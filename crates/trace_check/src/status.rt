ghost use Rattle.std.specs.Prelude.{◌≡◌};
ghost use Rattle.trace_check.specs.Status.{check_note_of, check_number_of};

/// How a session of the checker ended: the program's exit status.
#[derive(Clone, Copy, Debug, PartialEq, Eq)]
pub enum CheckStatus {
    /// The trace is one of a legal history, and this was written.
    Done,
    /// The words are no form of the command.
    Usage,
    /// The first part of the input is no script.
    Refused,
    /// Reading failed.
    ReadFault,
    /// Writing failed; the first part of the verdict's line was written.
    WriteFault,
    /// Memory was asked for and not given.
    NoMemory,
    /// The input is too long, or has no line that parts it, or its second part is no trace.
    BadTrace,
    /// The trace isn't one of a legal history, and this was written.
    Illegal,
}

impl CheckStatus {
    /// The exit status. 5 is missing: it is that of a failed reactor, of which there is none here.
    pub fn number(self) -> u8
        ensures { result ≡ check_number_of self }
    {
        match self {
            CheckStatus::Done => 0,
            CheckStatus::Usage => 1,
            CheckStatus::Refused => 2,
            CheckStatus::ReadFault => 3,
            CheckStatus::WriteFault => 4,
            CheckStatus::NoMemory => 6,
            CheckStatus::BadTrace => 7,
            CheckStatus::Illegal => 8,
        }
    }

    /// The line that is written to the notes: none with a verdict, and none here for a refusal or a
    /// bad trace, whose lines name what is wrong.
    pub fn note(self) -> &'static [u8]
        ensures { result.now ≡ check_note_of self }
    {
        match self {
            CheckStatus::Done
            | CheckStatus::Refused
            | CheckStatus::BadTrace
            | CheckStatus::Illegal => b"",
            CheckStatus::Usage => b"asio_check: usage: asio_check [--net]\n",
            CheckStatus::ReadFault => b"asio_check: read fault\n",
            CheckStatus::WriteFault => b"asio_check: write fault\n",
            CheckStatus::NoMemory => b"asio_check: no memory\n",
        }
    }
}
