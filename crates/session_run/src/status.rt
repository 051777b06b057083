ghost use Rattle.std.specs.Prelude.{◌≡◌};
ghost use Rattle.session_run.specs.Last.{status_at_last};
ghost use Rattle.session_run.specs.Status.{number_of, note_of};

use asio_types::Failed;

/// How a session ended: the program's exit status.
///
/// In `crates/prime_count/src/main.rt`:
///
/// ```rust
/// if status != Status::Done {
///     return Ok(status);
/// }
/// ..
/// ExitCode::from(run(&rt).unwrap_or(Status::NoMemory).number())
/// ```
#[derive(Clone, Copy, Debug, PartialEq, Eq)]
pub enum Status {
    /// The script was read to its end or made, and it was run to its end and the whole trace or
    /// summary was written, or the whole text of its upgrade was written.
    Done,
    /// The words are no form of the command.
    Usage,
    /// What was read is no script.
    Refused,
    /// Reading failed.
    ReadFault,
    /// Writing failed; the first part of the trace, the summary, or the text of the upgrade, was
    /// written.
    WriteFault,
    /// The reactor failed; the trace or the summary was written whole and shows it.
    ReactorFault,
    /// Memory was asked for and not given.
    NoMemory,
}

impl Status {
    /// The exit status, from 0 to 6.
    pub fn number(self) -> u8
        ensures { result ≡ number_of self }
    {
        self as u8
    }

    /// The line that is written to the notes: none for a session that is done, and none here for a
    /// refusal, whose line names the fault.
    pub fn note(self) -> &'static [u8]
        ensures { result.now ≡ note_of self }
    {
        match self {
            Status::Done | Status::Refused => b"",
            Status::Usage =>
                b"asio_run: usage: asio_run run [--net] | asio_run gen START SIZE | asio_run upgrade\n",
            Status::ReadFault => b"asio_run: read fault\n",
            Status::WriteFault => b"asio_run: write fault\n",
            Status::ReactorFault => b"asio_run: reactor fault\n",
            Status::NoMemory => b"asio_run: no memory\n",
        }
    }

    /// The status at the end of a program whose out was buffered, by what the last flush answered:
    /// nothing is written whole before that is done.
    pub fn at_last(self, flushed: Result<(), Failed>) -> Status
        ensures { result ≡ status_at_last self flushed }
    {
        match (self, flushed) {
            (Status::Done | Status::ReactorFault, Err(Failed)) => Status::WriteFault,
            _ => self,
        }
    }
}
