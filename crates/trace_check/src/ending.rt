ghost use Rattle.std.specs.Prelude.{◌≡◌, OnOk, OnErr};
ghost use Rattle.asio_types.specs.Faults.{CountsFaults};
ghost use Rattle.asio_types.specs.Sink.{Extends, ExtendsByPart};
ghost use Rattle.trace_check.specs.Ending.{check_note_at, check_status_of};

use crate::line::write_numbered;
use crate::status::CheckStatus;
use crate::verdict::Verdict;
use asio_types::{Failed, Sink, write_all};
use session_script::Refusal;
use text_io::write_refusal;

/// How a session ended, before its note is written.
#[derive(Clone, Copy, Debug, PartialEq, Eq)]
pub(crate) enum CheckEnding {
    /// This verdict was written.
    Judged(Verdict),
    /// The words are no form of the command.
    Usage,
    /// The script has this fault.
    Refused(Refusal),
    /// Reading failed.
    ReadFault,
    /// Writing failed.
    WriteFault,
    /// Memory was asked for and not given.
    NoMemory,
    /// There is no trace, or this line of it is bad.
    BadTrace(u32),
}

impl CheckEnding {
    /// The status that is answered.
    pub(crate) fn status(self) -> CheckStatus
        ensures { result ≡ check_status_of self }
    {
        match self {
            CheckEnding::Judged(Verdict::Legal) => CheckStatus::Done,
            CheckEnding::Judged(_) => CheckStatus::Illegal,
            CheckEnding::Usage => CheckStatus::Usage,
            CheckEnding::Refused(_) => CheckStatus::Refused,
            CheckEnding::ReadFault => CheckStatus::ReadFault,
            CheckEnding::WriteFault => CheckStatus::WriteFault,
            CheckEnding::NoMemory => CheckStatus::NoMemory,
            CheckEnding::BadTrace(_) => CheckStatus::BadTrace,
        }
    }
}

/// Writes the note of an ending, piece by piece. Takes no memory.
pub(crate) fn write_note<N: Sink>(notes: &mut N, ending: CheckEnding) -> Result<(), Failed>
    ensures whole { OnOk result
        (Extends (N.written notes.old) (check_note_at ending) (N.written notes.new)) }
    ensures part { OnErr result
        (ExtendsByPart (N.written notes.old) (check_note_at ending) (N.written notes.new)) }
    ensures counts { CountsFaults result (N.faults notes.old) (N.faults notes.new) }
{
    match ending {
        CheckEnding::Refused(refusal) => write_refusal(
            notes,
            b"asio_check: refused ",
            refusal.rule.number(),
            refusal.line,
            refusal.token,
        ),
        CheckEnding::BadTrace(line) => write_numbered(
            notes,
            b"asio_check: bad trace at line ",
            line,
        ),
        other => write_all(notes, other.status().note()),
    }
}
