ghost use Rattle.std.specs.Prelude.{OnOk, OnErr};
ghost use Rattle.asio_types.specs.Faults.{CountsFaults};
ghost use Rattle.asio_types.specs.Sink.{Extends, ExtendsByPart};
ghost use Rattle.session_run.specs.Ending.{note_at};

use crate::ending::Ending;
use asio_types::{Failed, Sink, write_all};
use text_io::write_refusal;

/// Writes the note of an ending, piece by piece. Takes no memory.
pub(crate) fn write_note<N: Sink>(notes: &mut N, ending: Ending) -> Result<(), Failed>
    ensures whole { OnOk result
        (Extends (N.written notes.old) (note_at ending) (N.written notes.new)) }
    ensures part { OnErr result
        (ExtendsByPart (N.written notes.old) (note_at ending) (N.written notes.new)) }
    ensures counts { CountsFaults result (N.faults notes.old) (N.faults notes.new) }
{
    match ending {
        Ending::Refused(refused) => write_refusal(
            notes,
            b"asio_run: refused ",
            refused.rule,
            refused.line,
            refused.token,
        ),
        other => write_all(notes, other.status().note()),
    }
}
