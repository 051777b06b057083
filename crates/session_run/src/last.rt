ghost use Rattle.std.specs.Prelude.{◌≡◌, [], Result};
ghost use Rattle.asio_types.specs.Sink.{Extends, ExtendsByPart};
ghost use Rattle.asio_types.specs.declared.failure.Failed.{Failed as Failed_of};
ghost use Rattle.session_run.specs.Last.{IsLastFlush, note_at_last, status_at_last};
ghost use Rattle.text_io.specs.Buffering.{accepted};

use crate::status::Status;
use asio_types::{Failed, Sink, write_all};
use text_io::BufferedSink;

/// The note at the end, where a session kept this one.
fn last_note<'a>(ended: Status, note: &'a [u8], flushed: Result<(), Failed>) -> &'a [u8]
    ensures { result.now ≡ note_at_last ended note.now flushed }
{
    match (ended, flushed) {
        (Status::Done | Status::ReactorFault, Err(Failed)) => Status::WriteFault.note(),
        _ => note,
    }
}

/// Ends a program whose session wrote into a buffered out and had this status and this note: it
/// flushes the out, writes the note, and gives the status at the end. What the session wrote is out
/// whole with the statuses 0 and 5, and a failed flush makes of both a write fault. A note that
/// can't be written changes no status. Takes no memory.
pub fn end_buffered<K: Sink, N: Sink>(
    ended: Status,
    note: &[u8],
    out: &mut BufferedSink<K>,
    notes: &mut N,
) -> Status
    ensures kept { Extends (accepted K.written out.old) [] (accepted K.written out.new) }
    ensures status { (flushed : Result (Unit {0}) Failed_of)
        × IsLastFlush flushed out.new.unsent.bytes (K.faults out.old.inner) (K.faults out.new.inner)
        × (result ≡ status_at_last ended flushed)
        × ExtendsByPart (N.written notes.old) (note_at_last ended note.now flushed)
        (N.written notes.new) }
{
    let flushed = out.flush();
    let _ = write_all(notes, last_note(ended, note, flushed));
    ended.at_last(flushed)
}
