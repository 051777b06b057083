ghost use Rattle.std.specs.Prelude.{OnOk, OnErr};
ghost use Rattle.asio_types.specs.Faults.{CountsFaults};
ghost use Rattle.asio_types.specs.Sink.{Extends, ExtendsByPart};
ghost use Rattle.text_io.specs.Note.{field, refusal_note};

use asio_types::{Failed, Sink, write_all};
use itoa::Buffer;

/// Writes words and a number behind them, in decimal. `Failed` comes where the sink failed, which
/// has then taken a first part. Takes no memory.
pub fn write_field<N: Sink>(notes: &mut N, words: &[u8], number: u32) -> Result<(), Failed>
    ensures whole { OnOk result
        (Extends (N.written notes.old) (field words.now number) (N.written notes.new)) }
    ensures part { OnErr result
        (ExtendsByPart (N.written notes.old) (field words.now number) (N.written notes.new)) }
    ensures counts { CountsFaults result (N.faults notes.old) (N.faults notes.new) }
{
    write_all(notes, words)?;
    write_all(notes, Buffer::new().format(number).as_bytes())
}

/// Writes the note of a refusal, which begins with these words: the rule, and the line and the
/// token where the text breaks it. `Failed` comes where the sink failed, which has then taken a
/// first part. Takes no memory.
pub fn write_refusal<N: Sink>(
    notes: &mut N,
    words: &[u8],
    rule: u8,
    line: u32,
    token: u32,
) -> Result<(), Failed>
    ensures whole { OnOk result (Extends (N.written notes.old)
        (refusal_note words.now rule line token) (N.written notes.new)) }
    ensures part { OnErr result (ExtendsByPart (N.written notes.old)
        (refusal_note words.now rule line token) (N.written notes.new)) }
    ensures counts { CountsFaults result (N.faults notes.old) (N.faults notes.new) }
{
    write_field(notes, words, rule as u32)?;
    write_field(notes, b" at line ", line)?;
    write_field(notes, b" token ", token)?;
    write_all(notes, b"\n")
}
