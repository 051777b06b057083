ghost use Rattle.std.specs.Prelude.{OnOk, OnErr};
ghost use Rattle.asio_types.specs.Faults.{CountsFaults};
ghost use Rattle.asio_types.specs.Sink.{Extends, ExtendsByPart};
ghost use Rattle.trace_check.specs.Line.{numbered_line, verdict_line};

use crate::verdict::Verdict;
use asio_types::{Failed, Sink, write_all};
use text_io::write_field;

/// Writes a line of words and a number behind them.
pub(crate) fn write_numbered<K: Sink>(sink: &mut K, words: &[u8], number: u32) -> Result<(), Failed>
    ensures whole { OnOk result
        (Extends (K.written sink.old) (numbered_line words.now number) (K.written sink.new)) }
    ensures part { OnErr result
        (ExtendsByPart (K.written sink.old) (numbered_line words.now number) (K.written sink.new)) }
    ensures counts { CountsFaults result (K.faults sink.old) (K.faults sink.new) }
{
    write_field(sink, words, number)?;
    write_all(sink, b"\n")
}

/// Writes the line of a verdict on a trace with so many lines. Takes no memory.
pub fn write_verdict<K: Sink>(sink: &mut K, verdict: Verdict, lines: u32) -> Result<(), Failed>
    ensures whole { OnOk result
        (Extends (K.written sink.old) (verdict_line verdict lines) (K.written sink.new)) }
    ensures part { OnErr result
        (ExtendsByPart (K.written sink.old) (verdict_line verdict lines) (K.written sink.new)) }
    ensures counts { CountsFaults result (K.faults sink.old) (K.faults sink.new) }
{
    match verdict {
        Verdict::Legal => write_all(sink, b"legal\n"),
        Verdict::Illegal(number) => write_numbered(sink, b"illegal at line ", number),
        Verdict::Incomplete => write_numbered(sink, b"incomplete after line ", lines),
    }
}
