ghost use Rattle.std.specs.Prelude.{◌≡◌, ◌≤◌, ◌++◌, IfOk, OnErr};
ghost use Rattle.std.specs.Fmt.{decimal};
ghost use Rattle.asio_types.specs.Faults.{CountsFaults};
ghost use Rattle.asio_types.specs.Sink.{Extends, ExtendsByPart};
ghost use Rattle.generated_session.specs.Summary.{last_line, lines_of, text_of_line};

use crate::tally::{Closing, SummaryTally};
use asio_types::{Failed, Sink, write_all};
use itoa::Buffer;

/// One line of a summary.
#[derive(Clone, Copy)]
pub(crate) enum SummaryLine {
    /// From which number the session was made, and how many acts it has.
    Made { start: u32, size: u32 },
    /// The calls.
    Acts(u64),
    /// The handlers that ran.
    Executed(u64),
    /// The handlers that were destroyed.
    Dropped(u64),
    /// The operations that completed with `operation_aborted`.
    Aborted(u64),
    /// The sum of the marks of the handlers that ran.
    Marks(u128),
    /// The time of the last tick.
    Time(u64),
    /// The reactor failed.
    Fault,
    /// How the last round closed.
    Closed(Closing),
}

impl SummaryLine {
    /// The eight lines of a summary.
    pub(crate) fn all(start: u32, size: u32, tally: SummaryTally) -> [SummaryLine; 8]
        ensures { result ≡ lines_of start size tally }
    {
        [
            SummaryLine::Made { start, size },
            SummaryLine::Acts(tally.acts),
            SummaryLine::Executed(tally.executed),
            SummaryLine::Dropped(tally.dropped),
            SummaryLine::Aborted(tally.aborted),
            SummaryLine::Marks(tally.marks),
            SummaryLine::Time(tally.time),
            SummaryLine::last(tally),
        ]
    }

    fn last(tally: SummaryTally) -> SummaryLine
        ensures { result ≡ last_line tally }
    {
        if tally.fault {
            SummaryLine::Fault
        } else {
            SummaryLine::Closed(tally.closing)
        }
    }

    /// Writes the line. `Failed` comes where the sink failed, which has then taken a first part.
    pub(crate) fn write<K: Sink>(self, sink: &mut K) -> Result<(), Failed>
        ensures whole { IfOk result
            (λ _. Extends (K.written sink.old) (text_of_line self) (K.written sink.new)) }
        ensures part { OnErr result
            (ExtendsByPart (K.written sink.old) (text_of_line self) (K.written sink.new)) }
        ensures counts { CountsFaults result (K.faults sink.old) (K.faults sink.new) }
        ensures later { K.faults sink.old ≤ K.faults sink.new }
    {
        match self {
            SummaryLine::Made { start, size } => {
                write_number(sink, b"gen ", start as u128, b" ")?;
                write_number(sink, b"", size as u128, b"\n")
            }
            SummaryLine::Acts(number) => write_number(sink, b"acts ", number as u128, b"\n"),
            SummaryLine::Executed(number) => write_number(
                sink,
                b"executed ",
                number as u128,
                b"\n",
            ),
            SummaryLine::Dropped(number) => write_number(sink, b"dropped ", number as u128, b"\n"),
            SummaryLine::Aborted(number) => write_number(sink, b"aborted ", number as u128, b"\n"),
            SummaryLine::Marks(sum) => write_number(sink, b"marks ", sum, b"\n"),
            SummaryLine::Time(now) => write_number(sink, b"time ", now as u128, b"\n"),
            SummaryLine::Fault => write_all(sink, b"fault\n"),
            SummaryLine::Closed(closing) => write_all(sink, line_of_closing(closing)),
        }
    }
}

/// The line of how the last round closed.
fn line_of_closing(closing: Closing) -> &'static [u8]
    ensures { result.now ≡ text_of_line (SummaryLine.Closed closing) }
{
    match closing {
        Closing::Open => b"\n",
        Closing::Ended => b"ended\n",
        Closing::Stopped => b"stopped\n",
        Closing::Polled => b"polled\n",
    }
}

/// Writes a word, a number in decimal, and what ends it.
fn write_number<K: Sink>(sink: &mut K, word: &[u8], number: u128, end: &[u8]) -> Result<(), Failed>
    ensures whole { IfOk result (λ _.
        Extends (K.written sink.old) (word.now ++ decimal number ++ end.now)
        (K.written sink.new)) }
    ensures part { OnErr result (ExtendsByPart (K.written sink.old)
        (word.now ++ decimal number ++ end.now) (K.written sink.new)) }
    ensures counts { CountsFaults result (K.faults sink.old) (K.faults sink.new) }
    ensures later { K.faults sink.old ≤ K.faults sink.new }
{
    write_all(sink, word)?;
    write_all(sink, Buffer::new().format(number).as_bytes())?;
    write_all(sink, end)
}
