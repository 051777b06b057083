ghost use Rattle.std.specs.Prelude.{◌≤◌, IfOk, OnErr};
ghost use Rattle.asio_types.specs.Faults.{CountsFaults};
ghost use Rattle.asio_types.specs.Sink.{Extends, ExtendsByPart};
ghost use Rattle.generated_session.specs.Summary.{summary_of};

use crate::line::SummaryLine;
use crate::tally::SummaryTally;
use asio_types::{Failed, Sink};
use history_book::History;

/// Writes the summary of a history of the session that `start` and `size` make: `gen` with both
/// numbers, six lines of numbers, and `fault` where the reactor failed, else the word of the last
/// closing. A history that has neither yet has an empty last line. `Failed` comes exactly where the
/// sink failed, which has then taken the first part of the summary and is asked nothing more. Takes
/// no memory, and looks at each event once.
pub fn write_summary<K: Sink>(
    history: &History,
    start: u32,
    size: u32,
    sink: &mut K,
) -> Result<(), Failed>
    ensures whole { IfOk result (λ _.
        Extends (K.written sink.old) (summary_of start size history.now.events)
        (K.written sink.new)) }
    ensures part { OnErr result (ExtendsByPart (K.written sink.old)
        (summary_of start size history.now.events) (K.written sink.new)) }
    ensures counts { CountsFaults result (K.faults sink.old) (K.faults sink.new) }
    ensures later { K.faults sink.old ≤ K.faults sink.new }
{
    let lines = SummaryLine::all(start, size, SummaryTally::of(history.events()));
    for line in lines.as_slice() {
        line.write(sink)?;
    }
    Ok(())
}
