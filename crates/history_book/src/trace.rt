ghost use Rattle.std.specs.Prelude.{◌≡◌, ◌≤◌, IfOk, OnErr};
ghost use Rattle.asio_types.specs.Faults.{CountsFaults};
ghost use Rattle.asio_types.specs.Sink.{Extends, ExtendsByPart};
ghost use Rattle.history_book.specs.Trace.{trace_of};

use crate::history::History;
use crate::trace_line::TraceLine;
use asio_types::{Failed, Sink, write_all};

/// Writes the trace of a history: offers one line at a time, and what is left of it where the sink
/// took a part. `Failed` comes exactly where the sink failed, which has then taken the first part
/// of the trace and is asked nothing more. Takes no memory.
pub fn write_trace<K: Sink>(history: &History, sink: &mut K) -> Result<(), Failed>
    ensures whole { IfOk result
        (λ _. Extends (K.written sink.old) (trace_of history.now.events) (K.written sink.new)) }
    ensures part { OnErr result
        (ExtendsByPart (K.written sink.old) (trace_of history.now.events) (K.written sink.new)) }
    ensures counts { CountsFaults result (K.faults sink.old) (K.faults sink.new) }
    ensures later { K.faults sink.old ≤ K.faults sink.new }
{
    let events = history.events();
    for event in events {
        write_all(sink, TraceLine::of_event(event).as_slice())?;
    }
    Ok(())
}

/// A trace fixes its history: histories with the same trace have the same events.
pub fn one_to_one(first: &History, second: &History)
    ensures { trace_of first.now.events ≡ trace_of second.now.events →
        first.now.events ≡ second.now.events }
{
    first.holds_events();
    second.holds_events();
}
