ghost use Rattle.std.specs.Prelude.{◌≡◌, ◌≤◌, ◌+◌, ℕ, List, length, ◌++◌, OnOk, IfOk, IfErr, IfSome, MatchOption, MatchResult};
ghost use Rattle.std.specs.Result.{IsOkUnless};
ghost use Rattle.asio_types.specs.declared.event.Event.{Event};
ghost use Rattle.history_book.specs.Trace.{HasItsNumbers, line_of};
ghost use Rattle.trace_check.specs.Split.{byte_count};
ghost use Rattle.trace_check.specs.Reading.{most_trace, IsTraceOf, IsBadTrace, IsFaultOf, NamesLine, BeginsWithEvent};
ghost use Rattle.trace_check.specs.declared.reading.TraceFault.TheVariants.{NoMemory};

mod event_line;
mod number;
mod split;

use asio_types::{Event, NoMemory};
use event_line::event_of;
use history_book::History;
use split::split_once;
use std::alloc::Global;

/// The most bytes of a trace.
pub const MOST_TRACE: usize = 1_048_576;

/// Why no trace was read.
#[derive(Clone, Copy, Debug, PartialEq, Eq)]
pub enum TraceFault {
    /// The bytes are no trace.
    Text {
        /// The first line that isn't that of an event, from 1; 0 where there are too many bytes.
        line: u32,
    },
    /// Memory was asked for and not given.
    NoMemory,
}

impl From<NoMemory> for TraceFault {
    ghost from_gives = { λ _ e. e ≡ NoMemory };

    fn from(_e: NoMemory) -> TraceFault {
        TraceFault::NoMemory
    }
}

/// How many lines end in a text.
fn line_count(bytes: &[u8]) -> u32
    requires { length bytes.now ≤ most_trace }
    ensures { result ≡ byte_count 10 bytes.now }
{
    let mut count = 0;
    for byte in bytes {
        if *byte == b'\n' {
            count += 1;
        }
    }
    count
}

/// The event of the first line, and the text behind that line.
fn first_event(text: &[u8]) -> Option<(Event, &[u8])>
    ensures event { MatchOption result (BeginsWithEvent text.now → ⊥)
        (λ found. HasItsNumbers found.0 × (text.now ≡ line_of found.0 ++ found.1.now)) }
    ensures lines { IfSome result
        (λ found. byte_count 10 text.now ≡ byte_count 10 found.1.now + 1) }
{
    let (line, rest) = split_once(text, b'\n')?;
    let event = event_of(line)?;
    Some((event, rest))
}

/// Reads the trace of a history: for each event its line, with one space between words and LF
/// behind the last; numbers are decimal, without a leading zero, and fit their types. Anything else
/// is refused, with the first line that is bad; bytes behind the last LF are a line too. Whether
/// the events may happen is not asked. Takes the room of the history at once, and looks at each
/// byte a few times.
pub fn read_trace(alloc: Global, bytes: &[u8]) -> Result<History, TraceFault>
    ensures few { OnOk result (length bytes.now ≤ most_trace) }
    ensures trace { IfOk result (λ history. IsTraceOf bytes.now history.events) }
    ensures accepted { (events : List Event) → length bytes.now ≤ most_trace →
        IsTraceOf bytes.now events → IsOkUnless result TraceFault.NoMemory }
    ensures fault { IfErr result (IsFaultOf bytes.now) }
    ensures bad { (line : ℕ) → IsBadTrace bytes.now line →
        MatchResult result (λ _. ⊥) (NamesLine line) }
{
    if bytes.len() > MOST_TRACE {
        return Err(TraceFault::Text { line: 0 });
    }
    let mut history = History::with_room(alloc, line_count(bytes))?;
    let mut rest = bytes;
    let mut line = 1;
    while !rest.is_empty() {
        let Some((event, behind)) = first_event(rest) else {
            return Err(TraceFault::Text { line });
        };
        history.push_reserved(event);
        rest = behind;
        line += 1;
    }
    Ok(history)
}
