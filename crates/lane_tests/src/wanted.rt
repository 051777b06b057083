//! What is wanted of events.

use asio_types::{Event, SureSink};
use history_book::{History, Replay, write_trace};
use session_script::Script;
use std::alloc::Global;
use std::process::Abort;

/// Said where memory is refused.
pub(crate) const MEMORY: &str = "memory for a test";

/// The trace of the first 64 events.
fn trace_of<R: Abort>(rt: &R, alloc: Global, events: &[Event]) -> String {
    let mut history = History::with_room(alloc, 64).expect(rt, MEMORY);
    for n in 0..64 {
        let Some(event) = events.get(n) else { break };
        history.push_reserved(*event);
    }
    let mut sink = SureSink::make(alloc, 4_096).expect(rt, MEMORY);
    let _ = write_trace(&history, &mut sink);
    String::from_utf8_lossy(alloc, sink.bytes()).expect(rt, MEMORY)
}

/// The events have this trace.
pub(crate) fn has_trace<R: Abort>(rt: &R, alloc: Global, events: &[Event], trace: &str, row: &str) {
    let made = trace_of(rt, alloc, events);
    assert_eq!(rt; made.as_str(), trace, "{row}");
}

/// The events are a legal, whole history of the script.
pub(crate) fn is_legal<R: Abort>(
    rt: &R,
    alloc: Global,
    script: &Script,
    events: &[Event],
    row: &str,
) {
    let mut replay = Replay::make(alloc, script, false).expect(rt, MEMORY);
    let mut legal = true;
    for event in events {
        legal = legal && replay.step(*event);
    }
    let legal = legal && replay.whole();
    assert!(rt; legal, "{row}");
}
