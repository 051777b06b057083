//! What is wanted of answers and of histories, each in a function of its own: an assertion costs its
//! proof with all that its function holds.

use crate::asking::Answer;
use asio_types::{Event, SetupFault, SureSink};
use history_book::{History, Replay, write_trace};
use lane_context::RoundEnd;
use session_script::Script;
use std::alloc::Global;
use std::process::Abort;

/// Said where memory is refused.
pub(crate) const MEMORY: &str = "memory for a test";

/// A call of a worker answers so.
pub(crate) fn is_answer<R: Abort>(rt: &R, answer: Answer, want: Answer, row: &str) {
    assert_eq!(rt; answer, want, "{row}");
}

/// A round ends so.
pub(crate) fn is_end<R: Abort>(rt: &R, end: RoundEnd, want: RoundEnd, row: &str) {
    assert_eq!(rt; end, want, "{row}");
}

/// The reactor of a script couldn't be set up.
pub(crate) fn is_refused<R: Abort>(rt: &R, left: Result<History, SetupFault>, row: &str) {
    let refused = matches!(left, Err(SetupFault::Failed));
    assert!(rt; refused, "{row}");
}

/// So many handlers saw the other at a gate, and so many gave up.
pub(crate) fn have_passed<R: Abort>(rt: &R, passed: (u32, u32), want: (u32, u32), row: &str) {
    assert_eq!(rt; passed, want, "{row}");
}

/// A number is the one that is wanted.
pub(crate) fn is_number<R: Abort>(rt: &R, number: usize, want: usize, row: &str) {
    assert_eq!(rt; number, want, "{row}");
}

/// The lines of a history's trace, each with ` / ` behind it.
fn lines_of<R: Abort>(rt: &R, alloc: Global, history: &History) -> String {
    let mut sink = SureSink::make(alloc, 4_096).expect(rt, MEMORY);
    let _ = write_trace(history, &mut sink);
    let trace = String::from_utf8_lossy(alloc, sink.bytes()).expect(rt, MEMORY);
    trace.replace(alloc, "\n", " / ").expect(rt, MEMORY)
}

/// The trace of a history is these lines.
pub(crate) fn has_trace<R: Abort>(rt: &R, alloc: Global, history: &History, want: &str, row: &str) {
    let lines = lines_of(rt, alloc, history);
    assert_eq!(rt; lines.as_str(), want, "{row}");
}

/// The trace of a history begins with these lines.
pub(crate) fn begins<R: Abort>(rt: &R, alloc: Global, history: &History, want: &str, row: &str) {
    let lines = lines_of(rt, alloc, history);
    let begins = lines.starts_with(want);
    assert!(rt; begins, "{row}: {lines}");
}

/// The events are a legal, whole history of the script, over a reactor that tells its bytes.
pub(crate) fn is_legal<R: Abort>(
    rt: &R,
    alloc: Global,
    script: &Script,
    events: &[Event],
    row: &str,
) {
    let mut replay = Replay::make(alloc, script, true).expect(rt, MEMORY);
    let mut legal = true;
    for event in events {
        legal = legal && replay.step(*event);
    }
    let legal = legal && replay.whole();
    assert!(rt; legal, "{row}");
}
