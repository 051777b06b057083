ghost use Rattle.std.specs.Prelude.{◌≡◌, ◌≤◌, ℕ, List, ◌∷◌, ◌++◌, [], IfOk, IfSome, IsTrue, codes, length, take};
ghost use Rattle.history_book.specs.Trace.{trace_of};
ghost use Rattle.order_report.specs.Reading.{IsConditionText, IsOverlapText, IsSignText};

use asio_types::{Event, NoMemory, OpNo};
use order_questions::{Condition, Sign};
use std::alloc::Global;
use trace_check::{TraceFault, read_trace};

/// Whether the text begins with this word.
fn begins_with(text: &[u8], word: &[u8]) -> bool
    ensures begins { IsTrue result → take (length word.now) text.now ≡ word.now }
    ensures fits { IsTrue result → length word.now ≤ length text.now }
{
    text.starts_with(word)
}

/// What stands behind this word, if the text begins with it.
fn behind<'a>(text: &'a [u8], word: &[u8]) -> Option<&'a [u8]>
    ensures { IfSome result (λ rest. text.now ≡ word.now ++ rest.now) }
{
    if begins_with(text, word) {
        Some(&text[word.len()..])
    } else {
        None
    }
}

/// The event, if there is just one.
fn only(events: &[Event]) -> Option<Event>
    ensures { IfSome result (λ event. events.now ≡ event ∷ []) }
{
    match events {
        [event] => Some(*event),
        _ => None,
    }
}

/// The event whose line these three pieces are.
pub(crate) fn event_in(
    alloc: Global,
    front: &[u8],
    text: &[u8],
    tail: &[u8],
) -> Result<Option<Event>, NoMemory>
    ensures { IfOk result (λ found. IfSome found
        (λ event. front.now ++ text.now ++ tail.now ≡ trace_of (event ∷ []))) }
{
    let mut line = Vec::from_slice(alloc, front)?;
    line.extend_from_slice(text)?;
    line.extend_from_slice(tail)?;
    match read_trace(alloc, line.as_slice()) {
        Ok(history) => Ok(only(history.events())),
        Err(TraceFault::Text { .. }) => Ok(None),
        Err(TraceFault::NoMemory) => Err(NoMemory),
    }
}

/// A line but for its code and size.
fn plain_sign(alloc: Global, text: &[u8]) -> Result<Option<Sign>, NoMemory>
    ensures { IfOk result (λ found. IfSome found (IsSignText text.now)) }
{
    match event_in(alloc, b"", text, b" ok 0\n")? {
        Some(event) => Ok(Some(Sign::Plain(event))),
        None => Ok(None),
    }
}

/// A line but for its last number, or for its code too.
fn short_sign(alloc: Global, text: &[u8]) -> Result<Option<Sign>, NoMemory>
    ensures { IfOk result (λ found. IfSome found (IsSignText text.now)) }
{
    match event_in(alloc, b"", text, b" 0\n")? {
        Some(
            event @ (Event::Begin { .. }
            | Event::Done { .. }
            | Event::End { .. }
            | Event::Dropped { .. }),
        ) => Ok(Some(Sign::Coded(event))),
        _ => plain_sign(alloc, text),
    }
}

/// The sign that a text is: a line of a trace, or one but for what stands at its end.
fn sign_of(alloc: Global, text: &[u8]) -> Result<Option<Sign>, NoMemory>
    ensures { IfOk result (λ found. IfSome found (IsSignText text.now)) }
{
    match event_in(alloc, b"", text, b"\n")? {
        Some(event) => Ok(Some(Sign::Whole(event))),
        None => short_sign(alloc, text),
    }
}

/// The two operations that a text names, as the line of an end would.
fn two_of(alloc: Global, text: &[u8]) -> Result<Option<(OpNo, OpNo)>, NoMemory>
    ensures { IfOk result (λ found. IfSome found (λ both. IsOverlapText text.now both.0 both.1)) }
{
    match event_in(alloc, b"end ", text, b"\n")? {
        Some(Event::End { op, mark }) if mark <= u32::MAX as u64 => Ok(Some((op, mark as u32))),
        _ => Ok(None),
    }
}

/// That two handlers overlap, as the words behind `overlap` say.
fn overlap_of(alloc: Global, text: &[u8]) -> Result<Option<Condition>, NoMemory>
    ensures { IfOk result (λ found. IfSome found (λ condition. (words : List ℕ) →
        words ≡ codes "overlap " ++ text.now → IsConditionText words condition)) }
{
    match two_of(alloc, text)? {
        Some((one, other)) => Ok(Some(Condition::Overlap(one, other))),
        None => Ok(None),
    }
}

/// What stands round the first ` before `.
fn parts_of(text: &[u8]) -> Option<(&[u8], &[u8])>
    ensures { IfSome result (λ parts. text.now ≡ parts.0.now ++ (codes " before " ++ parts.1.now)) }
{
    for at in 0..text.len() {
        if let Some(rest) = behind(&text[at..], b" before ") {
            return Some((&text[..at], rest));
        }
    }
    None
}

/// That one sign comes before another.
fn before_of(alloc: Global, first: &[u8], second: &[u8]) -> Result<Option<Condition>, NoMemory>
    ensures { IfOk result (λ found. IfSome found (λ condition. (words : List ℕ) →
        words ≡ first.now ++ (codes " before " ++ second.now) → IsConditionText words condition)) }
{
    let Some(first) = sign_of(alloc, first)? else {
        return Ok(None);
    };
    let Some(second) = sign_of(alloc, second)? else {
        return Ok(None);
    };
    Ok(Some(Condition::Before(first, second)))
}

/// The condition that a text is: `overlap A B`, one sign `before` another, or a sign alone.
pub(crate) fn condition_of(alloc: Global, text: &[u8]) -> Result<Option<Condition>, NoMemory>
    ensures { IfOk result (λ found. IfSome found (IsConditionText text.now)) }
{
    if let Some(rest) = behind(text, b"overlap ") {
        return overlap_of(alloc, rest);
    }
    if let Some((first, second)) = parts_of(text) {
        return before_of(alloc, first, second);
    }
    match sign_of(alloc, text)? {
        Some(sign) => Ok(Some(Condition::Happens(sign))),
        None => Ok(None),
    }
}
