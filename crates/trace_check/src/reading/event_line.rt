ghost use Rattle.std.specs.Prelude.{◌≡◌};
ghost use Rattle.std.specs.Str.{bytes_eq};
ghost use Rattle.trace_check.specs.EventLine.{code_in, mark_in, outcome_in, bare_event, event_with, event_in, stop_event};

use super::number::{number_of_32, number_of_64};
use super::split::split_once;
use asio_types::{Code, Event, OpNo};

/// The event of a line, which comes without the LF at its end.
#[tactic(auto, unfolding(crate::specs::EventLine::event_in))]
pub(crate) fn event_of(line: &[u8]) -> Option<Event>
    ensures { result ≡ event_in line.now }
{
    match split_once(line, b' ') {
        Some((word, fields)) => event_with(word, fields),
        None => bare_event(line),
    }
}

/// The event that one word alone says.
#[tactic(auto, unfolding(crate::specs::EventLine::bare_event))]
fn bare_event(word: &[u8]) -> Option<Event>
    ensures { result ≡ bare_event word.now }
{
    if is(word, b"last") {
        Some(Event::Last)
    } else if is(word, b"fault") {
        Some(Event::Fault)
    } else if is(word, b"ended") {
        Some(Event::Ended)
    } else if is(word, b"stopped") {
        Some(Event::Stopped)
    } else if is(word, b"polled") {
        Some(Event::Polled)
    } else if is(word, b"restart") {
        Some(Event::Restart)
    } else {
        None
    }
}

/// The event that a word and the fields behind it say.
#[tactic(auto, unfolding(crate::specs::EventLine::event_with))]
fn event_with(word: &[u8], fields: &[u8]) -> Option<Event>
    ensures { result ≡ event_with word.now fields.now }
{
    if is(word, b"call") {
        let act = number_of_32(fields)?;
        Some(Event::Call { act })
    } else if is(word, b"back") {
        let act = number_of_32(fields)?;
        Some(Event::Back { act })
    } else if is(word, b"stop") {
        stop_event(fields)
    } else if is(word, b"begin") {
        let (op, code, size) = outcome_of(fields)?;
        Some(Event::Begin { op, code, size })
    } else if is(word, b"end") {
        let (op, mark) = mark_of(fields)?;
        Some(Event::End { op, mark })
    } else if is(word, b"take") {
        let act = number_of_32(fields)?;
        Some(Event::Take { act })
    } else if is(word, b"done") {
        let (op, code, size) = outcome_of(fields)?;
        Some(Event::Done { op, code, size })
    } else if is(word, b"tick") {
        let now = number_of_64(fields)?;
        Some(Event::Tick { now })
    } else if is(word, b"drop") {
        let (op, mark) = mark_of(fields)?;
        Some(Event::Dropped { op, mark })
    } else {
        None
    }
}

/// The stop that a field says: by an act, or by none.
#[tactic(auto, unfolding(crate::specs::EventLine::stop_event))]
fn stop_event(field: &[u8]) -> Option<Event>
    ensures { result ≡ stop_event field.now }
{
    if is(field, b"-") {
        return Some(Event::Stop { act: None });
    }
    let act = number_of_32(field)?;
    Some(Event::Stop { act: Some(act) })
}

/// An operation and its mark.
#[tactic(auto, unfolding(crate::specs::EventLine::mark_in))]
fn mark_of(fields: &[u8]) -> Option<(OpNo, u64)>
    ensures { result ≡ mark_in fields.now }
{
    let (op, mark) = split_once(fields, b' ')?;
    let op = number_of_32(op)?;
    let mark = number_of_64(mark)?;
    Some((op, mark))
}

/// An operation, its code and its size.
#[tactic(auto, unfolding(crate::specs::EventLine::outcome_in))]
fn outcome_of(fields: &[u8]) -> Option<(OpNo, Code, u32)>
    ensures { result ≡ outcome_in fields.now }
{
    let (op, fields) = split_once(fields, b' ')?;
    let (code, size) = split_once(fields, b' ')?;
    let op = number_of_32(op)?;
    let code = code_of(code)?;
    let size = number_of_32(size)?;
    Some((op, code, size))
}

/// The code that a word names.
#[tactic(auto, unfolding(crate::specs::EventLine::code_in))]
fn code_of(word: &[u8]) -> Option<Code>
    ensures { result ≡ code_in word.now }
{
    if is(word, b"ok") {
        Some(Code::Ok)
    } else if is(word, b"aborted") {
        Some(Code::Aborted)
    } else if is(word, b"eof") {
        Some(Code::Eof)
    } else if is(word, b"not_found") {
        Some(Code::NotFound)
    } else if is(word, b"bad") {
        Some(Code::Bad)
    } else if is(word, b"broken") {
        Some(Code::Broken)
    } else if is(word, b"reset") {
        Some(Code::Reset)
    } else {
        None
    }
}

/// Whether a word is this one.
fn is(word: &[u8], wanted: &[u8]) -> bool
    ensures { result ≡ bytes_eq word.now wanted.now }
{
    word == wanted
}
