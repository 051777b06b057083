//! Worked sessions: each trace is legal and whole, told and untold, and no other order of two
//! neighbouring lines is legal but where the session allows it.

use crate::worked_rows::{CONTEXT, READS, SLOTS, STREAMS, Session, TIMERS};
use asio_types::{Code, Event, NoMemory};
use history_book::Replay;
use session_script::{Script, read_script};
use std::alloc::Global;

fn code_of(word: &str) -> Code {
    match word {
        "ok" => Code::Ok,
        "aborted" => Code::Aborted,
        "eof" => Code::Eof,
        "not_found" => Code::NotFound,
        "bad" => Code::Bad,
        "broken" => Code::Broken,
        _ => Code::Reset,
    }
}

fn number(word: Option<&str>) -> u32 {
    match word {
        Some(word) => word.parse().unwrap_or(u32::MAX),
        None => u32::MAX,
    }
}

/// The event of a line; numbers that can't be read are the greatest.
fn event_of(line: &str) -> Event {
    let mut words = line.split(' ');
    let kind = words.next().unwrap_or("");
    let first = words.next();
    let second = words.next();
    let third = words.next();
    let (act, op) = (number(first), number(first));
    match kind {
        "call" => Event::Call { act },
        "back" => Event::Back { act },
        "stop" => Event::Stop { act: Some(act) },
        "begin" => Event::Begin {
            op,
            code: code_of(second.unwrap_or("")),
            size: number(third),
        },
        "end" => Event::End {
            op,
            mark: number(second) as u64,
        },
        "take" => Event::Take { act },
        "done" => Event::Done {
            op,
            code: code_of(second.unwrap_or("")),
            size: number(third),
        },
        "tick" => Event::Tick {
            now: number(first) as u64,
        },
        "last" => Event::Last,
        "fault" => Event::Fault,
        "ended" => Event::Ended,
        "stopped" => Event::Stopped,
        "polled" => Event::Polled,
        "restart" => Event::Restart,
        _ => Event::Dropped {
            op,
            mark: number(second) as u64,
        },
    }
}

fn events_of(alloc: Global, trace: &str) -> Result<Vec<Event>, NoMemory> {
    let mut events = Vec::new(alloc);
    for line in trace.split(" / ") {
        events.push(event_of(line))?;
    }
    Ok(events)
}

/// Whether the events are a legal, whole history of the script.
fn is_legal(
    alloc: Global,
    script: &Script,
    told: bool,
    events: &[Event],
) -> Result<bool, NoMemory> {
    let mut replay = Replay::make(alloc, script, told)?;
    for event in events {
        if !replay.step(*event) {
            return Ok(false);
        }
    }
    Ok(replay.whole())
}

/// Whether the session is legal, and its neighbouring lines may be exchanged exactly where it says
/// so.
fn is_as_said(alloc: Global, session: &Session, told: bool) -> Result<bool, NoMemory> {
    let Ok(script) = read_script(alloc, session.script.as_bytes()) else {
        return Ok(false);
    };
    let mut events = events_of(alloc, session.trace)?;
    if !is_legal(alloc, &script, told, events.as_slice())? {
        return Ok(false);
    }
    for place in 1..events.len() {
        events.swap(place - 1, place);
        let legal = is_legal(alloc, &script, told, events.as_slice())?;
        events.swap(place - 1, place);
        if legal != session.exchanges.contains(&place) {
            return Ok(false);
        }
    }
    Ok(true)
}

/// What the first session shows that isn't as it says, told or untold.
fn first_wrong(alloc: Global, sessions: &[Session]) -> Result<Option<&'static str>, NoMemory> {
    for session in sessions {
        if !is_as_said(alloc, session, true)? || !is_as_said(alloc, session, false)? {
            return Ok(Some(session.shows));
        }
    }
    Ok(None)
}

#[test]
fn worked_sessions_are_legal_in_their_orders_alone(rt: HostRuntime) -> Result<(), NoMemory> {
    for sessions in [
        CONTEXT.as_slice(),
        TIMERS.as_slice(),
        SLOTS.as_slice(),
        READS.as_slice(),
        STREAMS.as_slice(),
    ] {
        assert_eq!(rt; first_wrong(rt.alloc(), sessions)?, None);
    }
    Ok(())
}
