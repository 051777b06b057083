//! A plain enumeration of the histories of small scripts: each event that one may have is tried behind
//! each beginning.

use asio_types::{Code, Event};
use history_book::Replay;
use session_script::Script;
use std::alloc::Global;
use std::test::Fail;

const CODES: [Code; 7] = [
    Code::Ok,
    Code::Aborted,
    Code::Eof,
    Code::NotFound,
    Code::Bad,
    Code::Broken,
    Code::Reset,
];

/// The events of an act of a small script.
fn events_of(act: u32, events: &mut Vec<Event>) -> Result<(), Fail> {
    let mark = 1000 + act as u64;
    events.push(Event::Call { act })?;
    events.push(Event::Back { act })?;
    events.push(Event::Stop { act: Some(act) })?;
    events.push(Event::Take { act })?;
    events.push(Event::End { op: act, mark })?;
    events.push(Event::Dropped { op: act, mark })?;
    for code in CODES {
        for size in 0..4 {
            events.push(Event::Begin {
                op: act,
                code,
                size,
            })?;
            events.push(Event::Done {
                op: act,
                code,
                size,
            })?;
        }
    }
    Ok(())
}

/// The events that a small script may have.
fn events(alloc: Global, script: &Script) -> Result<Vec<Event>, Fail> {
    let mut events = Vec::new(alloc);
    for event in [
        Event::Last,
        Event::Ended,
        Event::Stopped,
        Event::Polled,
        Event::Restart,
    ] {
        events.push(event)?;
    }
    for now in 0..16 {
        events.push(Event::Tick { now })?;
    }
    for act in 0..script.acts() {
        events_of(act, &mut events)?;
    }
    Ok(events)
}

/// A replay that has taken these events.
fn replay_of<'a>(
    alloc: Global,
    script: &'a Script,
    told: bool,
    path: &[Event],
) -> Result<Replay<'a>, Fail> {
    let mut replay = Replay::make(alloc, script, told)?;
    for event in path {
        let _ = replay.step(*event);
    }
    Ok(replay)
}

/// The beginnings that are longer by one event than this one.
fn extend(
    alloc: Global,
    script: &Script,
    told: bool,
    path: &[Event],
    events: &[Event],
    longer: &mut Vec<Vec<Event>>,
) -> Result<(), Fail> {
    let mut replay = replay_of(alloc, script, told, path)?;
    for event in events {
        if replay.step(*event) {
            let mut next = Vec::from_slice(alloc, path)?;
            next.push(*event)?;
            longer.push(next)?;
            replay = replay_of(alloc, script, told, path)?;
        }
    }
    Ok(())
}

/// How many of these beginnings are whole.
fn whole_of(alloc: Global, script: &Script, told: bool, paths: &[Vec<Event>]) -> Result<u64, Fail> {
    let mut count: u64 = 0;
    for path in paths {
        if replay_of(alloc, script, told, path.as_slice())?.whole() {
            count = count.saturating_add(1);
        }
    }
    Ok(count)
}

/// How many histories a script has whose histories have at most 60 events.
pub(crate) fn plain_count(alloc: Global, script: &Script, told: bool) -> Result<u64, Fail> {
    let events = events(alloc, script)?;
    let mut paths = Vec::new(alloc);
    paths.push(Vec::new(alloc))?;
    let mut count: u64 = 0;
    for _ in 0..60 {
        count = count.saturating_add(whole_of(alloc, script, told, paths.as_slice())?);
        let mut longer = Vec::new(alloc);
        for path in &paths {
            extend(
                alloc,
                script,
                told,
                path.as_slice(),
                events.as_slice(),
                &mut longer,
            )?;
        }
        paths = longer;
    }
    if !paths.is_empty() {
        return Err("longer histories".into());
    }
    Ok(count)
}
