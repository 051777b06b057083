use crate::failure::Failure;
use crate::limits::MOST_TIMES;
use crate::replay_driver::history_of;
use crate::replay_script::{lines_for, text_of};
use crate::scripts::script_of;
use crate::stopwatch::{Measured, Stopwatch};
use asio_types::{Event, NoMemory};
use history_book::Replay;
use session_script::{MOST_ACTS, Script};
use std::alloc::Global;
use std::rt::Clock;
use std::time::CpuClock;

/// Replays a history; whether it is legal and whole.
fn replay(alloc: Global, script: &Script, events: &[Event]) -> Result<bool, NoMemory> {
    let mut replay = Replay::make(alloc, script, true)?;
    for event in events {
        if !replay.step(*event) {
            return Ok(false);
        }
    }
    Ok(replay.whole())
}

/// Replays a history so many times; answers how many events were replayed.
fn replay_all(
    alloc: Global,
    script: &Script,
    events: &[Event],
    times: u32,
) -> Result<u64, Failure> {
    let mut replayed: u64 = 0;
    for _ in 0..times {
        if !replay(alloc, script, events)? {
            return Err(Failure::Refused);
        }
        replayed = replayed.saturating_add(events.len() as u64);
    }
    Ok(replayed)
}

/// `replay ACTS TIMES`: writes a script with so many acts, on strands, timers, slots and streams,
/// makes one legal history of it, and replays that so many times. A step is an event.
pub(crate) fn replayed<R: Clock + CpuClock>(
    rt: &R,
    alloc: Global,
    acts: u32,
    times: u32,
) -> Result<Measured, Failure> {
    if acts > MOST_ACTS || times > MOST_TIMES {
        return Err(Failure::Usage);
    }
    let text = text_of(alloc, acts)?;
    let script = script_of(alloc, text.as_str())?;
    let events = history_of(alloc, &script, lines_for(acts))?;
    let watch = Stopwatch::begin(rt)?;
    let replayed = replay_all(alloc, &script, events.as_slice(), times)?;
    watch.end(rt, replayed)
}
