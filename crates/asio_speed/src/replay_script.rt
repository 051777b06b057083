use asio_types::NoMemory;
use std::alloc::Global;

/// How many acts are written together, with one slot.
const GROUP: u32 = 16;

/// How many lines the world has at most.
const MOST_LINES: u32 = 1_024;

/// How many timers there are at most.
const MOST_TIMERS: u32 = 128;

const STREAMS: u32 = 64;

const STRANDS: u32 = 64;

const SLOTS: u32 = 128;

/// How many lines of the world a script with so many acts gets, one at each time from 1 on.
pub(crate) fn lines_for(acts: u32) -> u32 {
    (acts / 4).min(MOST_LINES)
}

/// Bytes arrive or room is given, by turns, and stream by stream.
fn push_line(text: &mut String, time: u32) -> Result<(), NoMemory> {
    let stream = time / 2 % STREAMS;
    if time % 2 == 0 {
        write!(text, " at {time} feed {stream} x61")?;
    } else {
        write!(text, " at {time} room {stream} 1")?;
    }
    Ok(())
}

/// The act with this number; of a group most are waits, reads and writes.
fn push_act(text: &mut String, act: u32, timers: u32) -> Result<(), NoMemory> {
    let strand = act % STRANDS;
    let group = act / GROUP;
    let stream = group % STREAMS;
    let slot = group % SLOTS;
    let timer = group % timers.max(1);
    match act % GROUP {
        _ if act < timers => {
            let after = act + 1;
            write!(text, " expires {act} {after}")?;
        }
        0 => write!(text, " post {strand} {{ }}")?,
        15 => write!(text, " emit {slot} 1")?,
        1 | 4 | 7 | 10 | 13 => write!(text, " wait {timer} {strand} {slot} {{ }}")?,
        2 | 5 | 8 | 11 | 14 => write!(text, " read {stream} 1 {strand} - {{ }}")?,
        _ => write!(text, " write {stream} x61 {strand} - {{ }}")?,
    }
    Ok(())
}

/// The text of a script with so many acts, all in `open`, and one round.
pub(crate) fn text_of(alloc: Global, acts: u32) -> Result<String, NoMemory> {
    let timers = (acts / 8).min(MOST_TIMERS);
    let mut text = format!(in alloc;
        "session 2 strands {STRANDS} timers {timers} slots {SLOTS} streams {STREAMS}"
    )?;
    for line in 0..lines_for(acts) {
        push_line(&mut text, line + 1)?;
    }
    text.push_str(" open {")?;
    for act in 0..acts {
        push_act(&mut text, act, timers)?;
    }
    text.push_str(" } run 1")?;
    Ok(text)
}
