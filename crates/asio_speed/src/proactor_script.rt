use asio_types::NoMemory;
use std::alloc::Global;

/// How many timers there are at most.
const MOST_TIMERS: u32 = 128;

/// How many acts a timer has: one sets it, one cancels, and the others wait.
const ACTS_OF_TIMER: u32 = 32;

/// The act with this number: first all timers are set, then all waits begin, timer by timer in
/// turn, and last half of the timers are cancelled, and one wait of each other timer.
fn push_act(text: &mut String, act: u32, acts: u32, timers: u32) -> Result<(), NoMemory> {
    let timer = act % timers.max(1);
    if act < timers {
        let after = act + 1;
        write!(text, " expires {timer} {after}")?;
    } else if act < acts.saturating_sub(timers) {
        write!(text, " wait {timer} - - {{ }}")?;
    } else if timer % 2 == 0 {
        write!(text, " cancel {timer}")?;
    } else {
        write!(text, " cancelone {timer}")?;
    }
    Ok(())
}

/// The text of a script with so many acts, all in `open`, and one round.
pub(crate) fn text_of(alloc: Global, acts: u32) -> Result<String, NoMemory> {
    let timers = (acts / ACTS_OF_TIMER).clamp(1, MOST_TIMERS);
    let mut text = format!(in alloc; "session 2 timers {timers} open {{")?;
    for act in 0..acts {
        push_act(&mut text, act, acts, timers)?;
    }
    text.push_str(" } run 1")?;
    Ok(text)
}
