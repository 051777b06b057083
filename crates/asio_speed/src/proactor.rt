use crate::failure::Failure;
use crate::limits::MOST_TIMES;
use crate::proactor_script::text_of;
use crate::proactor_turns::completions_of;
use crate::scripts::script_of;
use crate::stopwatch::{Measured, Stopwatch};
use reactor_trait::SilentReactor;
use session_script::{MOST_ACTS, Script};
use std::alloc::Global;
use std::rt::Clock;
use std::time::CpuClock;

/// Takes all of a script and runs the time out, so many times; answers how many waits completed.
fn complete_all(alloc: Global, script: &Script, times: u32) -> Result<u64, Failure> {
    let mut completed: u64 = 0;
    for _ in 0..times {
        let reactor = SilentReactor::empty(alloc);
        let Some(waits) = completions_of(alloc, script, reactor) else {
            return Err(Failure::Refused);
        };
        completed = completed.saturating_add(waits);
    }
    Ok(completed)
}

/// `proactor ACTS TIMES`: writes a script with so many acts, which sets timers, waits for them and
/// cancels half of the waits, takes all of it and runs the time out so many times. A step is a wait
/// that completes.
pub(crate) fn completed<R: Clock + CpuClock>(
    rt: &R,
    alloc: Global,
    acts: u32,
    times: u32,
) -> Result<Measured, Failure> {
    if acts > MOST_ACTS || times > MOST_TIMES {
        return Err(Failure::Usage);
    }
    let text = text_of(alloc, acts)?;
    let script = script_of(alloc, text.as_str())?;
    let watch = Stopwatch::begin(rt)?;
    let completed = complete_all(alloc, &script, times)?;
    watch.end(rt, completed)
}
