ghost use Rattle.std.specs.Prelude.{◌≡◌, ◌≤◌, IfOk};

use crate::steps::Step;
use asio_types::NoMemory;
use io_context::{ClockReactor, Context, Lane, Limits, Named, NewContext, Reactor, run_on_threads};
use std::alloc::Global;
use std::marker::Brand;
use std::sync::Wait;
use std::thread::Threads;
use std::time::Clock;

/// What is executed on one context.
#[derive(Clone, Copy)]
pub(crate) struct Load {
    /// Over how many strands; with 0 without a strand.
    pub(crate) strands: u32,
    /// How many handlers are posted beforehand.
    pub(crate) posted: u32,
    /// How many each of them posts, one by another.
    pub(crate) chained: u64,
    /// How long each computes.
    pub(crate) rounds: u32,
    /// On how many threads.
    pub(crate) threads: u8,
}

impl Load {
    /// What the context is to have room for.
    fn limits(self) -> Limits {
        Limits {
            operations: self.posted,
            strands: self.strands,
            timers: 0,
            slots: 0,
            streams: 0,
            grant: 0,
            staged: 1,
            held: 0,
        }
    }

    /// How many handlers are executed.
    pub(crate) fn handlers(self) -> u64 {
        u64::from(self.posted).saturating_mul(self.chained.saturating_add(1))
    }
}

/// The lanes of new strands; fewer where the context has no room.
fn make_lanes<R: Wait, C: Named, W: Reactor>(
    rt: &R,
    alloc: Global,
    context: &Context<Step, C, W>,
    strands: u32,
) -> Result<Vec<Lane>, NoMemory> {
    let mut lanes = Vec::new(alloc);
    for _ in 0..strands {
        if let Ok((name, _)) = context.make_strand(rt, 0) {
            lanes.push(Lane::Strand(name))?;
        }
    }
    if lanes.is_empty() {
        lanes.push(Lane::Own)?;
    }
    Ok(lanes)
}

/// Posts handlers to these lanes by turns.
fn post_all<R: Wait, C: Named, W: Reactor>(
    rt: &R,
    context: &Context<Step, C, W>,
    lanes: &[Lane],
    load: Load,
) {
    for n in 0..load.posted {
        let Some(lane) = lanes.get(n as usize % lanes.len().max(1)) else {
            return;
        };
        let lane = *lane;
        let (left, rounds) = (load.chained, load.rounds);
        let _posted = context.post(rt, lane, Step { left, rounds, lane });
    }
}

/// A load on a context of this name.
fn execute<R: Threads + Wait + Clock + Sync + Copy, C: Named + Send + Sync>(
    rt: &R,
    alloc: Global,
    new: NewContext,
    load: Load,
) -> Result<(), NoMemory>
    requires table { new.table ≡ C.table }
    requires limits { new.limits ≡ C.limits }
    requires name { new.name ≡ C.name }
    requires parts { new.parts ≡ C.parts }
{
    let (reactor, poll) = ClockReactor::make(*rt);
    let (context, mut share) = Context::<Step, C, ClockReactor<R>>::make(
        alloc, new, reactor, poll,
    )?;
    let lanes = make_lanes(rt, alloc, &context, load.strands);
    if let Ok(lanes) = &lanes {
        post_all(rt, &context, lanes.as_slice(), load);
    }
    let ran = run_on_threads(rt, alloc, &context, usize::from(load.threads), &mut share);
    let _history = context.finish(rt, share);
    lanes?;
    ran
}

/// A load on a new context, from making it to destroying it.
pub(crate) fn execute_new<R: Threads + Wait + Clock + Sync + Copy>(
    rt: &R,
    alloc: Global,
    load: Load,
) -> Result<(), NoMemory> {
    let new = NewContext::with_limits(alloc, load.limits())?;
    execute::<R, Brand>(rt, alloc, new, load)
}
