ghost use Rattle.std.specs.Prelude.{◌≡◌, length};
ghost use Rattle.op_handlers.specs.Rack.{IsWholeRack, handlers_in};
ghost use Rattle.session_script.specs.Limits.{most_acts};

use crate::failure::Failure;
use crate::limits::MOST_WORKERS;
use crate::scripts::script_of;
use crate::session_handlers::{computing_rack, rack_of};
use crate::session_shapes::{Shape, text_of};
use crate::stopwatch::{Measured, Stopwatch};
use op_handlers::{CompletionHandler, Rack};
use reactor_trait::SilentReactor;
use session_run::{ContextKind, run_script};
use session_script::{MOST_ACTS, Script};
use std::alloc::Global;
use std::rt::Clock;
use std::sync::Wait;
use std::sync::atomic::AtomicU64;
use std::thread::Threads;
use std::time::CpuClock;

/// How many sessions a measure runs.
const SESSIONS: u32 = 20;

/// One session from its script to its history, which is of so many handlers. What is promised of it
/// stays here, since a caller that knew it would be dear to prove.
fn session<R: Clock + CpuClock + Threads + Wait + Sync, H: CompletionHandler + Send>(
    rt: &R,
    alloc: Global,
    kind: ContextKind,
    script: &Script,
    handlers: u32,
    rack: &mut Rack<H>,
) -> Result<Measured, Failure>
    requires whole { IsWholeRack rack.old }
    requires count { length (handlers_in rack.old) ≡ most_acts }
{
    let reactor = SilentReactor::empty(alloc);
    let watch = Stopwatch::begin(rt);
    let Ok((_history, _reactor)) = run_script(rt, alloc, kind, script, reactor, rack) else {
        return Err(Failure::Refused);
    };
    watch?.end(rt, u64::from(handlers))
}

/// The same, with handlers that do what those of this shape do.
fn session_of<R: Clock + CpuClock + Threads + Wait + Sync>(
    rt: &R,
    alloc: Global,
    kind: ContextKind,
    shape: Shape,
    script: &Script,
    handlers: u32,
) -> Result<Measured, Failure> {
    if let Shape::Computing { steps } = shape {
        let zeros = AtomicU64::new(0);
        let mut rack = computing_rack(alloc, steps, &zeros)?;
        let took = session(rt, alloc, kind, script, handlers, &mut rack);
        rack.discard_all();
        return took;
    }
    let mut rack = rack_of(alloc)?;
    let took = session(rt, alloc, kind, script, handlers, &mut rack);
    rack.discard_all();
    took
}

/// The kind of context and the shape that a word names: before the shape stands `locked_` for the one
/// with a lock, `lanes_` for the one without, and nothing for what a session chooses by its workers.
fn named(word: &str) -> Option<(ContextKind, Shape)> {
    if let Some(shape) = word.strip_prefix("locked_") {
        return Some((ContextKind::OneLock, Shape::named(shape)?));
    }
    if let Some(shape) = word.strip_prefix("lanes_") {
        return Some((ContextKind::WithoutLock, Shape::named(shape)?));
    }
    Some((ContextKind::Hinted, Shape::named(word)?))
}

/// `SHAPE ACTS WORKERS`, `locked_SHAPE ..`, `lanes_SHAPE ..`: sessions of so many acts of this shape,
/// with so many workers each, from the script in memory to the history. A step is a handler.
pub(crate) fn histories<R: Clock + CpuClock + Threads + Wait + Sync>(
    rt: &R,
    alloc: Global,
    word: &str,
    acts: u32,
    workers: u32,
) -> Result<Measured, Failure> {
    let Some((kind, shape)) = named(word) else {
        return Err(Failure::Usage);
    };
    if acts > MOST_ACTS || workers == 0 || workers > MOST_WORKERS {
        return Err(Failure::Usage);
    }
    let text = text_of(alloc, shape, acts, workers)?;
    let script = script_of(alloc, text.as_str())?;
    let handlers = shape.handlers(acts);
    let mut done = Measured::none();
    for _ in 0..SESSIONS {
        done.add(session_of(rt, alloc, kind, shape, &script, handlers)?);
    }
    Ok(done)
}
