ghost use Rattle.std.specs.Prelude.{◌≡◌, length};
ghost use Rattle.op_handlers.specs.Rack.{IsWholeRack, handlers_in};
ghost use Rattle.session_script.specs.Limits.{most_acts};

use crate::failure::Failure;
use crate::limits::{MOST_TIMES, MOST_WORKERS};
use crate::session_handlers::rack_of;
use crate::session_shapes::{Shape, text_of};
use crate::stopwatch::{Measured, Stopwatch};
use asio_types::{NoMemory, Sink, Source, SureSink, SureSource};
use op_handlers::{CompletionHandler, Rack};
use reactor_trait::{Reactor, SilentReactor};
use session_run::{ContextKind, Status, asio_session, book_session};
use session_script::MOST_ACTS;
use std::alloc::Global;
use std::rt::Clock;
use std::sync::Wait;
use std::thread::Threads;
use std::time::CpuClock;

/// More bytes than the trace has.
const ROOM: u32 = 1_048_576;

/// More bytes than a note has.
const NOTE_ROOM: u32 = 256;

/// A session on this kind of context. What is promised of it stays here, since a caller that knew it
/// would be dear to prove.
fn call_session<
    R: Threads + Wait + Sync,
    S: Source,
    K: Sink,
    N: Sink,
    X: Reactor + Send,
    H: CompletionHandler + Send,
>(
    rt: &R,
    alloc: Global,
    kind: ContextKind,
    words: &[String],
    source: &mut S,
    out: &mut K,
    notes: &mut N,
    reactor: X,
    rack: &mut Rack<H>,
) -> Status
    requires whole { IsWholeRack rack.old }
    requires count { length (handlers_in rack.old) ≡ most_acts }
{
    let (status, _) = match kind {
        ContextKind::Hinted | ContextKind::WithoutLock => {
            asio_session(rt, alloc, words, source, out, notes, reactor, rack)
        }
        ContextKind::OneLock => {
            book_session(rt, alloc, words, source, out, notes, reactor, rack)
        }
    };
    status
}

/// Ends a time that was begun, if the clock told its begin.
fn ended<R: Clock + CpuClock>(
    rt: &R,
    watch: Result<Stopwatch, Failure>,
) -> Result<Measured, Failure> {
    watch?.end(rt, 1)
}

/// One session from its text in memory to its trace in memory.
fn session<R: Clock + CpuClock + Threads + Wait + Sync>(
    rt: &R,
    alloc: Global,
    kind: ContextKind,
    words: &[String],
    text: &str,
) -> Result<Measured, Failure> {
    let mut source = SureSource::make(alloc, text.as_bytes())?;
    let mut out = SureSink::make(alloc, ROOM)?;
    let mut notes = SureSink::make(alloc, NOTE_ROOM)?;
    let mut rack = rack_of(alloc)?;
    let reactor = SilentReactor::empty(alloc);
    let watch = Stopwatch::begin(rt);
    let status = call_session(
        rt,
        alloc,
        kind,
        words,
        &mut source,
        &mut out,
        &mut notes,
        reactor,
        &mut rack,
    );
    let took = ended(rt, watch);
    rack.discard_all();
    if status != Status::Done || out.lost() > 0 {
        return Err(Failure::Refused);
    }
    took
}

/// The words of the command.
fn words_of(alloc: Global) -> Result<Vec<String>, NoMemory> {
    let run = String::from_str(alloc, "run")?;
    Ok(Vec::from_array(alloc, [run])?)
}

/// `sessions WORKERS TIMES`, `locked_sessions WORKERS TIMES`: so many sessions of 4,096 postings over 64
/// strands, with so many workers each, from the text to the trace. A step is a session.
pub(crate) fn sessions<R: Clock + CpuClock + Threads + Wait + Sync>(
    rt: &R,
    alloc: Global,
    kind: ContextKind,
    workers: u32,
    times: u32,
) -> Result<Measured, Failure> {
    if workers == 0 || workers > MOST_WORKERS || times > MOST_TIMES {
        return Err(Failure::Usage);
    }
    let text = text_of(alloc, Shape::ManyStrands, MOST_ACTS, workers)?;
    let words = words_of(alloc)?;
    let mut done = Measured::none();
    for _ in 0..times {
        done.add(session(rt, alloc, kind, words.as_slice(), text.as_str())?);
    }
    Ok(done)
}
