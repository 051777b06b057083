//! A program of one's own over the library, to be copied: `prime_count WORKERS` counts the primes
//! below a million by 64 handlers on 4 strands, in so many threads. It prints what they found, and
//! what the history says. docs/LIBRARY.md leads through it; nothing stands on it.
#![tactic(auto)]

ghost use Rattle.std.specs.Prelude.{◌≡◌, length};
ghost use Rattle.op_handlers.specs.Rack.{IsWholeRack, handlers_in};
ghost use Rattle.session_script.specs.Limits.{most_acts};

mod counter;

use asio_types::{Code, Event, NoMemory, SureSink, SureSource, TextSink};
use counter::{Counter, RANGE, RANGES, rack_of};
use op_handlers::Rack;
use reactor_trait::SilentReactor;
use session_run::{Status, asio_session};
use std::alloc::Global;
use std::process::ExitCode;
use std::rt::Env;
use std::sync::Wait;
use std::sync::atomic::{AtomicU64, Ordering};
use std::thread::Threads;
use text_io::words_of;
use trace_check::read_trace;

const STRANDS: u32 = 4;

/// More bytes than the trace has; a longer one would be a write fault.
const ROOM: u32 = 65_536;

/// The script. Acts are numbered in the order of their words: the postings are 0 to 63. The wait
/// watches over them. Time moves only when nothing is left to do, so it is always cancelled.
fn script_of(alloc: Global, workers: &str) -> Result<String, NoMemory> {
    let mut text = format!(in alloc; "session 1 strands {STRANDS} timers 1 open {{")?;
    for number in 1..RANGES {
        let strand = number % STRANDS;
        write!(text, " post {strand} {{ }}")?;
    }
    text.push_str(" post 0 { cancel 0 } expires 0 1000 wait 0 - - { }")?;
    write!(text, " }} run {workers}")?;
    Ok(text)
}

/// A session in memory: from a source with its script to a sink with its trace.
fn session<R: Threads + Wait + Sync>(
    rt: &R,
    alloc: Global,
    script: &str,
    rack: &mut Rack<Counter<'_>>,
) -> Result<(Status, TextSink), NoMemory>
    requires whole { IsWholeRack rack.old }
    requires count { length (handlers_in rack.old) ≡ most_acts }
{
    let words = [String::from_str(alloc, "run")?];
    let mut source = SureSource::make(alloc, script.as_bytes())?;
    let mut out = TextSink::make(alloc, ROOM, &[])?;
    let mut notes = SureSink::make(alloc, ROOM)?;
    // The script has no streams, so the least reactor serves it.
    let reactor = SilentReactor::empty(alloc);
    let (status, _) = asio_session(
        rt,
        alloc,
        &words,
        &mut source,
        &mut out,
        &mut notes,
        reactor,
        rack,
    );
    Ok((status, out))
}

fn count<F: Fn(Event) -> bool>(events: &[Event], is_such: F) -> usize
    requires { F.IsAlwaysCallable is_such }
{
    events.iter().filter(|event| is_such(**event)).count()
}

/// Prints what the handlers found, and of the history how many acts, handlers and cancellations.
fn print_found<R: Print>(rt: &R, primes: u64, events: &[Event]) -> Status {
    let acts = count(events, |event| matches!(event, Event::Call { .. }));
    let executed = count(events, |event| matches!(event, Event::End { .. }));
    let below = RANGES * RANGE;
    let is_aborted = |event| matches!(event, Event::Done { code, .. } if code == Code::Aborted);
    let aborted = count(events, is_aborted);
    match println!(rt;
        "{primes} primes below {below}\nacts {acts}\nexecuted {executed}\naborted {aborted}"
    ) {
        Ok(()) => Status::Done,
        Err(_) => Status::WriteFault,
    }
}

/// Counts the primes, and ends with the statuses of a session, and so with those of `asio_run`.
fn counted<R: Env + AllocGlobal + Print + Threads + Wait + Sync>(
    rt: &R,
) -> Result<Status, NoMemory> {
    let alloc = rt.alloc();
    let words = words_of(rt).unwrap_or(Vec::new(alloc));
    let [workers] = words.as_slice() else {
        return Ok(Status::Usage);
    };
    let script = script_of(alloc, workers.as_str())?;
    let sum = AtomicU64::new(0);
    let mut rack = rack_of(alloc, &sum)?;
    let ran = session(rt, alloc, script.as_str(), &mut rack);
    rack.discard_all();
    let (status, out) = ran?;
    if status != Status::Done {
        return Ok(status);
    }
    let history = read_trace(alloc, out.bytes()).map_err(|_| NoMemory)?;
    Ok(print_found(rt, sum.load(Ordering::SeqCst), history.events()))
}

/// Why the program ends with this status, for a reader.
fn reason(status: Status) -> &'static str {
    match status {
        Status::Done => "done",
        Status::Usage => "usage: prime_count WORKERS",
        Status::Refused => "WORKERS is a number from 1 to 16",
        Status::ReadFault => "the script couldn't be read",
        Status::WriteFault => "the output couldn't be written",
        Status::ReactorFault => "the reactor failed",
        Status::NoMemory => "no memory",
    }
}

/// The whole program. It says on standard error why it ends, where not all went well.
fn run<R: Env + AllocGlobal + Print + Eprint + Threads + Wait + Sync>(
    rt: &R,
) -> Result<Status, NoMemory> {
    let status = counted(rt).unwrap_or(Status::NoMemory);
    if status != Status::Done {
        let reason = reason(status);
        // Where standard error can't be written, the exit status is all that is said.
        let _unsaid = eprintln!(rt; "prime_count: {reason}");
    }
    Ok(status)
}

fn main(rt: HostRuntime) -> ExitCode {
    ExitCode::from(run(&rt).unwrap_or(Status::NoMemory).number())
}
