//! The program: it goes over the history that standard input has behind its script, and says which
//! of the laws of legal histories it breaks. Each law is computed on the list of events alone, apart
//! from the definitions of what is legal.
#![tactic(auto)]

mod cancelling;
mod handlers;
mod rows;
mod stops;
mod strands;
mod streams;
mod timers;

use asio_types::{Event, Failed, NoMemory, Sink, StdSink, StdSource, write_all};
use session_script::Script;
use std::alloc::Global;
use std::process::ExitCode;
use text_io::{Unfinished, read_text, words_of};
use trace_check::{MOST_INPUT_READ, NoQuestion, question_of};

/// How the program ends.
#[derive(Clone, Copy)]
enum Ending {
    Kept,
    Broken,
    Usage,
    NoHistory,
    ReadFault,
    WriteFault,
    NoMemory,
}

impl Ending {
    fn number(self) -> u8 {
        match self {
            Ending::Kept => 0,
            Ending::Usage => 1,
            Ending::NoHistory => 2,
            Ending::ReadFault => 3,
            Ending::WriteFault => 4,
            Ending::NoMemory => 6,
            Ending::Broken => 8,
        }
    }

    fn note(self) -> &'static [u8] {
        match self {
            Ending::Kept | Ending::Broken => b"",
            Ending::Usage => b"asio_laws: usage: asio_laws [--net]\n",
            Ending::NoHistory => b"asio_laws: no history\n",
            Ending::ReadFault => b"asio_laws: read fault\n",
            Ending::WriteFault => b"asio_laws: write fault\n",
            Ending::NoMemory => b"asio_laws: no memory\n",
        }
    }
}

/// The names of the laws, in the order in which they are computed.
const NAMES: [&[u8]; 10] = [
    b"once\n",
    b"after_completion\n",
    b"alone\n",
    b"in_order\n",
    b"after_stop\n",
    b"closes_once\n",
    b"cancelled\n",
    b"timers\n",
    b"streams\n",
    b"length\n",
];

/// Whether the history keeps each law. Where bytes are untold streams keep theirs.
fn judged(
    alloc: Global,
    tells: bool,
    script: &Script,
    events: &[Event],
) -> Result<[bool; 10], NoMemory> {
    let rows = rows::rows_of(alloc, script, events)?;
    let rows = rows.as_slice();
    let keeps_bytes = !tells || streams::streams(alloc, script, rows, events)?;
    let keeps_stops = stops::after_stop(alloc, rows, events)?;
    let keeps_time = timers::timers(alloc, rows, events)?;
    Ok([
        handlers::once(rows, events),
        handlers::after_completion(rows),
        strands::alone(rows),
        strands::in_order(rows),
        keeps_stops,
        stops::closes_once(script, events),
        cancelling::cancelled(rows),
        keeps_time,
        keeps_bytes,
        stops::length(rows, events),
    ])
}

/// Writes the names of the laws that are broken, or that all are kept.
fn write_broken<K: Sink>(out: &mut K, laws: &[bool; 10]) -> Result<Ending, Failed> {
    let mut ending = Ending::Kept;
    for (law, name) in NAMES.iter().enumerate() {
        if !laws[law] {
            write_all(out, *name)?;
            ending = Ending::Broken;
        }
    }
    if matches!(ending, Ending::Kept) {
        write_all(out, b"kept\n")?;
    }
    Ok(ending)
}

/// Goes over an input.
fn answer<K: Sink>(alloc: Global, tells: bool, input: &[u8], out: &mut K) -> Ending {
    let question = match question_of(alloc, input) {
        Ok(question) => question,
        Err(NoQuestion::NoMemory) => return Ending::NoMemory,
        Err(NoQuestion::Refused(_) | NoQuestion::BadTrace(_)) => return Ending::NoHistory,
    };
    match judged(alloc, tells, &question.script, question.history.events()) {
        Ok(laws) => write_broken(out, &laws).unwrap_or(Ending::WriteFault),
        Err(_) => Ending::NoMemory,
    }
}

/// Whether the words say that bytes are told; none if they say nothing.
fn tells_bytes(words: &[String]) -> Option<bool> {
    match words {
        [] => Some(true),
        [word] if word.as_str() == "--net" => Some(false),
        _ => None,
    }
}

fn main(rt: HostRuntime) -> ExitCode {
    let mut source = StdSource::of(rt.stdin());
    let mut out = StdSink::of(rt.stdout());
    let mut notes = StdSink::of(rt.stderr());
    let tells = match words_of(&rt) {
        Ok(words) => tells_bytes(words.as_slice()),
        Err(_) => None,
    };
    let ending = match tells {
        None => Ending::Usage,
        Some(tells) => match read_text(rt.alloc(), &mut source, MOST_INPUT_READ) {
            Ok(input) => answer(rt.alloc(), tells, input.as_slice(), &mut out),
            Err(Unfinished::Failed) => Ending::ReadFault,
            Err(Unfinished::NoMemory) => Ending::NoMemory,
        },
    };
    let _ = write_all(&mut notes, ending.note());
    ExitCode::from(ending.number())
}
