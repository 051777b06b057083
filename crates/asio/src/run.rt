ghost use Rattle.std.specs.Prelude.{◌≡◌, length};
ghost use Rattle.op_handlers.specs.Rack.{IsWholeRack, handlers_in};
ghost use Rattle.session_script.specs.Limits.{most_acts};

use crate::mark_handler::{MarkHandler, mark_handlers};
use asio_command::{RunScript, trace_objects};
use asio_types::{NoMemory, Sink, SureSink, SureSource, write_all};
use command_words::{CommandStatus, Options};
use op_handlers::Rack;
use reactor_trait::Reactor;
use session_run::{Status, asio_session, end_buffered};
use std::alloc::Global;
use std::sync::Wait;
use std::thread::Threads;
use text_io::{BufferedSink, Unfinished};
use text_places::Text;

/// More bytes than any note has.
const NOTE_ROOM: u32 = 256;

/// The bytes of a trace that go out at a time.
const OUT_ROOM: usize = 8_192;

/// The status of the program for that of a session.
fn status_of(status: Status) -> CommandStatus {
    match status {
        Status::Done => CommandStatus::Done,
        Status::Usage => CommandStatus::Usage,
        Status::Refused => CommandStatus::Refused,
        Status::ReadFault => CommandStatus::ReadFault,
        Status::WriteFault => CommandStatus::WriteFault,
        Status::ReactorFault => CommandStatus::ReactorFault,
        Status::NoMemory => CommandStatus::NoMemory,
    }
}

/// The session of a script, as `asio_run run` makes it.
fn session<R: Threads + Wait + Sync, K: Sink, X: Reactor + Send>(
    rt: &R,
    alloc: Global,
    script: &RunScript,
    out: &mut K,
    reactor: X,
    rack: &mut Rack<MarkHandler>,
) -> Result<(Status, SureSink), NoMemory>
    requires whole { IsWholeRack rack.old }
    requires count { length (handlers_in rack.old) ≡ most_acts }
{
    let words = [String::from_str(alloc, "run")?];
    let mut source = SureSource::make(alloc, script.text.as_slice())?;
    let mut note = SureSink::make(alloc, NOTE_ROOM)?;
    let (status, _) = asio_session(
        rt,
        alloc,
        &words,
        &mut source,
        out,
        &mut note,
        reactor,
        rack,
    );
    Ok((status, note))
}

/// Runs a script, and writes its trace as text.
fn run_text<R: Threads + Wait + Sync, K: Sink + Drop, X: Reactor + Send>(
    rt: &R,
    alloc: Global,
    script: &RunScript,
    out: K,
    reactor: X,
    rack: &mut Rack<MarkHandler>,
) -> Result<Status, NoMemory>
    requires whole { IsWholeRack rack.old }
    requires count { length (handlers_in rack.old) ≡ most_acts }
{
    let mut out = BufferedSink::make(alloc, out, OUT_ROOM)?;
    let (status, note) = session(rt, alloc, script, &mut out, reactor, rack)?;
    let mut unused = SureSink::make(alloc, NOTE_ROOM)?;
    Ok(end_buffered(status, note.bytes(), &mut out, &mut unused))
}

/// Runs a script, and writes its trace as objects.
fn run_objects<R: Threads + Wait + Sync, K: Sink, X: Reactor + Send>(
    rt: &R,
    alloc: Global,
    script: &RunScript,
    out: &mut K,
    reactor: X,
    rack: &mut Rack<MarkHandler>,
) -> Result<Status, NoMemory>
    requires whole { IsWholeRack rack.old }
    requires count { length (handlers_in rack.old) ≡ most_acts }
{
    let mut kept = Text::empty(alloc);
    let (status, _) = session(rt, alloc, script, &mut kept, reactor, rack)?;
    let objects = trace_objects(alloc, script.head.as_slice(), kept.as_bytes())?;
    match write_all(out, objects.as_slice()) {
        Ok(()) => Ok(status),
        Err(_) => Ok(Status::WriteFault),
    }
}

/// Runs a script over a reactor, and writes its trace: as text, or as objects.
pub(crate) fn run_over<R: Threads + Wait + Sync, K: Sink + Drop, X: Reactor + Send>(
    rt: &R,
    alloc: Global,
    script: &RunScript,
    options: Options,
    out: K,
    reactor: X,
) -> Result<CommandStatus, Unfinished> {
    let Ok(mut rack) = mark_handlers(alloc) else {
        return Err(Unfinished::NoMemory);
    };
    let mut out = out;
    let ended = if options.json {
        run_objects(rt, alloc, script, &mut out, reactor, &mut rack)
    } else {
        run_text(rt, alloc, script, out, reactor, &mut rack)
    };
    rack.discard_all();
    match ended {
        Ok(status) => Ok(status_of(status)),
        Err(NoMemory) => Err(Unfinished::NoMemory),
    }
}
