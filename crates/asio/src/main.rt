//! The program `asio`: it reads the files that its words name, has `asio_command` answer, runs
//! scripts as `asio_run` does, and writes what comes of it. Nothing stands on it.
#![tactic(auto)]

mod disk;
mod mark_handler;
mod obey;
mod orders;
mod pipe;
mod run;
mod runs;
mod step;
mod still_runs;

use asio_command::RunScript;
use asio_types::{NoMemory, Sink, StdSink, write_all};
use command_words::{CommandStatus, Options};
use obey::Step;
use orders::say_orders;
use pipe::{PipeSink, PipeState};
use reactor_mio::MioReactor;
use reactor_script::ScriptReactor;
use run::run_over;
use std::alloc::Global;
use std::process::ExitCode;
use std::sync::Wait;
use std::thread::Threads;
use step::step_of;
use still_runs::tell_later;
use text_io::Unfinished;

/// The status of a command that ended so.
fn status_of(ended: Result<CommandStatus, Unfinished>) -> CommandStatus {
    match ended {
        Ok(status) => status,
        Err(Unfinished::Failed) => CommandStatus::WriteFault,
        Err(Unfinished::NoMemory) => CommandStatus::NoMemory,
    }
}

/// Says what no command has said: that memory, writing or the reactor failed. A reader of standard
/// output that has gone away is no news.
fn say_failure<N: Sink>(notes: &mut N, status: CommandStatus, state: &PipeState) {
    let words: &[u8] = match status {
        CommandStatus::NoMemory => b"error: no memory\n",
        CommandStatus::WriteFault if !state.is_broken() => b"error: writing failed\n",
        CommandStatus::ReactorFault => b"error: the reactor failed, which the trace shows\n",
        _ => b"",
    };
    let _ = write_all(notes, words);
}

/// Runs a script over the scripted world.
fn run_scripted<R: Threads + Wait + Sync, K: Sink + Drop>(
    rt: &R,
    alloc: Global,
    script: &RunScript,
    options: Options,
    out: K,
) -> Result<CommandStatus, Unfinished> {
    match ScriptReactor::make(alloc, &[]) {
        Ok(reactor) => run_over(rt, alloc, script, options, out, reactor),
        Err(NoMemory) => Err(Unfinished::NoMemory),
    }
}

fn main(rt: HostRuntime) -> ExitCode {
    let alloc = rt.alloc();
    let state = PipeState::whole();
    let mut notes = StdSink::of(rt.stderr());
    let mut out = PipeSink::of(rt.stdout(), &state);
    let ended = match step_of(&rt, rt.stdin(), &mut out, &mut notes) {
        Ok(Step::Ended(status)) => Ok(status),
        Ok(Step::Run { script, options }) => {
            tell_later(rt, rt.stderr());
            if options.net {
                run_over(&rt, alloc, &script, options, out, MioReactor::make(rt))
            } else {
                run_scripted(&rt, alloc, &script, options, out)
            }
        }
        Ok(Step::Orders { script, words }) => {
            say_orders(rt.alloc(), &script, words.as_slice(), &mut out, &mut notes)
        }
        Err(why) => Err(why),
    };
    let status = status_of(ended);
    say_failure(&mut notes, status, &state);
    ExitCode::from(status.number())
}
