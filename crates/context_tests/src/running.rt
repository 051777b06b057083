//! Whole sessions on threads.

ghost use Rattle.std.specs.Prelude.{◌≡◌, length};
ghost use Rattle.op_handlers.specs.Rack.{IsWholeRack, handlers_in};
ghost use Rattle.session_script.specs.Limits.{most_acts};

use crate::gate::Gate;
use crate::handlers::rack_of;
use crate::wanted::{MEMORY, is_legal};
use asio_types::SetupFault;
use history_book::History;
use op_handlers::{CompletionHandler, Rack};
use reactor_script::{FailAt, ScriptReactor};
use reactor_trait::Reactor;
use session_run::{ContextKind, run_script};
use session_script::{Script, read_script};
use std::alloc::Global;
use std::process::Abort;
use std::sync::Wait;
use std::thread::Threads;

/// Runs a script: the one place of that call in all tests. What is promised of it stays here.
fn run<R: Threads + Wait + Sync, X: Reactor + Send, H: CompletionHandler + Send>(
    rt: &R,
    alloc: Global,
    kind: ContextKind,
    script: &Script,
    reactor: X,
    rack: &mut Rack<H>,
) -> Result<History, SetupFault>
    requires whole { IsWholeRack rack.old }
    requires count { length (handlers_in rack.old) ≡ most_acts }
{
    match run_script(rt, alloc, kind, script, reactor, rack) {
        Ok((history, _)) => Ok(history),
        Err((fault, _)) => Err(fault),
    }
}

/// Runs a script whose reactor fails at some of its calls, with handlers that pass a gate, if there is
/// one.
pub(crate) fn ran<R: Abort + Threads + Wait + Sync>(
    rt: &R,
    alloc: Global,
    kind: ContextKind,
    script: &Script,
    fails: &[FailAt],
    gate: Option<&Gate>,
) -> Result<History, SetupFault> {
    let reactor = ScriptReactor::make(alloc, fails).expect(rt, MEMORY);
    let mut rack = rack_of(rt, alloc, gate);
    let left = run(rt, alloc, kind, script, reactor, &mut rack);
    rack.discard_all();
    left
}

/// The history of a script, which is legal, with handlers that pass a gate, if there is one.
pub(crate) fn history_of<R: Abort + Threads + Wait + Sync>(
    rt: &R,
    alloc: Global,
    kind: ContextKind,
    text: &str,
    gate: Option<&Gate>,
    row: &str,
) -> History {
    let script = read_script(alloc, text.as_bytes()).expect(rt, "a script");
    let history = ran(rt, alloc, kind, &script, &[], gate).expect(rt, "a history");
    is_legal(rt, alloc, &script, history.events(), row);
    history
}
