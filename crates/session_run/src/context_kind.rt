//! A script is run on one io_context: without a lock, with one, or by one thread alone.
ghost use Rattle.std.specs.Prelude.{◌≡◌, ◌≤◌, ◌^◌, false, length, IfErr, IfOk, OnErr, OnOk};
ghost use Rattle.execution_laws.specs.Finished.{IsFinished};
ghost use Rattle.execution_laws.specs.LetGo.{let_go_marks};
ghost use Rattle.execution_laws.specs.Setup.{IsRefused, TakesHandlers};
ghost use Rattle.history_laws.specs.Promise.{KeepsPromise};
ghost use Rattle.op_handlers.specs.Rack.{IsWholeRack, handlers_in, let_go_of};
ghost use Rattle.proactor_core.specs.Proactor.{tells};
ghost use Rattle.session_run.specs.RackMarks.{drop_mark, rack_run_mark};
ghost use Rattle.session_script.specs.Limits.{most_acts};

use crate::one_lock::{Sharing, run_locked};
use crate::without_lock::run_unlocked;
use asio_types::SetupFault;
use history_book::History;
use op_handlers::{CompletionHandler, Rack};
use reactor_trait::Reactor;
use session_script::{Script, scripts_are_well_formed};
use std::alloc::Global;
use std::marker::Brand;
use std::sync::Wait;
use std::thread::Threads;

/// The io_context that a session runs on.
#[derive(Clone, Copy, Debug, PartialEq, Eq)]
pub enum ContextKind {
    /// Chosen by the script's workers, as `io_context(concurrency_hint)` is told of them (Asio
    /// overview, "Concurrency hints"): where every round names one worker, the calling thread does
    /// all of it, with no lock taken and no thread started; else it is the context without a lock.
    Hinted,
    /// Without a lock: handlers of different lanes execute at the same time.
    WithoutLock,
    /// One lock round it: a handler executes inside one hold of the lock.
    OneLock,
}

/// Runs a script on one io_context, from the set-up of its reactor to the destruction of every
/// handler that never ran, each round by as many threads as it names, as far as the system has them;
/// and gives the history and the reactor (Asio reference, io_context). The rack loses the handlers of
/// the script's operations, and no other; it tells the sum of the drop marks of those whose operations
/// were never initiated (`Rack::let_go`), which discarding alone tells.
///
/// `Failed`: the reactor couldn't be set up. `NoMemory`: some memory wasn't given. Both come before
/// anything is run, and leave the rack as it was. Takes all memory first. May wait, as a guard that
/// is never released does.
///
/// In `crates/session_run/src/running.rt`:
///
/// ```rust
/// match run_script(rt, alloc, kind, script, reactor, rack) {
///     Ok(ran) => {
/// ..
///     Err((SetupFault::Failed, reactor)) => {
/// ..
///     Err((SetupFault::NoMemory, reactor)) => Err(reactor),
/// }
/// ```
pub fn run_script<R: Threads + Wait + Sync, X: Reactor + Send, H: CompletionHandler + Send>(
    rt: &R,
    alloc: Global,
    kind: ContextKind,
    script: &Script,
    reactor: X,
    rack: &mut Rack<H>,
) -> Result<(History, X), (SetupFault, X)>
    requires whole { IsWholeRack rack.old }
    requires count { length (handlers_in rack.old) ≡ most_acts }
    ensures taken { OnOk result (TakesHandlers script.now rack.old rack.new) }
    ensures kept { OnErr result (handlers_in rack.new ≡ handlers_in rack.old) }
    ensures refused { IfErr result (λ back. IsRefused (tells (X.told reactor)) (X.faults reactor)
        (X.faults back.1) (X.state back.1) (X.told back.1) back.0) }
    ensures ended { IfOk result (λ ran. IsFinished script.now (tells (X.told reactor))
        (rack_run_mark H.marks rack.old) (drop_mark H.marks rack.old) false (X.faults reactor)
        (X.faults ran.1) ran.0.events (X.state ran.1) (X.told ran.1)) }
    ensures let_go { IfOk result (λ ran. let_go_of rack.new ≡ let_go_marks script.now
        (tells (X.told reactor)) (drop_mark H.marks rack.old) ran.0.events) }
    ensures few { OnOk result (let_go_of rack.new ≤ 2 ^ 96) }
    ensures promise { IfOk result
        (λ ran. KeepsPromise script.now (tells (X.told reactor)) ran.0.events) }
{
    scripts_are_well_formed(script);
    match run_by(rt, alloc, kind, script, reactor, rack) {
        Ok((history, reactor, let_go)) => {
            rack.note(let_go);
            Ok((history, reactor))
        }
        Err(refusal) => Err(refusal),
    }
}

/// The same, with the sum of the drop marks of the handlers whose operations were never initiated.
fn run_by<R: Threads + Wait + Sync, X: Reactor + Send, H: CompletionHandler + Send>(
    rt: &R,
    alloc: Global,
    kind: ContextKind,
    script: &Script,
    reactor: X,
    rack: &mut Rack<H>,
) -> Result<(History, X, u128), (SetupFault, X)>
    requires whole { IsWholeRack rack.old }
    requires count { length (handlers_in rack.old) ≡ most_acts }
    ensures taken { OnOk result (TakesHandlers script.now rack.old rack.new) }
    ensures kept { OnErr result (handlers_in rack.new ≡ handlers_in rack.old) }
    ensures refused { IfErr result (λ back. IsRefused (tells (X.told reactor)) (X.faults reactor)
        (X.faults back.1) (X.state back.1) (X.told back.1) back.0) }
    ensures ended { IfOk result (λ ran. IsFinished script.now (tells (X.told reactor))
        (rack_run_mark H.marks rack.old) (drop_mark H.marks rack.old) false (X.faults reactor)
        (X.faults ran.1) ran.0.events (X.state ran.1) (X.told ran.1)) }
    ensures let_go { IfOk result (λ ran. ran.2 ≡ let_go_marks script.now (tells (X.told reactor))
        (drop_mark H.marks rack.old) ran.0.events) }
    ensures few { IfOk result (λ ran. ran.2 ≤ 2 ^ 96) }
{
    let sharing = match kind {
        ContextKind::Hinted if has_one_worker(script) => Sharing::Alone,
        ContextKind::OneLock => Sharing::Workers,
        ContextKind::Hinted | ContextKind::WithoutLock => {
            return run_unlocked(rt, alloc, script, reactor, rack);
        }
    };
    run_locked::<Brand, R, X, H>(rt, alloc, sharing, script, reactor, rack)
}

/// Whether each round of the script names one worker.
fn has_one_worker(script: &Script) -> bool {
    script.rounds().iter().all(|round| round.workers == 1)
}
