ghost use Rattle.std.specs.Prelude.{◌≡◌, length, IfErr, IfOk, OnErr};
ghost use Rattle.op_handlers.specs.Rack.{IsWholeRack, handlers_in};
ghost use Rattle.session_script.specs.Limits.{most_acts};
ghost use Rattle.session_run.specs.Form.{IsRunning};
ghost use Rattle.session_run.specs.Given.{seen_reactor};
ghost use Rattle.session_run.specs.Outcome.{CountsRunning, CountsWriting, Works};
ghost use Rattle.session_run.specs.Run.{IsRunOf, ShowsNoFault};
ghost use Rattle.text_io.specs.Seen.{seen_by};

use crate::broken::broken_history;
use crate::context_kind::{ContextKind, run_script};
use crate::form::Form;
use crate::outcome::WorkOutcome;
use crate::writing::write_history;
use asio_types::{SetupFault, Sink};
use history_book::History;
use op_handlers::{CompletionHandler, Rack};
use reactor_trait::Reactor;
use session_script::{Script, scripts_are_well_formed};
use std::alloc::Global;
use std::sync::Wait;
use std::thread::Threads;

/// Runs a script, discards the handlers that are no operation's, and gives the history and the
/// reactor, and to the rack what those told that were never called; where the reactor can't be set
/// up, the history shows it. Takes all memory first: without it, the reactor alone comes back, and
/// nothing was run.
fn run_to_history<R: Threads + Wait + Sync, X: Reactor + Send, H: CompletionHandler + Send>(
    rt: &R,
    alloc: Global,
    kind: ContextKind,
    script: &Script,
    reactor: X,
    rack: &mut Rack<H>,
) -> Result<(History, X), X>
    requires whole { IsWholeRack rack.old }
    requires count { length (handlers_in rack.old) ≡ most_acts }
    ensures ran { IfOk result (λ ran. IsRunOf H.marks script.now
        (seen_reactor X.state X.told X.faults reactor ran.1) rack.old rack.new ran.0.events) }
    ensures stood { IfOk result
        (λ ran. ShowsNoFault ran.0.events → X.faults ran.1 ≡ X.faults reactor) }
    ensures kept { OnErr result (handlers_in rack.new ≡ handlers_in rack.old) }
    ensures counts { IfErr result (λ back. X.faults back ≡ X.faults reactor) }
{
    scripts_are_well_formed(script);
    // The rack has a number for each act.
    prove!(script.acts() <= rack.count());
    let Ok(broken) = broken_history(alloc) else {
        return Err(reactor);
    };
    match run_script(rt, alloc, kind, script, reactor, rack) {
        Ok(ran) => {
            ran.0.holds_events();
            let uninitiated = rack.let_go();
            let rest = rack.discard_rest();
            rack.note(uninitiated + rest);
            Ok(ran)
        }
        Err((SetupFault::Failed, reactor)) => {
            rack.discard_rest();
            Ok((broken, reactor))
        }
        Err((SetupFault::NoMemory, reactor)) => Err(reactor),
    }
}

/// Runs a script, and writes what the form says of its history.
pub(crate) fn run_and_write<
    R: Threads + Wait + Sync,
    K: Sink,
    X: Reactor + Send,
    H: CompletionHandler + Send,
>(
    rt: &R,
    alloc: Global,
    kind: ContextKind,
    form: Form,
    script: &Script,
    out: &mut K,
    reactor: X,
    rack: &mut Rack<H>,
) -> (WorkOutcome, X)
    requires running { IsRunning form }
    requires whole { IsWholeRack rack.old }
    requires count { length (handlers_in rack.old) ≡ most_acts }
    ensures works { Works form H.marks script.now
        (seen_reactor X.state X.told X.faults reactor result.1) rack.old rack.new
        (seen_by K.written K.faults out.old out.new) result.0 }
    ensures quiet { result.0 ≡ WorkOutcome.NoMemory → out.new ≡ out.old }
    ensures kept { result.0 ≡ WorkOutcome.NoMemory → handlers_in rack.new ≡ handlers_in rack.old }
    ensures writes { CountsWriting result.0 (K.faults out.old) (K.faults out.new) }
    ensures runs { CountsRunning result.0 (X.faults reactor) (X.faults result.1) }
{
    match run_to_history(rt, alloc, kind, script, reactor, rack) {
        Ok((history, reactor)) => (write_history(form, &history, out), reactor),
        Err(reactor) => (WorkOutcome::NoMemory, reactor),
    }
}
