//! A script on the io_context with one lock.
ghost use Rattle.std.specs.Prelude.{◌≡◌, ◌≤◌, ◌^◌, length, IfErr, IfOk, OnErr, OnOk};
ghost use Rattle.execution_laws.specs.Finished.{IsFinished};
ghost use Rattle.execution_laws.specs.LetGo.{let_go_marks};
ghost use Rattle.execution_laws.specs.Setup.{IsRefused, TakesHandlers};
ghost use Rattle.op_handlers.specs.Rack.{IsWholeRack, handlers_in};
ghost use Rattle.proactor_core.specs.Proactor.{tells};
ghost use Rattle.session_run.specs.RackMarks.{drop_mark, rack_run_mark};
ghost use Rattle.session_script.specs.Limits.{most_acts};

use crate::rounds::run_rounds;
use asio_types::SetupFault;
use book_context::{BookContext, Session};
use history_book::History;
use op_handlers::{CompletionHandler, Rack};
use reactor_trait::Reactor;
use session_script::Script;
use std::alloc::Global;
use std::sync::Wait;
use std::thread::Threads;

/// Who takes turns at the context.
#[derive(Clone, Copy, Debug, PartialEq, Eq)]
pub(crate) enum Sharing {
    /// The workers that the rounds name, each turn under the lock.
    Workers,
    /// The thread that runs the script, which has the context to itself and takes no lock.
    Alone,
}

/// Runs a script on a context with one lock; the names are those of this session.
pub(crate) fn run_locked<
    N: Session + Send + Sync,
    R: Threads + Wait + Sync,
    X: Reactor + Send,
    H: CompletionHandler + Send,
>(
    rt: &R,
    alloc: Global,
    sharing: Sharing,
    script: &Script,
    reactor: X,
    rack: &mut Rack<H>,
) -> Result<(History, X, u128), (SetupFault, X)>
    requires named { N.script ≡ script.now }
    requires told { N.told ≡ tells (X.told reactor) }
    requires faults { N.faults ≡ X.faults reactor }
    requires run_marks { N.run ≡ rack_run_mark H.marks rack.old }
    requires drop_marks { N.drop ≡ drop_mark H.marks rack.old }
    requires whole { IsWholeRack rack.old }
    requires count { length (handlers_in rack.old) ≡ most_acts }
    ensures taken { OnOk result (TakesHandlers script.now rack.old rack.new) }
    ensures kept { OnErr result (handlers_in rack.new ≡ handlers_in rack.old) }
    ensures refused { IfErr result (λ back.
        IsRefused N.told N.faults (X.faults back.1) (X.state back.1) (X.told back.1) back.0) }
    ensures ended { IfOk result (λ ran. IsFinished N.script N.told N.run N.drop N.outside N.faults
        (X.faults ran.1) ran.0.events (X.state ran.1) (X.told ran.1)) }
    ensures let_go { IfOk result
        (λ ran. ran.2 ≡ let_go_marks N.script N.told N.drop ran.0.events) }
    ensures few { IfOk result (λ ran. ran.2 ≤ 2 ^ 96) }
{
    // The rack has a number for each act.
    prove!(script.acts() <= rack.count());
    let mut context = BookContext::<X, H, N>::make(alloc, script, rack, reactor)?;
    if sharing == Sharing::Workers {
        run_rounds(rt, script, &mut context);
    }
    // Closes each round behind its work, with the context out of its lock.
    Ok(context.finish_telling(rt))
}
