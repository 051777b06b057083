ghost use Rattle.std.specs.Prelude.{◌≡◌, ◌↔◌, IsTrue, IfErr, OnErr, OnOk};
ghost use Rattle.op_handlers.specs.Rack.{handlers_in};
ghost use Rattle.proactor_core.specs.Proactor.{tells};
ghost use Rattle.execution_laws.specs.Setup.{HoldsMarked, IsRefused, TakesHandlers};
ghost use Rattle.book_context.specs.BookSteps.{IsBookOver};

mod closing;
mod execution;
mod finish;
mod reactor_turn;
mod telling;
mod turn;
mod turn_steps;
mod wait;

use crate::law::openings_are_recorded;
use crate::record::Record;
use crate::rounds::{are_closed, is_open, is_run};
use crate::session::Session;
use asio_types::SetupFault;
use execution_laws::executions_show_marks;
use op_handlers::{CompletionHandler, Rack};
use proactor_core::Proactor;
use reactor_trait::Reactor;
use session_script::{Script, scripts_are_well_formed};
use std::alloc::Global;
use std::marker::{Model, PhantomData};
use strand_core::Hands;

/// A context on one thread: a script's session under way (Asio reference, io_context). It holds the
/// handlers, what the reactor has under way, and the history so far. `N` names whether others than
/// its handlers may stop it. It must be finished.
///
/// It keeps that the history is legal so far and shows the marks that `N` names, that no handler
/// runs, and that the reactor has nothing left to tell. Contracts see what is recorded, and the
/// reactor.
pub struct Book<'a, X: Reactor, H: CompletionHandler, N: Session> {
    record: Record<'a>,
    hands: Hands<'a, H>,
    proactor: Proactor<'a, X>,
    names: PhantomData<N>,
}

impl<'a, X: Reactor, H: CompletionHandler, N: Session> Model for Book<'a, X, H, N> {
    ghost use Rattle.book_context.specs.Book.{BookView, IsBook};

    ghost Value = { BookView X };

    ghost view = { λ b. record { recording = b.record; reactor = b.proactor.reactor } };

    ghost invariant = { λ b.
        IsBook N.script N.told N.run N.drop N.faults N.outside H.marks X.state X.told X.faults
        b.record b.hands b.proactor };
}

impl<'a, X: Reactor, H: CompletionHandler, N: Session> Book<'a, X, H, N> {
    /// Takes the handlers of the script's operations from the rack, sets the reactor up, and makes
    /// the calls of `open`. Takes all memory that the session needs. After a refusal the rack is as
    /// before.
    pub fn make(
        alloc: Global,
        script: &'a Script,
        rack: &mut Rack<H>,
        reactor: X,
    ) -> Result<Book<'a, X, H, N>, (SetupFault, X)>
        requires script { N.script ≡ script.now }
        requires told { N.told ≡ tells (X.told reactor) }
        requires faults { N.faults ≡ X.faults reactor }
        requires marks { HoldsMarked H.marks script.now N.run N.drop rack.old }
        ensures taken { OnOk result (TakesHandlers script.now rack.old rack.new) }
        ensures kept { OnErr result (handlers_in rack.new ≡ handlers_in rack.old) }
        ensures refused { IfErr result (λ back.
            IsRefused N.told N.faults (X.faults back.1) (X.state back.1) (X.told back.1) back.0) }
    {
        let mut record = match Record::make(alloc, script) {
            Ok(record) => record,
            Err(_) => return Err((SetupFault::NoMemory, reactor)),
        };
        let proactor = match Proactor::start(alloc, script, reactor) {
            Ok(proactor) => proactor,
            Err(refusal) => {
                drop(record);
                return Err(refusal);
            }
        };
        let hands = match Hands::of_script(alloc, script, rack) {
            Ok(hands) => hands,
            Err(_) => {
                drop(record);
                return Err((SetupFault::NoMemory, proactor.into_reactor()));
            }
        };
        scripts_are_well_formed(script);
        openings_are_recorded();
        executions_show_marks();
        record.open();
        Ok(Book {
            record,
            hands,
            proactor,
            names: PhantomData,
        })
    }

    /// Whether a round is open that runs.
    pub(crate) fn runs(&self) -> bool {
        is_open(&self.record) && is_run(&self.record)
    }

    /// Whether all rounds are closed, or the reactor has failed.
    pub fn over(&self) -> bool
        ensures { IsTrue result ↔ IsBookOver N.script self.now.recording }
    {
        self.proactor.failed() || are_closed(&self.record)
    }
}
