ghost use Rattle.std.specs.Prelude.{◌≡◌, ◌≤◌, ◌^◌, IfErr, OnErr, OnOk, true};
ghost use Rattle.op_handlers.specs.Rack.{handlers_in};
ghost use Rattle.proactor_core.specs.Proactor.{tells};
ghost use Rattle.execution_laws.specs.Finished.{IsFinished};
ghost use Rattle.execution_laws.specs.LetGo.{let_go_marks};
ghost use Rattle.execution_laws.specs.Setup.{HoldsMarked, IsRefused, TakesHandlers};
ghost use Rattle.book_context.specs.BookSteps.{IsBookOver};

use crate::answer::BookTurn;
use crate::book::Book;
use crate::session::Session;
use asio_types::SetupFault;
use history_book::History;
use op_handlers::{CompletionHandler, Rack};
use reactor_trait::Reactor;
use session_script::Script;
use std::alloc::Global;
use std::sync::{Mutex, Wait};
use std::thread;

/// A context whose calls may come from any thread: one lock round a book. A handler executes inside
/// one hold of the lock. It must be finished.
pub struct BookContext<'a, X: Reactor, H: CompletionHandler, N: Session> {
    book: Mutex<Book<'a, X, H, N>>,
}

/// Does what can be done in the round, until there is nothing to do now.
fn turn_while_it_goes<'a, X: Reactor, H: CompletionHandler, N: Session, R: Wait>(
    rt: &R,
    book: &mut Book<'a, X, H, N>,
) {
    for _ in rt.forever() {
        match book.turn() {
            BookTurn::Did => {}
            BookTurn::Ended | BookTurn::Stopped | BookTurn::Idle | BookTurn::Fault => return,
        }
    }
}

/// Does what is left of the round, and closes it, unless the book is over.
fn close_round<'a, X: Reactor, H: CompletionHandler, N: Session, R: Wait>(
    rt: &R,
    book: &mut Book<'a, X, H, N>,
) {
    for _ in rt.forever() {
        turn_while_it_goes(rt, book);
        if book.close() || book.over() {
            return;
        }
        // A guard is held, and what may release it runs elsewhere.
        thread::yield_now();
    }
}

/// Closes the rounds that are left, each with its restart, until the book is over.
fn close_rounds<'a, X: Reactor, H: CompletionHandler, N: Session, R: Wait>(
    rt: &R,
    book: &mut Book<'a, X, H, N>,
)
    ensures over { IsBookOver N.script book.new.recording }
{
    for _ in rt.forever() {
        if book.over() {
            return;
        }
        book.restart();
        close_round(rt, book);
    }
}

impl<'a, X: Reactor, H: CompletionHandler, N: Session> BookContext<'a, X, H, N> {
    /// Takes the handlers of the script's operations from the rack, sets the reactor up, and makes
    /// the calls of `open`. Takes all memory that the session needs. After a refusal the rack is as
    /// before.
    pub fn make(
        alloc: Global,
        script: &'a Script,
        rack: &mut Rack<H>,
        reactor: X,
    ) -> Result<BookContext<'a, X, H, N>, (SetupFault, X)>
        requires script { N.script ≡ script.now }
        requires told { N.told ≡ tells (X.told reactor) }
        requires faults { N.faults ≡ X.faults reactor }
        requires marks { HoldsMarked H.marks script.now N.run N.drop rack.old }
        ensures taken { OnOk result (TakesHandlers script.now rack.old rack.new) }
        ensures kept { OnErr result (handlers_in rack.new ≡ handlers_in rack.old) }
        ensures refused { IfErr result (λ back.
            IsRefused N.told N.faults (X.faults back.1) (X.state back.1) (X.told back.1) back.0) }
    {
        let book = Book::make(alloc, script, rack, reactor)?;
        Ok(BookContext {
            book: Mutex::new(book),
        })
    }

    /// Takes turns, each under the lock, until the context ended, was stopped or failed, or nothing
    /// is to be done and the round doesn't run (Asio reference, io_context::run and ::poll). Any
    /// number of threads may call it.
    pub fn run<R: Wait>(&self, rt: &R) {
        for _ in rt.forever() {
            let (turn, runs) = self.one_turn(rt);
            match turn {
                BookTurn::Did => {}
                BookTurn::Idle => {
                    if !runs {
                        return;
                    }
                    thread::yield_now();
                }
                BookTurn::Ended | BookTurn::Stopped | BookTurn::Fault => return,
            }
        }
    }

    /// One turn under the lock, and whether a round is open that runs.
    fn one_turn<R: Wait>(&self, rt: &R) -> (BookTurn, bool) {
        let mut book = self.book.lock(rt);
        let turn = book.turn();
        (turn, book.runs())
    }

    /// Runs what is left of the round under way, and closes it.
    pub fn close_round<R: Wait>(&mut self, rt: &R) {
        let mut book = self.book.lock(rt);
        close_round(rt, &mut *book);
    }

    /// `io_context::restart`, where the next round begins with it.
    pub fn restart(&mut self) {
        self.book.get_mut().restart();
    }

    /// A stop from no handler (Asio reference, io_context::stop), where a round is open that isn't
    /// stopped.
    pub fn stop<R: Wait>(&self, rt: &R)
        requires allowed { N.outside ≡ true }
    {
        self.book.lock(rt).stop();
    }

    /// Closes the rounds that are left, destroys the handlers that never ran, and gives the history
    /// and the reactor back.
    pub fn finish<R: Wait>(self, rt: &R) -> (History, X)
        ensures ended { IsFinished N.script N.told N.run N.drop N.outside N.faults
            (X.faults result.1) result.0.events (X.state result.1) (X.told result.1) }
    {
        let (history, reactor, _) = self.finish_telling(rt);
        (history, reactor)
    }

    /// The same, and the sum of the drop marks of the handlers whose operations were never accepted,
    /// which discarding alone tells.
    pub fn finish_telling<R: Wait>(self, rt: &R) -> (History, X, u128)
        ensures ended { IsFinished N.script N.told N.run N.drop N.outside N.faults
            (X.faults result.1) result.0.events (X.state result.1) (X.told result.1) }
        ensures let_go { result.2 ≡ let_go_marks N.script N.told N.drop result.0.events }
        ensures few { result.2 ≤ 2 ^ 96 }
    {
        let BookContext { book } = self;
        let mut book = book.into_inner();
        close_rounds(rt, &mut book);
        book.finish_telling()
    }
}
