ghost use Rattle.book_context.specs.BookSteps.{TurnAnswers};

use super::Book;
use super::execution::execute_next;
use super::reactor_turn::take_next;
use super::wait::wait_for_outside;
use crate::answer::BookTurn;
use crate::law::openings_are_recorded;
use crate::rounds::is_open;
use crate::session::Session;
use op_handlers::CompletionHandler;
use reactor_trait::Reactor;

impl<'a, X: Reactor, H: CompletionHandler, N: Session> Book<'a, X, H, N> {
    /// Executes the oldest ready handler; where none is ready, lets the reactor take the oldest
    /// request; where none waits, and the round runs, waits for the outside (Asio reference,
    /// io_context::run_one and poll_one). A turn of the reactor is whole: all that completes by it
    /// is ready. Takes no memory.
    pub fn turn(&mut self) -> BookTurn
        ensures { TurnAnswers X.faults N.script N.told N.run result self.old self.new }
    {
        openings_are_recorded();
        if self.record.stopped() {
            return BookTurn::Stopped;
        }
        if !is_open(&self.record) {
            return BookTurn::Idle;
        }
        if execute_next::<H, N>(&mut self.record, &mut self.hands) {
            return BookTurn::Did;
        }
        match take_next::<X, N>(&mut self.record, &mut self.proactor) {
            Some(turn) => turn,
            None => wait_for_outside::<X, N>(&mut self.record, &mut self.proactor),
        }
    }
}
