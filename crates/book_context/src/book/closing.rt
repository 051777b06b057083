ghost use Rattle.std.specs.Prelude.{◌≡◌, IfNone, IfSome, true, false};
ghost use Rattle.history_rules.specs.Rounds.{MayRestart};
ghost use Rattle.book_context.specs.BookSteps.{CannotClose, HasClosed, IsClosing, IsGoing};
ghost use Rattle.book_context.specs.Recorded.{recorded_state};
ghost use Rattle.book_context.specs.Recording.{with_closing, with_outside_stop, with_restart};
ghost use Rattle.book_context.specs.Steps.{EventIsRecorded};

use super::Book;
use super::wait::has_work;
use crate::law::{openings_are_recorded, rounds_are_recorded};
use crate::rounds::{is_open, is_run, wants_restart};
use crate::session::Session;
use asio_types::Event;
use op_handlers::CompletionHandler;
use reactor_trait::Reactor;

impl<'a, X: Reactor, H: CompletionHandler, N: Session> Book<'a, X, H, N> {
    /// The event by which the round may close now, and whether it leaves the context stopped.
    fn closing(&self) -> Option<(Event, bool)>
        ensures closes { IfSome result (λ closing.
            IsClosing closing.0
            × EventIsRecorded N.told self.now.recording closing.0
            (with_closing closing.0 closing.1 self.now.recording)) }
        ensures cannot { IfNone result
            (CannotClose self.now.recording.script N.told self.now.recording) }
    {
        rounds_are_recorded();
        if self.proactor.failed() {
            return None;
        }
        if !is_open(&self.record) {
            return None;
        }
        if self.record.stopped() {
            return Some((Event::Stopped, true));
        }
        if !self.record.is_ready_empty() {
            return None;
        }
        if !self.record.is_request_empty() {
            return None;
        }
        if !has_work(&self.proactor) {
            return Some((Event::Ended, true));
        }
        if is_run(&self.record) {
            return None;
        }
        Some((Event::Polled, false))
    }

    /// Closes the round where it may close: its workers have returned, since the context ran out of
    /// work or was stopped, or polling has done what it can. Answers whether it may; otherwise
    /// nothing changed.
    pub fn close(&mut self) -> bool
        ensures closed { result ≡ true →
            HasClosed N.script N.told self.old.recording self.new.recording }
        ensures cannot { result ≡ false → CannotClose N.script N.told self.old.recording }
        ensures unchanged { result ≡ false → self.new ≡ self.old }
        ensures reactor { self.new.reactor ≡ self.old.reactor }
    {
        let Some((closing, stopped)) = self.closing() else {
            return false;
        };
        self.record.close(closing, stopped);
        true
    }

    /// `io_context::restart`, where the round has one that hasn't come and the reactor works.
    /// Answers whether that is so; otherwise nothing changed.
    pub fn restart(&mut self) -> bool
        ensures may { result ≡ true →
            MayRestart N.script (recorded_state N.told self.old.recording) }
        ensures restarted { result ≡ true → self.new.recording ≡ with_restart self.old.recording }
        ensures cannot { result ≡ false →
            MayRestart N.script (recorded_state N.told self.old.recording) → ⊥ }
        ensures unchanged { result ≡ false → self.new ≡ self.old }
        ensures reactor { self.new.reactor ≡ self.old.reactor }
    {
        if self.proactor.failed() {
            return false;
        }
        if !wants_restart(&self.record) {
            return false;
        }
        rounds_are_recorded();
        self.record.restart();
        true
    }

    /// A stop from no handler (Asio reference, io_context::stop), where a round is open and the
    /// context isn't stopped.
    pub fn stop(&mut self)
        requires allowed { N.outside ≡ true }
        ensures stopped { IsGoing N.script (recorded_state N.told self.old.recording) →
            self.new.recording ≡ with_outside_stop self.old.recording }
        ensures unchanged { (IsGoing N.script (recorded_state N.told self.old.recording) → ⊥) →
            self.new ≡ self.old }
        ensures reactor { self.new.reactor ≡ self.old.reactor }
    {
        if self.record.stopped() {
            return;
        }
        if !is_open(&self.record) {
            return;
        }
        openings_are_recorded();
        rounds_are_recorded();
        self.record.push_outside_stop();
    }
}
