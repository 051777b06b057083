ghost use Rattle.std.specs.Prelude.{◌≡◌, ◌∷◌, if◌then◌else◌, false, IfErr, IfOk, None};
ghost use Rattle.io_rules.specs.declared.control.Control.TheVariants as control;
ghost use Rattle.io_rules.specs.declared.event.Event.TheVariants as event;
ghost use Rattle.io_rules.specs.declared.name.Kind.TheVariants as kind;
ghost use Rattle.io_rules.specs.declared.request.Gone.TheVariants as gone;
ghost use Rattle.io_rules.specs.Legal.{state_of};
ghost use Rattle.io_rules.specs.Names.{any_free};
ghost use Rattle.io_context.specs.Refused.{WaitWasRefused};
ghost use Rattle.io_context.specs.Timed.{changed_by};
ghost use Rattle.io_scheduler.specs.Accepted.{waiting_on};
ghost use Rattle.io_scheduler.specs.declared.timing.TimerChange.TheVariants as change;

use crate::context::Context;
use crate::refused::Refused;
use io_handlers::Handler;
use io_history::Named;
use io_reactor::Reactor;
use io_rules::{Lane, Name};
use io_scheduler::{Receipt, Section, TimerChange};
use std::sync::Wait;
use std::time::Duration;

impl<H: Handler, C: Named, W: Reactor> Context<H, C, W> {
    /// Makes a timer, whose expiry has passed (`basic_waitable_timer`); where no timer is free, answers the
    /// critical section in which that was so.
    pub fn make_timer<R: Wait>(&self, rt: &R) -> Result<(Name, Section<C>), Section<C>>
        ensures made { IfOk result (λ made. made.1.after
            ≡ event.Changed None (control.Make kind.Timer made.0) ∷ made.1.before) }
        ensures refused { IfErr result (λ section.
            any_free (state_of C.limits section.after).names.timers ≡ false) }
        ensures nothing { IfErr result (λ section. section.after ≡ section.before) }
    {
        let mut shared = self.shared.lock(rt);
        let (made, wake) = shared.make_timer(&self.table);
        drop(shared);
        self.wake(wake);
        made
    }

    /// Changes a timer; the waits that this cancels complete with operation_aborted. No effect where its name
    /// is gone.
    fn change_timer<R: Wait>(&self, rt: &R, timer: Name, change: TimerChange) -> Section<C>
        ensures { result.after ≡ changed_by C.limits timer change result.before }
    {
        let mut shared = self.shared.lock(rt);
        let (section, wake) = shared.change_timer(&self.table, timer, change);
        drop(shared);
        self.wake(wake);
        section
    }

    /// Sets the expiry of a timer, in nanoseconds since the context was made
    /// (`basic_waitable_timer::expires_at`). What waits on it completes with operation_aborted. No effect
    /// where its name is gone.
    pub fn expires_at<R: Wait>(&self, rt: &R, timer: Name, at: u64) -> Section<C>
        ensures { result.after ≡ changed_by C.limits timer (change.ExpiresAt at) result.before }
    {
        self.change_timer(rt, timer, TimerChange::ExpiresAt { at })
    }

    /// Likewise to so much later than now (`basic_waitable_timer::expires_after`), and answers the expiry.
    pub fn expires_after<R: Wait>(&self, rt: &R, timer: Name, after: Duration) -> (u64, Section<C>)
        ensures { result.1.after ≡ changed_by C.limits timer (change.ExpiresAt result.0) result.1.before }
    {
        let later = u64::try_from(after.as_nanos()).unwrap_or(u64::MAX);
        let at = self.reactor.now().saturating_add(later);
        (at, self.expires_at(rt, timer, at))
    }

    /// What waits on a timer completes with operation_aborted (`basic_waitable_timer::cancel`). No effect
    /// where its name is gone.
    pub fn cancel<R: Wait>(&self, rt: &R, timer: Name) -> Section<C>
        ensures { result.after ≡ changed_by C.limits timer change.Cancel result.before }
    {
        self.change_timer(rt, timer, TimerChange::Cancel)
    }

    /// The first that waits on a timer completes with operation_aborted
    /// (`basic_waitable_timer::cancel_one`). No effect where its name is gone.
    pub fn cancel_one<R: Wait>(&self, rt: &R, timer: Name) -> Section<C>
        ensures { result.after ≡ changed_by C.limits timer change.CancelOne result.before }
    {
        self.change_timer(rt, timer, TimerChange::CancelOne)
    }

    /// Destroys a timer: its name is gone, and what waits on it completes with operation_aborted. No effect
    /// where its name is gone already.
    pub fn free_timer<R: Wait>(&self, rt: &R, timer: Name) -> Section<C>
        ensures { result.after ≡ changed_by C.limits timer change.Free result.before }
    {
        self.change_timer(rt, timer, TimerChange::Free)
    }

    /// Waits for a timer (`basic_waitable_timer::async_wait`): the handler is ready once its expiry has
    /// passed, or once the wait is cancelled. Refused where the strand or the timer is gone, or no place is
    /// free: then it comes back.
    pub fn wait<R: Wait>(
        &self,
        rt: &R,
        lane: Lane,
        timer: Name,
        handler: H,
    ) -> Result<Receipt<C>, Refused<H, C>>
        ensures called { IfOk result (λ receipt. receipt.section.after
            ≡ event.Called receipt.op None (waiting_on lane timer (H.marks handler)) gone.Nothing ∷ receipt.section.before) }
        ensures refused { IfErr result (λ refused.
            WaitWasRefused C.limits lane timer refused.why refused.section.after) }
        ensures nothing { IfErr result (λ refused. refused.section.after ≡ refused.section.before) }
        ensures back { IfErr result (λ refused. refused.back ≡ handler) }
    {
        let mut shared = self.shared.lock(rt);
        let (called, wake) = shared.wait(&self.table, lane, timer, handler);
        drop(shared);
        self.wake(wake);
        called
    }
}
