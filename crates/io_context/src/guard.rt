ghost use Rattle.std.specs.Prelude.{◌≡◌, ◌∷◌, nat_lt, if◌then◌else◌, None};
ghost use Rattle.std.specs.Option.{is_some};
ghost use Rattle.io_rules.specs.declared.control.Control.TheVariants as control;
ghost use Rattle.io_rules.specs.declared.event.Event.TheVariants as event;
ghost use Rattle.io_rules.specs.Legal.{state_of};
ghost use Rattle.io_scheduler.specs.Holding.{may_hold};

use crate::context::Context;
use io_handlers::Handler;
use io_history::Named;
use io_reactor::Reactor;
use io_scheduler::Section;
use std::marker::PhantomData;
use std::sync::Wait;

/// While it isn't given back, calls of `run` go on though nothing is left to do (`executor_work_guard`). It
/// can't be lost.
pub struct WorkGuard<C: Named> {
    of: PhantomData<C>,
}

impl<H: Handler, C: Named, W: Reactor> Context<H, C, W> {
    /// One more work guard; none exactly where 2^64 - 1 are there already.
    pub fn hold<R: Wait>(&self, rt: &R) -> (Option<WorkGuard<C>>, Section<C>)
        ensures held { is_some result.0 ≡ may_hold (state_of C.limits result.1.before) }
        ensures noted { result.1.after ≡ (if is_some result.0
            then event.Changed None control.Hold ∷ result.1.before else result.1.before) }
    {
        let mut shared = self.shared.lock(rt);
        let ((held, section), wake) = shared.hold(&self.table);
        drop(shared);
        self.wake(wake);
        if held {
            (Some(WorkGuard { of: PhantomData }), section)
        } else {
            (None, section)
        }
    }

    /// Gives a work guard back (`executor_work_guard::reset`).
    pub fn release<R: Wait>(&self, rt: &R, guard: WorkGuard<C>) -> Section<C>
        ensures { result.after ≡ (if nat_lt 0 (state_of C.limits result.before).holds
            then event.Changed None control.Release ∷ result.before else result.before) }
    {
        let WorkGuard { of: _ } = guard;
        let mut shared = self.shared.lock(rt);
        let (section, wake) = shared.release(&self.table);
        drop(shared);
        self.wake(wake);
        section
    }
}
