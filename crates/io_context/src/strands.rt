ghost use Rattle.std.specs.Prelude.{◌≡◌, ◌∷◌, if◌then◌else◌, IfErr, IfOk, None};
ghost use Rattle.io_rules.specs.declared.control.Control.TheVariants as control;
ghost use Rattle.io_rules.specs.declared.event.Event.TheVariants as event;
ghost use Rattle.io_rules.specs.declared.name.Kind.TheVariants as kind;
ghost use Rattle.io_rules.specs.Legal.{state_of};
ghost use Rattle.io_rules.specs.Names.{is_alive};
ghost use Rattle.io_context.specs.Refused.{NoStrandWasFree};

use crate::context::Context;
use crate::refused::Refused;
use io_handlers::Handler;
use io_history::Named;
use io_reactor::Reactor;
use io_rules::Name;
use io_scheduler::Section;
use std::sync::Wait;

impl<H: Handler, C: Named, W: Reactor> Context<H, C, W> {
    /// Makes a strand with this state (`make_strand`), which comes back where no strand is free.
    pub fn make_strand<R: Wait>(
        &self,
        rt: &R,
        state: H::State,
    ) -> Result<(Name, Section<C>), Refused<H::State, C>>
        ensures made { IfOk result (λ made. made.1.after
            ≡ event.Changed None (control.Make kind.Strand made.0) ∷ made.1.before) }
        ensures refused { IfErr result (λ refused. NoStrandWasFree C.limits refused.section.after) }
        ensures nothing { IfErr result (λ refused. refused.section.after ≡ refused.section.before) }
        ensures back { IfErr result (λ refused. refused.back ≡ state) }
    {
        let mut shared = self.shared.lock(rt);
        let (made, wake) = shared.make_strand(&self.table, state);
        drop(shared);
        self.wake(wake);
        made
    }

    /// The name of a strand is gone. What the strand has still executes, and then its state is retired. No
    /// effect where it is gone already.
    pub fn free_strand<R: Wait>(&self, rt: &R, name: Name) -> Section<C>
        ensures { result.after ≡ (if is_alive (state_of C.limits result.before).names.strands name
            then event.Changed None (control.Free kind.Strand name) ∷ result.before else result.before) }
    {
        let mut shared = self.shared.lock(rt);
        let ((freed, section), wake) = shared.free_strand(&self.table, name);
        drop(shared);
        self.wake(wake);
        match freed {
            None => {}
            Some(state) => H::retire(state),
        }
        section
    }
}
