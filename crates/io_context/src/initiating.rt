ghost use Rattle.std.specs.Prelude.{◌≡◌, ◌∷◌, IfErr, IfOk, None, true};
ghost use Rattle.io_rules.specs.declared.event.Event.TheVariants as event;
ghost use Rattle.io_rules.specs.declared.operation.Operation.TheVariants as operation;
ghost use Rattle.io_rules.specs.declared.request.Gone.TheVariants as gone;
ghost use Rattle.io_rules.specs.Operations.{is_posting};
ghost use Rattle.io_context.specs.Refused.{WasRefused};
ghost use Rattle.io_scheduler.specs.Posted.{posting};

use crate::context::Context;
use crate::refused::Refused;
use io_handlers::Handler;
use io_history::Named;
use io_reactor::Reactor;
use io_rules::{Lane, Operation};
use io_scheduler::Receipt;
use std::sync::Wait;

impl<H: Handler, C: Named, W: Reactor> Context<H, C, W> {
    /// Posts a handler from outside of all handlers.
    fn initiate<R: Wait>(
        &self,
        rt: &R,
        lane: Lane,
        kind: Operation,
        handler: H,
    ) -> Result<Receipt<C>, Refused<H, C>>
        requires posting { is_posting kind ≡ true }
        ensures called { IfOk result (λ receipt. receipt.section.after
            ≡ event.Called receipt.op None (posting lane kind (H.marks handler)) gone.Nothing ∷ receipt.section.before) }
        ensures refused { IfErr result (λ refused. WasRefused C.limits lane refused.why refused.section.after) }
        ensures nothing { IfErr result (λ refused. refused.section.after ≡ refused.section.before) }
        ensures back { IfErr result (λ refused. refused.back ≡ handler) }
    {
        let mut shared = self.shared.lock(rt);
        let (called, wake) = shared.initiate(&self.table, lane, kind, handler);
        drop(shared);
        self.wake(wake);
        called
    }

    /// `post` from outside of all handlers: a handler that is ready behind all others there. Refused where
    /// the strand is gone, or no place is free: then it comes back.
    pub fn post<R: Wait>(&self, rt: &R, lane: Lane, handler: H) -> Result<Receipt<C>, Refused<H, C>>
        ensures called { IfOk result (λ receipt. receipt.section.after
            ≡ event.Called receipt.op None (posting lane operation.Post (H.marks handler)) gone.Nothing ∷ receipt.section.before) }
        ensures refused { IfErr result (λ refused. WasRefused C.limits lane refused.why refused.section.after) }
        ensures nothing { IfErr result (λ refused. refused.section.after ≡ refused.section.before) }
        ensures back { IfErr result (λ refused. refused.back ≡ handler) }
    {
        self.initiate(rt, lane, Operation::Post, handler)
    }

    /// `defer` from outside of all handlers: likewise.
    pub fn defer<R: Wait>(
        &self,
        rt: &R,
        lane: Lane,
        handler: H,
    ) -> Result<Receipt<C>, Refused<H, C>>
        ensures called { IfOk result (λ receipt. receipt.section.after
            ≡ event.Called receipt.op None (posting lane operation.Defer (H.marks handler)) gone.Nothing ∷ receipt.section.before) }
        ensures refused { IfErr result (λ refused. WasRefused C.limits lane refused.why refused.section.after) }
        ensures nothing { IfErr result (λ refused. refused.section.after ≡ refused.section.before) }
        ensures back { IfErr result (λ refused. refused.back ≡ handler) }
    {
        self.initiate(rt, lane, Operation::Defer, handler)
    }

    /// `dispatch` from outside of all handlers: likewise.
    pub fn dispatch<R: Wait>(
        &self,
        rt: &R,
        lane: Lane,
        handler: H,
    ) -> Result<Receipt<C>, Refused<H, C>>
        ensures called { IfOk result (λ receipt. receipt.section.after
            ≡ event.Called receipt.op None (posting lane operation.Dispatch (H.marks handler)) gone.Nothing ∷ receipt.section.before) }
        ensures refused { IfErr result (λ refused. WasRefused C.limits lane refused.why refused.section.after) }
        ensures nothing { IfErr result (λ refused. refused.section.after ≡ refused.section.before) }
        ensures back { IfErr result (λ refused. refused.back ≡ handler) }
    {
        self.initiate(rt, lane, Operation::Dispatch, handler)
    }
}
