ghost use Rattle.std.specs.Prelude.{◌≡◌, ◌<◌, ◌+◌, [], IfOk, OnErr};

use asio_types::NoMemory;
use io_handlers::{Handler, Staging};
use io_history::Named;
use std::alloc::Global;
use std::marker::Model;
use std::sync::ledger::Share;

/// What a thread calls `run` with: room for what the handlers that it executes initiate, and its share of
/// them. Each thread has its own. Contracts see how many handlers it has executed.
pub struct Worker<H: Handler, C: Named> {
    // here while no handler executes
    pub(crate) staging: Option<Staging<H, H::State>>,
    pub(crate) share: Share<C>,
}

impl<H: Handler, C: Named> Model for Worker<H, C> {
    ghost use Rattle.std.specs.Prelude.{◌≡◌, [], Some};
    ghost use Rattle.std.specs.Option.{option_map};
    ghost use Rattle.io_handlers.specs.Initiated.{Initiated};
    ghost use Rattle.io_context.specs.Counted.{Work};

    ghost Value = { Work };

    ghost view = { λ w. record { executed = w.share.amount } };

    ghost invariant = { λ w. (option_map (λ (i : Initiated H H.State). i.staged) w.staging ≡ Some [])
        × (option_map (λ (i : Initiated H H.State). i.retired) w.staging ≡ Some [])
        × (w.share.parts ≡ 1) };
}

impl<H: Handler, C: Named> Worker<H, C> {
    /// Room for so many calls of a handler, and one part of a share. Takes memory for all of them;
    /// `NoMemory` where it is refused.
    pub(crate) fn with_room(
        alloc: Global,
        staged: u32,
        share: &mut Share<C>,
    ) -> Result<Worker<H, C>, NoMemory>
        requires { 1 < share.old.parts }
        ensures none { IfOk result (λ worker. worker.executed ≡ 0) }
        ensures cut { IfOk result (λ worker. share.new.parts + 1 ≡ share.old.parts) }
        ensures refused { OnErr result (share.new.parts ≡ share.old.parts) }
        ensures amount { share.new.amount ≡ share.old.amount }
    {
        let staging = Staging::with_room(alloc, staged.saturating_sub(1))?;
        Ok(Worker {
            staging: Some(staging),
            share: share.split_off(1, 0),
        })
    }

    /// Gives its memory back, and its share to this one.
    pub fn destroy(self, share: &mut Share<C>)
        ensures executed { share.new.amount ≡ share.old.amount + self.executed }
        ensures parts { share.new.parts ≡ share.old.parts + 1 }
    {
        let Worker {
            staging,
            share: own,
        } = self;
        share.merge(own);
        match staging {
            None => unreachable!(),
            Some(staging) => staging.destroy(),
        }
    }
}
