use crate::context::Context;
use crate::shared::Shared;
use io_handlers::Handler;
use io_history::Named;
use io_reactor::Reactor;
use std::hint::spin_loop;
use std::sync::{MutexGuard, Wait};

/// How often a worker that finds the lock taken looks again before it sleeps.
const LOOKS: u32 = 40;

/// How long it keeps out of the way before its first look. Where handlers are short, another worker that
/// comes in at once makes each execution dearer for both.
const SHORTEST: u32 = 8;

/// How often this time is doubled from look to look.
const DOUBLED: u32 = 7;

/// Keeps out of the way for a while, the longer the more often a worker has looked.
fn keep_out(looks: u32) {
    let doubled = looks.min(DOUBLED);
    for _ in 0..SHORTEST << doubled {
        spin_loop();
    }
}

impl<H: Handler, C: Named, W: Reactor> Context<H, C, W> {
    /// Takes the lock of what a context keeps.
    #[inline(always)]
    pub(crate) fn enter<R: Wait>(&self, rt: &R) -> MutexGuard<'_, Shared<H, C, W::Socket>> {
        match self.shared.try_lock() {
            Some(shared) => shared,
            None => self.enter_later(rt),
        }
    }

    /// Likewise, where it was taken.
    #[inline(never)]
    fn enter_later<R: Wait>(&self, rt: &R) -> MutexGuard<'_, Shared<H, C, W::Socket>> {
        for looks in 0..LOOKS {
            keep_out(looks);
            if let Some(shared) = self.shared.try_lock() {
                return shared;
            }
        }
        self.shared.lock(rt)
    }
}
