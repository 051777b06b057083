use asio_types::Failed;
use io_reactor::{Edges, Reactor};
use std::sync::Wait;

/// The right to wait for a reactor, with what a wait finds.
pub(crate) struct Poller<W: Reactor> {
    pub(crate) poll: W::Poll,
    pub(crate) edges: Edges,
}

impl<W: Reactor> Poller<W> {
    /// Waits until something becomes ready, the clock comes to this time, or it is woken; it may end early.
    pub(crate) fn wait<R: Wait>(&mut self, rt: &R, reactor: &W, until: u64) -> Result<(), Failed> {
        let timeout = match until {
            0 => Some(0),
            u64::MAX => None,
            _ => Some(until.saturating_sub(reactor.now())),
        };
        reactor.poll(rt, &mut self.poll, timeout, &mut self.edges)
    }

    /// Ends its reactor.
    pub(crate) fn finish(self, reactor: W) {
        let Poller { poll, edges: _ } = self;
        reactor.finish(poll);
    }
}
