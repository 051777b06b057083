ghost use Rattle.std.specs.Prelude.{◌≡◌, false, None, [], IsOk, OnErr};
ghost use Rattle.asio_types.specs.Faults.{CountsFaults};

use crate::answer::{Accepted, Linked, Transferred};
use crate::edges::Edges;
use crate::reactor::Reactor;
use asio_types::Failed;
use io_rules::Name;
use std::net::SocketAddr;
use std::sync::{Condvar, CondvarTimeouts, Mutex, Wait};
use std::time::{Clock, Duration, Instant};

/// A reactor with the system's clock, and without sockets: it refuses to make one, and waiting never
/// fails. Contexts that use timers and no socket need no more.
pub struct ClockReactor<R: Wait + Clock + Copy> {
    rt: R,
    /// Where the clock began; where it can't be read it stands still.
    start: Option<Instant>,
    /// Whether a wake came that no wait has seen.
    woken: Mutex<bool>,
    wakes: Condvar,
}

/// A socket of it. None is ever made.
pub struct NoSocket {
    name: Name,
}

/// The right to wait at it.
pub struct ClockPoll;

impl<R: Wait + Clock + Copy> ClockReactor<R> {
    /// A reactor, whose clock begins, and its poll. Takes no memory.
    pub fn make(rt: R) -> (ClockReactor<R>, ClockPoll) {
        let reactor = ClockReactor {
            rt,
            start: Instant::now(&rt).ok(),
            woken: Mutex::new(false),
            wakes: Condvar::new(),
        };
        (reactor, ClockPoll)
    }

    /// How long the clock has run; `None` where it can't be read.
    fn passed(&self) -> Option<Duration> {
        self.start?.elapsed(&self.rt).ok()
    }
}

impl<R: Wait + Clock + Copy> Reactor for ClockReactor<R> {
    type Socket = NoSocket;

    type Poll = ClockPoll;

    ghost tells = { λ r. false };

    ghost name_of = { λ s. s.name };

    ghost told = { λ s. None };

    ghost faults = { λ p. 0 };

    fn now(&self) -> u64 {
        match self.passed() {
            Some(passed) => u64::try_from(passed.as_nanos()).unwrap_or(u64::MAX),
            None => 0,
        }
    }

    fn wake(&self) {
        let mut woken = self.woken.lock(&self.rt);
        *woken = true;
        drop(woken);
        self.wakes.notify_one();
    }

    /// Always fails.
    fn listen(&self, _address: SocketAddr, _name: Name) -> Result<NoSocket, Failed> {
        Err(Failed)
    }

    /// Always fails.
    fn connect(&self, _address: SocketAddr, _name: Name) -> Result<NoSocket, Failed> {
        Err(Failed)
    }

    fn local_endpoint(&self, _socket: &NoSocket) -> Option<SocketAddr> {
        None
    }

    fn accept(&self, _listener: &mut NoSocket, _name: Name) -> Accepted<NoSocket> {
        Accepted::WouldBlock
    }

    fn linked(&self, _socket: &mut NoSocket) -> Linked {
        Linked::WouldBlock
    }

    fn read_some(&self, _socket: &mut NoSocket, _buf: &mut [u8]) -> Transferred {
        Transferred::WouldBlock
    }

    fn write_some(&self, _socket: &mut NoSocket, _bytes: &[u8]) -> Transferred {
        Transferred::WouldBlock
    }

    fn shutdown(&self, _socket: &mut NoSocket) {}

    fn no_delay(&self, _socket: &mut NoSocket, _on: bool) {}

    fn close(&self, socket: NoSocket) {
        let NoSocket { name: _ } = socket;
    }

    /// Finds nothing, and never fails.
    fn poll<W: Wait>(
        &self,
        _rt: &W,
        _poll: &mut ClockPoll,
        timeout: Option<u64>,
        edges: &mut Edges,
    ) -> Result<(), Failed>
        ensures answer { IsOk result }
        ensures none { edges.new ≡ [] }
        ensures failed { OnErr result (edges.new ≡ []) }
        ensures counts { CountsFaults result 0 0 }
    {
        edges.clear();
        let mut woken = self.woken.lock(&self.rt);
        if !*woken {
            woken = match timeout {
                None => self.wakes.wait(&self.rt, woken),
                // (a wait of no length would give the processor away)
                Some(0) => woken,
                Some(left) => {
                    let left = Duration::from_nanos(left);
                    self.wakes.wait_timeout(&self.rt, woken, left).0
                }
            };
        }
        *woken = false;
        Ok(())
    }

    fn finish(self, poll: ClockPoll) {
        let ClockPoll = poll;
        let ClockReactor {
            rt: _,
            start: _,
            woken: _,
            wakes: _,
        } = self;
    }
}
