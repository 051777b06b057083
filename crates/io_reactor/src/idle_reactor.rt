ghost use Rattle.std.specs.Prelude.{◌≡◌, true, Some, [], IsOk, OnErr};
ghost use Rattle.asio_types.specs.Faults.{CountsFaults};
ghost use Rattle.io_reactor.specs.Peer.{silent_peer};

use crate::answer::{Accepted, Linked, Transferred};
use crate::edges::Edges;
use crate::reactor::Reactor;
use asio_types::{Code, Failed};
use io_rules::Name;
use std::net::SocketAddr;
use std::sync::Wait;

/// A reactor on which nothing ever happens: its clock stands at 0, no peer sends or takes a byte, and
/// no connection comes about. It tells its bytes, and never fails. Contexts that use neither a socket
/// nor a clock need no more.
pub struct IdleReactor;

/// A socket of it.
pub struct IdleSocket {
    name: Name,
    /// Whether nothing more is to be written.
    shut: bool,
}

/// Its poll, which never waits.
pub struct IdlePoll;

impl IdleReactor {
    /// A reactor and its poll. Takes no memory.
    pub fn make() -> (IdleReactor, IdlePoll) {
        (IdleReactor, IdlePoll)
    }
}

impl IdleSocket {
    fn of(name: Name) -> IdleSocket
        ensures { result.name ≡ name }
    {
        IdleSocket { name, shut: false }
    }
}

impl Reactor for IdleReactor {
    type Socket = IdleSocket;

    type Poll = IdlePoll;

    ghost tells = { λ r. true };

    ghost name_of = { λ s. s.name };

    ghost told = { λ s. Some (silent_peer s.shut) };

    ghost faults = { λ p. 0 };

    fn now(&self) -> u64 {
        0
    }

    fn wake(&self) {}

    /// Never fails.
    fn listen(&self, _address: SocketAddr, name: Name) -> Result<IdleSocket, Failed> {
        Ok(IdleSocket::of(name))
    }

    /// Never fails.
    fn connect(&self, _address: SocketAddr, name: Name) -> Result<IdleSocket, Failed> {
        Ok(IdleSocket::of(name))
    }

    fn local_endpoint(&self, _socket: &IdleSocket) -> Option<SocketAddr> {
        None
    }

    fn accept(&self, _listener: &mut IdleSocket, _name: Name) -> Accepted<IdleSocket> {
        Accepted::WouldBlock
    }

    fn linked(&self, _socket: &mut IdleSocket) -> Linked {
        Linked::WouldBlock
    }

    fn read_some(&self, _socket: &mut IdleSocket, _buf: &mut [u8]) -> Transferred {
        Transferred::WouldBlock
    }

    fn write_some(&self, socket: &mut IdleSocket, _bytes: &[u8]) -> Transferred {
        if socket.shut {
            Transferred::Failed(Code::Broken)
        } else {
            Transferred::WouldBlock
        }
    }

    fn shutdown(&self, socket: &mut IdleSocket) {
        socket.shut = true;
    }

    fn no_delay(&self, _socket: &mut IdleSocket, _on: bool) {}

    fn close(&self, socket: IdleSocket) {
        let IdleSocket { name: _, shut: _ } = socket;
    }

    /// Never waits, and finds nothing.
    fn poll<R: Wait>(
        &self,
        _rt: &R,
        _poll: &mut IdlePoll,
        _timeout: Option<u64>,
        edges: &mut Edges,
    ) -> Result<(), Failed>
        ensures answer { IsOk result }
        ensures none { edges.new ≡ [] }
        ensures failed { OnErr result (edges.new ≡ []) }
        ensures counts { CountsFaults result 0 0 }
    {
        edges.clear();
        Ok(())
    }

    fn finish(self, poll: IdlePoll) {
        let IdlePoll = poll;
        let IdleReactor = self;
    }
}
