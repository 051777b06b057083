ghost use Rattle.std.specs.Prelude.{◌≡◌, ◌<◌, None, false, length};
ghost use Rattle.io_reactor.specs.Answers.{MayRead, MayWrite};
ghost use Rattle.io_reactor_mio.specs.Gave.{KeepsReset, saw_reset};

use crate::mio_poll::MioPoll;
use crate::mio_socket::{End, MioSocket};
use crate::token::{WAKER, token_of};
use asio_types::{Code, Failed, SetupFault};
use io_reactor::{Accepted, Edges, Linked, MOST_EDGES, Reactor, Transferred};
use io_rules::Name;
use mio::net::{TcpListener, TcpStream};
use mio::{Events, Interest, Poll, Registry, Waker};
use std::alloc::Global;
use std::io;
use std::io::ErrorKind;
use std::net::{Net, SocketAddr};
use std::rt::Clock;
use std::sync::Wait;
use std::sync::atomic::{AtomicU64, Ordering};
use std::time::Instant;

/// How many connections that are gone before they are accepted one accept passes over.
const MOST_GONE: u32 = 1000;

/// A reactor over the system's sockets, whose readiness is told by edges, and its clock. It tells no
/// bytes: what the system does with them no contract says.
///
/// A system call that fails is an answer, a failing wait is counted, and a wake that the system refuses
/// is lost.
pub struct MioReactor<R: Net + Clock + Copy> {
    rt: R,
    registry: Registry,
    waker: Waker,
    start: Instant,
    /// What the clock read last.
    latest: AtomicU64,
}

impl<R: Net + Clock + Copy> MioReactor<R> {
    /// A reactor and its poll. Takes the memory of the events that one wait finds; `Failed` where the
    /// system refuses.
    pub fn make(rt: R, alloc: Global) -> Result<(MioReactor<R>, MioPoll), SetupFault> {
        let events = Events::with_capacity(alloc, MOST_EDGES).map_err(|_| SetupFault::NoMemory)?;
        let poll = Poll::new(&rt).map_err(|_| SetupFault::Failed)?;
        let registry = poll.registry().try_clone().map_err(|_| SetupFault::Failed)?;
        let waker = Waker::new(&registry, WAKER).map_err(|_| SetupFault::Failed)?;
        let start = Instant::now(&rt).map_err(|_| SetupFault::Failed)?;
        let reactor = MioReactor {
            rt,
            registry,
            waker,
            start,
            latest: AtomicU64::new(0),
        };
        Ok((reactor, MioPoll::of(poll, events)))
    }

    fn listener(&self, address: SocketAddr, name: Name) -> io::Result<TcpListener> {
        let mut listener = TcpListener::bind(&self.rt, address)?;
        self.registry
            .register(&mut listener, token_of(name), Interest::READABLE)?;
        Ok(listener)
    }

    fn registered(&self, stream: TcpStream, name: Name) -> io::Result<TcpStream> {
        let mut stream = stream;
        let both = Interest::READABLE | Interest::WRITABLE;
        self.registry.register(&mut stream, token_of(name), both)?;
        Ok(stream)
    }

    fn connection(&self, address: SocketAddr, name: Name) -> io::Result<TcpStream> {
        self.registered(TcpStream::connect(&self.rt, address)?, name)
    }

    /// The next connection of a listener, registered under this name.
    fn next_of(&self, listener: &TcpListener, name: Name) -> io::Result<TcpStream> {
        for _ in 0..MOST_GONE {
            match listener.accept() {
                Ok((stream, _)) => return self.registered(stream, name),
                Err(error) => match error.kind() {
                    ErrorKind::Interrupted | ErrorKind::ConnectionAborted => {}
                    _ => return Err(error),
                },
            }
        }
        Err(io::Error::from(ErrorKind::ConnectionAborted))
    }
}

impl<R: Net + Clock + Copy> Reactor for MioReactor<R> {
    type Socket = MioSocket;

    type Poll = MioPoll;

    ghost tells = { λ r. false };

    ghost name_of = { λ s. s.name };

    ghost told = { λ s. None };

    ghost faults = { λ p. p };

    /// Where the clock can't be read, it stands still.
    fn now(&self) -> u64 {
        match self.start.elapsed(&self.rt) {
            Ok(passed) => {
                let now = u64::try_from(passed.as_nanos()).unwrap_or(u64::MAX);
                self.latest.store(now, Ordering::SeqCst);
                now
            }
            Err(_) => self.latest.load(Ordering::SeqCst),
        }
    }

    fn wake(&self) {
        let _ = self.waker.wake();
    }

    fn listen(&self, address: SocketAddr, name: Name) -> Result<MioSocket, Failed> {
        match self.listener(address, name) {
            Ok(listener) => Ok(MioSocket::of(name, End::Listener(listener))),
            Err(_) => Err(Failed),
        }
    }

    fn connect(&self, address: SocketAddr, name: Name) -> Result<MioSocket, Failed> {
        match self.connection(address, name) {
            Ok(stream) => Ok(MioSocket::of(name, End::Stream(stream))),
            Err(_) => Err(Failed),
        }
    }

    fn local_endpoint(&self, socket: &MioSocket) -> Option<SocketAddr> {
        socket.local_endpoint()
    }

    fn accept(&self, listener: &mut MioSocket, name: Name) -> Accepted<MioSocket> {
        let End::Listener(listener) = listener.end() else {
            return Accepted::Failed(Code::Reset);
        };
        match self.next_of(listener, name) {
            Ok(stream) => Accepted::Made(MioSocket::of(name, End::Stream(stream))),
            Err(error) => match error.kind() {
                ErrorKind::WouldBlock => Accepted::WouldBlock,
                _ => Accepted::Failed(Code::Reset),
            },
        }
    }

    fn linked(&self, socket: &mut MioSocket) -> Linked {
        socket.linked()
    }

    /// A reset is kept, and outranks an end.
    fn read_some(&self, socket: &mut MioSocket, buf: &mut [u8]) -> Transferred
        requires room { 0 < length buf.old }
        ensures within { MayRead (length buf.old) result }
        ensures name { socket.new.name ≡ socket.old.name }
        ensures kept { KeepsReset socket.old.was_reset result }
        ensures reset { socket.new.was_reset ≡ saw_reset socket.old.was_reset result }
    {
        socket.read(buf)
    }

    /// A reset is kept, and outranks a broken pipe.
    fn write_some(&self, socket: &mut MioSocket, bytes: &[u8]) -> Transferred
        requires some { 0 < length bytes.now }
        ensures within { MayWrite (length bytes.now) result }
        ensures name { socket.new.name ≡ socket.old.name }
        ensures kept { KeepsReset socket.old.was_reset result }
        ensures reset { socket.new.was_reset ≡ saw_reset socket.old.was_reset result }
    {
        socket.write(bytes)
    }

    fn shutdown(&self, socket: &mut MioSocket) {
        socket.shut();
    }

    fn no_delay(&self, socket: &mut MioSocket, on: bool) {
        socket.no_delay(on);
    }

    fn close(&self, socket: MioSocket) {
        socket.close(&self.registry);
    }

    /// To the next millisecond, since the system waits in these.
    fn poll<W: Wait>(
        &self,
        _rt: &W,
        poll: &mut MioPoll,
        timeout: Option<u64>,
        edges: &mut Edges,
    ) -> Result<(), Failed> {
        poll.wait(timeout, edges)
    }

    fn finish(self, poll: MioPoll) {
        poll.destroy();
        let MioReactor {
            rt: _,
            registry: _,
            waker: _,
            start: _,
            latest: _,
        } = self;
    }
}
