//! What a reactor in memory plays beside connections: what is accepted, polls that fail and edges
//! without cause, and the clock; and that threads may share it.

use asio_types::{Code, Failed, NoMemory};
use io_reactor::{Accepted, Edge, Edges, Reactor, Readiness, Transferred};
use io_reactor_memory::{
    ConnectScript, LinkEnd, MemoryReactor, MemorySocket, PeerScript, PollTurn, ReadEnd, Script,
    Visit, WriteEnd,
};
use io_rules::Name;
use std::alloc::Global;
use std::net::{Ipv4Addr, SocketAddr};
use std::thread;

const LISTENER: Name = Name {
    place: 0,
    generation: 3,
};

const MADE: Name = Name {
    place: 1,
    generation: 5,
};

fn any_address() -> SocketAddr {
    SocketAddr::from((Ipv4Addr::LOCALHOST, 1))
}

fn peer(alloc: Global, sends: &[u8]) -> Result<PeerScript, NoMemory> {
    let mut piece = Vec::new(alloc);
    piece.extend_from_slice(sends)?;
    let mut pieces = Vec::new(alloc);
    pieces.push(piece)?;
    Ok(PeerScript::of(pieces, ReadEnd::Eof, Vec::new(alloc), WriteEnd::Full))
}

fn empty_script(alloc: Global) -> Script {
    Script {
        listeners: Vec::new(alloc),
        connects: Vec::new(alloc),
        clock: Vec::new(alloc),
        polls: Vec::new(alloc),
    }
}

/// A listener on which a connection comes behind a pause, and then an error.
fn listener_script(alloc: Global) -> Result<Script, NoMemory> {
    let mut visits = Vec::new(alloc);
    visits.push(Visit::Later)?;
    visits.push(Visit::Comes(peer(alloc, b"hi")?))?;
    visits.push(Visit::Fails)?;
    let mut script = empty_script(alloc);
    script.listeners.push(Some(visits))?;
    Ok(script)
}

/// What an accept gave.
#[derive(Clone, Copy, Debug, PartialEq, Eq)]
enum Came {
    Later,
    Bytes(Transferred, [u8; 2]),
    Failed(Code),
}

/// Accepts a connection, reads from it, and closes it.
fn visit<'s>(reactor: &MemoryReactor<'s>, listener: &mut MemorySocket<'s>) -> Came {
    match reactor.accept(listener, MADE) {
        Accepted::WouldBlock => Came::Later,
        Accepted::Failed(code) => Came::Failed(code),
        Accepted::Made(socket) => {
            let mut socket = socket;
            let mut buf = [0; 2];
            let answer = reactor.read_some(&mut socket, &mut buf);
            reactor.close(socket);
            Came::Bytes(answer, buf)
        }
    }
}

#[test]
fn a_listener_in_memory_gives_its_visits(rt: HostRuntime) -> Result<(), NoMemory> {
    let alloc = rt.alloc();
    let script = listener_script(alloc)?;
    let mut edges = Edges::make(alloc)?;
    let (reactor, mut poll) = MemoryReactor::make(alloc, &script, 2)?;
    let Ok(mut listener) = reactor.listen(any_address(), LISTENER) else {
        panic!(rt; "no listener")
    };
    assert_eq!(rt; visit(&reactor, &mut listener), Came::Later);
    let _ = reactor.poll(&rt, &mut poll, None, &mut edges);
    let ready = Edge {
        name: LISTENER,
        read: Readiness::Ready,
        write: Readiness::Same,
    };
    assert_eq!(rt; edges.as_slice().first(), Some(&ready));
    let bytes = Came::Bytes(Transferred::Bytes(2), *b"hi");
    assert_eq!(rt; visit(&reactor, &mut listener), bytes);
    assert_eq!(rt; visit(&reactor, &mut listener), Came::Failed(Code::Reset));
    assert_eq!(rt; visit(&reactor, &mut listener), Came::Later);
    assert_eq!(rt; reactor.local_endpoint(&listener), Some(any_address()));
    reactor.close(listener);
    reactor.finish(poll);
    Ok(())
}

/// A spurious edge, a failure, and a clock that falls.
fn poll_script(alloc: Global) -> Result<Script, NoMemory> {
    let mut script = empty_script(alloc);
    script.clock.push(50)?;
    script.clock.push(40)?;
    script.polls.push(PollTurn::Fails)?;
    script.polls.push(PollTurn::Reports(Edge {
        name: MADE,
        read: Readiness::Same,
        write: Readiness::Closed,
    }))?;
    Ok(script)
}

#[test]
fn a_poll_in_memory_fails_reports_and_passes_time(rt: HostRuntime) -> Result<(), NoMemory> {
    let alloc = rt.alloc();
    let script = poll_script(alloc)?;
    let mut edges = Edges::make(alloc)?;
    let (reactor, mut poll) = MemoryReactor::make(alloc, &script, 2)?;
    assert_eq!(rt;
        reactor.poll(&rt, &mut poll, Some(7), &mut edges),
        Err(Failed)
    );
    assert_eq!(rt; reactor.now(), 50);
    assert_eq!(rt; reactor.poll(&rt, &mut poll, Some(7), &mut edges), Ok(()));
    assert_eq!(rt; edges.as_slice().len(), 1);
    assert_eq!(rt; reactor.now(), 40);
    reactor.wake();
    for want in [40, 47] {
        assert_eq!(rt; reactor.poll(&rt, &mut poll, Some(7), &mut edges), Ok(()));
        assert_eq!(rt; edges.as_slice().len(), 0);
        assert_eq!(rt; reactor.now(), want);
    }
    reactor.finish(poll);
    Ok(())
}

/// Reads one connection to its end; how many bytes came.
fn drains(reactor: &MemoryReactor<'_>, name: Name) -> usize {
    let Ok(mut socket) = reactor.connect(any_address(), name) else {
        return 0;
    };
    let mut count = 0;
    for _ in 0..10 {
        match reactor.read_some(&mut socket, &mut [0; 2]) {
            Transferred::Bytes(came) => count = came.saturating_add(count),
            Transferred::WouldBlock | Transferred::Failed(_) => {}
        }
    }
    reactor.close(socket);
    count
}

#[test]
fn two_threads_share_a_reactor_in_memory(rt: HostRuntime) -> Result<(), NoMemory> {
    let alloc = rt.alloc();
    let mut script = empty_script(alloc);
    for _ in 0..2 {
        script.connects.push(Some(ConnectScript {
            linking: 0,
            link: LinkEnd::Linked,
            peer: peer(alloc, b"bytes")?,
        }))?;
    }
    let (reactor, poll) = MemoryReactor::make(alloc, &script, 2)?;
    let (one, two) = thread::join(
        &rt,
        || drains(&reactor, LISTENER),
        || drains(&reactor, MADE),
    );
    assert_eq!(rt; (one, two), (5, 5));
    reactor.finish(poll);
    Ok(())
}
