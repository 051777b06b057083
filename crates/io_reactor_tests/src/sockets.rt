//! The reactor over the system's sockets, on 127.0.0.1.

use asio_types::Code;
use io_reactor::{Accepted, Edges, Linked, Reactor, Readiness, Transferred};
use io_reactor_mio::{MioPoll, MioReactor, MioSocket};
use io_rules::Name;
use std::net::{Ipv4Addr, Net, SocketAddr};
use std::process::Abort;
use std::rt::Clock;
use std::sync::Wait;
use std::thread;

/// How often an edge is waited for, 100 milliseconds at most each time.
const MOST_WAITS: u32 = 50;

const PAUSE: u64 = 100_000_000;

const LISTENER: Name = Name {
    place: 0,
    generation: 1,
};

const NEAR: Name = Name {
    place: 1,
    generation: 70_000,
};

const FAR: Name = Name {
    place: 70_000,
    generation: 2,
};

/// A reactor with what waits for it.
struct Desk<R: Net + Clock + Copy> {
    rt: R,
    reactor: MioReactor<R>,
    poll: MioPoll,
    edges: Edges,
}

impl<R: Net + Clock + Copy + Wait + Abort + AllocGlobal> Desk<R> {
    fn open(rt: R) -> Desk<R> {
        let Ok(edges) = Edges::make(rt.alloc()) else {
            panic!(rt; "no memory")
        };
        let Ok((reactor, poll)) = MioReactor::make(rt, rt.alloc()) else {
            panic!(rt; "no reactor")
        };
        Desk {
            rt,
            reactor,
            poll,
            edges,
        }
    }

    fn finish(self) {
        let Desk {
            rt: _,
            reactor,
            poll,
            edges: _,
        } = self;
        reactor.finish(poll);
    }

    /// The edges of this name in one wait: what they say of reads and of writes.
    fn waits(&mut self, name: Name) -> (Readiness, Readiness) {
        let _ = self
            .reactor
            .poll(&self.rt, &mut self.poll, Some(PAUSE), &mut self.edges);
        for edge in self.edges.as_slice() {
            if edge.name == name {
                return (edge.read, edge.write);
            }
        }
        (Readiness::Same, Readiness::Same)
    }

    /// Whether reads of this name become so.
    fn sees(&mut self, name: Name, wanted: Readiness) -> bool {
        for _ in 0..MOST_WAITS {
            let (read, _) = self.waits(name);
            if read == wanted {
                return true;
            }
        }
        false
    }

    fn accepts(&mut self, listener: &mut MioSocket) -> MioSocket {
        for _ in 0..MOST_WAITS {
            match self.reactor.accept(listener, FAR) {
                Accepted::Made(socket) => return socket,
                Accepted::WouldBlock => {
                    self.waits(LISTENER);
                }
                Accepted::Failed(_) => panic!(self.rt; "an accept has failed"),
            }
        }
        panic!(self.rt; "no connection came")
    }

    fn links(&mut self, socket: &mut MioSocket) -> Linked {
        for _ in 0..MOST_WAITS {
            match self.reactor.linked(socket) {
                Linked::WouldBlock => {
                    self.waits(NEAR);
                }
                linked => return linked,
            }
        }
        Linked::WouldBlock
    }

    fn listens(&self) -> (MioSocket, SocketAddr) {
        let any = SocketAddr::from((Ipv4Addr::LOCALHOST, 0));
        let Ok(listener) = self.reactor.listen(any, LISTENER) else {
            panic!(self.rt; "no listener")
        };
        match self.reactor.local_endpoint(&listener) {
            Some(address) => (listener, address),
            None => panic!(self.rt; "no address"),
        }
    }

    fn connects(&self, address: SocketAddr) -> MioSocket {
        match self.reactor.connect(address, NEAR) {
            Ok(socket) => socket,
            Err(_) => panic!(self.rt; "no socket"),
        }
    }

    /// Both ends of a connection.
    fn pair(&mut self) -> (MioSocket, MioSocket) {
        let (mut listener, address) = self.listens();
        let mut near = self.connects(address);
        let far = self.accepts(&mut listener);
        assert_eq!(self.rt; self.links(&mut near), Linked::Linked);
        self.reactor.close(listener);
        (near, far)
    }

    /// What a read gives once it needn't wait.
    fn reads(&mut self, socket: &mut MioSocket, name: Name) -> (Transferred, [u8; 4]) {
        let mut buf = [0; 4];
        for _ in 0..MOST_WAITS {
            match self.reactor.read_some(socket, &mut buf) {
                Transferred::WouldBlock => {
                    self.waits(name);
                }
                answer => return (answer, buf),
            }
        }
        (Transferred::WouldBlock, buf)
    }
}

#[test]
fn bytes_go_both_ways(rt: HostRuntime) {
    let mut desk = Desk::open(rt);
    let (mut near, mut far) = desk.pair();
    desk.reactor.no_delay(&mut near, true);
    let waits = desk.reactor.read_some(&mut far, &mut [0; 4]);
    assert_eq!(rt; waits, Transferred::WouldBlock);
    let wrote = desk.reactor.write_some(&mut near, b"abc");
    assert_eq!(rt; wrote, Transferred::Bytes(3));
    assert!(rt; desk.sees(FAR, Readiness::Ready));
    assert_eq!(rt;
        desk.reads(&mut far, FAR),
        (Transferred::Bytes(3), *b"abc\0")
    );
    let wrote = desk.reactor.write_some(&mut far, b"xy");
    assert_eq!(rt; wrote, Transferred::Bytes(2));
    assert_eq!(rt;
        desk.reads(&mut near, NEAR),
        (Transferred::Bytes(2), *b"xy\0\0")
    );
    desk.reactor.close(near);
    desk.reactor.close(far);
    desk.finish();
}

#[test]
fn an_end_right_behind_the_last_byte_is_told(rt: HostRuntime) {
    let mut desk = Desk::open(rt);
    let (mut near, mut far) = desk.pair();
    let wrote = desk.reactor.write_some(&mut near, b"abc");
    assert_eq!(rt; wrote, Transferred::Bytes(3));
    desk.reactor.shutdown(&mut near);
    assert!(rt; desk.sees(FAR, Readiness::Closed));
    assert_eq!(rt;
        desk.reads(&mut far, FAR),
        (Transferred::Bytes(3), *b"abc\0")
    );
    let end = desk.reactor.read_some(&mut far, &mut [0; 4]);
    assert_eq!(rt; end, Transferred::Failed(Code::Eof));
    let broken = desk.reactor.write_some(&mut near, b"d");
    assert_eq!(rt; broken, Transferred::Failed(Code::Broken));
    let wrote = desk.reactor.write_some(&mut far, b"x");
    assert_eq!(rt; wrote, Transferred::Bytes(1));
    assert_eq!(rt;
        desk.reads(&mut near, NEAR),
        (Transferred::Bytes(1), *b"x\0\0\0")
    );
    desk.reactor.close(near);
    desk.reactor.close(far);
    desk.finish();
}

#[test]
fn a_reset_is_told_each_time(rt: HostRuntime) {
    let mut desk = Desk::open(rt);
    let (mut near, far) = desk.pair();
    let wrote = desk.reactor.write_some(&mut near, b"unread");
    assert_eq!(rt; wrote, Transferred::Bytes(6));
    desk.reactor.close(far);
    let reset = Transferred::Failed(Code::Reset);
    assert_eq!(rt; desk.reads(&mut near, NEAR).0, reset);
    assert_eq!(rt; desk.reactor.read_some(&mut near, &mut [0; 4]), reset);
    assert_eq!(rt; desk.reactor.write_some(&mut near, b"x"), reset);
    desk.reactor.close(near);
    desk.finish();
}

#[test]
fn a_connect_that_nobody_takes_is_refused_each_time(rt: HostRuntime) {
    let mut desk = Desk::open(rt);
    let (listener, address) = desk.listens();
    desk.reactor.close(listener);
    let mut near = desk.connects(address);
    let refused = Linked::Failed(Code::Reset);
    assert_eq!(rt; desk.links(&mut near), refused);
    assert_eq!(rt; desk.reactor.linked(&mut near), refused);
    desk.reactor.close(near);
    desk.finish();
}

#[test]
fn a_wait_ends_by_its_deadline_and_by_a_wake(rt: HostRuntime) {
    let mut desk = Desk::open(rt);
    let begin = desk.reactor.now();
    let waited = desk
        .reactor
        .poll(&rt, &mut desk.poll, Some(20_000_000), &mut desk.edges);
    assert_eq!(rt; waited, Ok(()));
    let end = desk.reactor.now();
    assert!(rt; end >= begin.saturating_add(20_000_000));
    let Desk {
        rt: _,
        reactor,
        mut poll,
        mut edges,
    } = desk;
    let (waited, _) = thread::join(
        &rt,
        || reactor.poll(&rt, &mut poll, None, &mut edges),
        || reactor.wake(),
    );
    assert_eq!(rt; waited, Ok(()));
    assert_eq!(rt; edges.as_slice().len(), 0);
    reactor.finish(poll);
}
