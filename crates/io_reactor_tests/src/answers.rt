//! What a connection in memory answers, by the script of its peer; what is seen is written by hand.

use asio_types::{Code, NoMemory};
use io_reactor::{Edges, Linked, Reactor, Readiness, Transferred};
use io_reactor_memory::{
    ConnectScript, LinkEnd, MemoryPoll, MemoryReactor, MemorySocket, PeerScript, ReadEnd, Script,
    WriteEnd,
};
use io_rules::Name;
use std::alloc::Global;
use std::net::{Ipv4Addr, SocketAddr};
use std::process::Abort;
use std::sync::Wait;

/// What is done at a socket, or at the poll.
#[derive(Clone, Copy, Debug)]
enum Deed {
    Links,
    Reads,
    Writes(&'static [u8]),
    Shuts,
    Polls,
}

/// What it showed.
#[derive(Clone, Copy, Debug, PartialEq, Eq)]
enum Seen {
    Link(Linked),
    Gave(Transferred, [u8; 4]),
    Took(Transferred),
    Edge(Readiness, Readiness),
    Nothing,
}

const NAME: Name = Name {
    place: 2,
    generation: 7,
};

const WAITS: Transferred = Transferred::WouldBlock;

const NONE: [u8; 4] = [0; 4];

const EOF: Seen = Seen::Gave(Transferred::Failed(Code::Eof), NONE);

const RESET: Seen = Seen::Gave(Transferred::Failed(Code::Reset), NONE);

const BROKEN: Seen = Seen::Took(Transferred::Failed(Code::Broken));

/// What a peer does, what is done, and what is seen.
struct Row {
    linking: u32,
    link: LinkEnd,
    sends: &'static [&'static [u8]],
    sends_end: ReadEnd,
    takes: &'static [usize],
    takes_end: WriteEnd,
    steps: &'static [(Deed, Seen)],
    took: &'static [u8],
}

/// A piece is cut by the buffer, and ends with its last byte: behind it comes a pause, and then a piece
/// with the end right behind it, of which an edge tells once.
const READS: Row = Row {
    linking: 0,
    link: LinkEnd::Linked,
    sends: &[b"abcdef", b"", b"g"],
    sends_end: ReadEnd::Eof,
    takes: &[],
    takes_end: WriteEnd::Full,
    steps: &[
        (Deed::Reads, Seen::Gave(Transferred::Bytes(4), *b"abcd")),
        (Deed::Polls, Seen::Nothing),
        (Deed::Reads, Seen::Gave(Transferred::Bytes(2), *b"ef\0\0")),
        (Deed::Polls, Seen::Edge(Readiness::Ready, Readiness::Same)),
        (Deed::Reads, Seen::Gave(WAITS, NONE)),
        (Deed::Polls, Seen::Edge(Readiness::Closed, Readiness::Same)),
        (Deed::Reads, Seen::Gave(Transferred::Bytes(1), *b"g\0\0\0")),
        (Deed::Polls, Seen::Nothing),
        (Deed::Reads, EOF),
        (Deed::Reads, EOF),
    ],
    took: b"",
};

/// Room is cut by what is written, and the other way round; a refused write is told of an edge.
const WRITES: Row = Row {
    linking: 0,
    link: LinkEnd::Linked,
    sends: &[],
    sends_end: ReadEnd::Reset,
    takes: &[5, 0, 2],
    takes_end: WriteEnd::Broken,
    steps: &[
        (Deed::Writes(b"abc"), Seen::Took(Transferred::Bytes(3))),
        (Deed::Writes(b"def"), Seen::Took(Transferred::Bytes(2))),
        (Deed::Polls, Seen::Edge(Readiness::Same, Readiness::Ready)),
        (Deed::Writes(b"f"), Seen::Took(WAITS)),
        (Deed::Polls, Seen::Edge(Readiness::Same, Readiness::Closed)),
        (Deed::Writes(b"fg"), Seen::Took(Transferred::Bytes(2))),
        (Deed::Writes(b"h"), BROKEN),
        (Deed::Reads, RESET),
        (Deed::Polls, Seen::Nothing),
    ],
    took: b"abcdefg",
};

/// Nothing is taken behind a shutdown.
const SHUTS: Row = Row {
    linking: 0,
    link: LinkEnd::Linked,
    sends: &[],
    sends_end: ReadEnd::Open,
    takes: &[9],
    takes_end: WriteEnd::Full,
    steps: &[
        (Deed::Writes(b"ab"), Seen::Took(Transferred::Bytes(2))),
        (Deed::Shuts, Seen::Nothing),
        (Deed::Writes(b"c"), BROKEN),
        (Deed::Reads, Seen::Gave(WAITS, NONE)),
        (Deed::Polls, Seen::Nothing),
    ],
    took: b"ab",
};

/// A connect is under way at first, and then refused, each time that it is asked for.
const REFUSES: Row = Row {
    linking: 1,
    link: LinkEnd::Refused,
    sends: &[],
    sends_end: ReadEnd::Open,
    takes: &[],
    takes_end: WriteEnd::Full,
    steps: &[
        (Deed::Links, Seen::Link(Linked::WouldBlock)),
        (Deed::Polls, Seen::Edge(Readiness::Same, Readiness::Ready)),
        (Deed::Links, Seen::Link(Linked::Failed(Code::Reset))),
        (Deed::Links, Seen::Link(Linked::Failed(Code::Reset))),
    ],
    took: b"",
};

const ROWS: &[Row] = &[READS, WRITES, SHUTS, REFUSES];

fn pieces(alloc: Global, row: &Row) -> Result<Vec<Vec<u8>>, NoMemory> {
    let mut sends = Vec::new(alloc);
    for piece in row.sends {
        let mut bytes = Vec::new(alloc);
        bytes.extend_from_slice(piece)?;
        sends.push(bytes)?;
    }
    Ok(sends)
}

fn script_of(alloc: Global, row: &Row) -> Result<Script, NoMemory> {
    let mut takes = Vec::new(alloc);
    takes.extend_from_slice(row.takes)?;
    let peer = PeerScript::of(pieces(alloc, row)?, row.sends_end, takes, row.takes_end);
    let mut connects = Vec::new(alloc);
    connects.push(Some(ConnectScript {
        linking: row.linking,
        link: row.link,
        peer,
    }))?;
    Ok(Script {
        listeners: Vec::new(alloc),
        connects,
        clock: Vec::new(alloc),
        polls: Vec::new(alloc),
    })
}

fn polls<'s>(
    rt: &impl Wait,
    reactor: &MemoryReactor<'s>,
    poll: &mut MemoryPoll<'s>,
    edges: &mut Edges,
) -> Seen {
    let _ = reactor.poll(rt, poll, None, edges);
    match edges.as_slice() {
        [edge] if edge.name == NAME => Seen::Edge(edge.read, edge.write),
        _ => Seen::Nothing,
    }
}

fn step<'s>(reactor: &MemoryReactor<'s>, socket: &mut MemorySocket<'s>, deed: Deed) -> Seen {
    match deed {
        Deed::Links => Seen::Link(reactor.linked(socket)),
        Deed::Reads => {
            let mut buf = [0; 4];
            let answer = reactor.read_some(socket, &mut buf);
            Seen::Gave(answer, buf)
        }
        Deed::Writes(bytes) if !bytes.is_empty() => Seen::Took(reactor.write_some(socket, bytes)),
        Deed::Shuts => {
            reactor.shutdown(socket);
            Seen::Nothing
        }
        Deed::Writes(_) | Deed::Polls => Seen::Nothing,
    }
}

fn shows<R: Wait + Abort>(rt: &R, alloc: Global, row: &Row) -> Result<(), NoMemory> {
    let script = script_of(alloc, row)?;
    let mut edges = Edges::make(alloc)?;
    let (reactor, mut poll) = MemoryReactor::make(alloc, &script, 4)?;
    let address = SocketAddr::from((Ipv4Addr::LOCALHOST, 1));
    let Ok(mut socket) = reactor.connect(address, NAME) else {
        panic!(rt; "no socket")
    };
    for (deed, want) in row.steps {
        let seen = match deed {
            Deed::Polls => polls(rt, &reactor, &mut poll, &mut edges),
            _ => step(&reactor, &mut socket, *deed),
        };
        assert_eq!(rt; seen, *want, "{deed:?}");
    }
    reactor.close(socket);
    reactor.finish(poll);
    if let Some(Some(connect)) = script.connects.first() {
        assert_eq!(rt; connect.peer.took(), Some(row.took));
    }
    Ok(())
}

#[test]
fn a_connection_in_memory_plays_its_script(rt: HostRuntime) -> Result<(), NoMemory> {
    for row in ROWS {
        shows(&rt, rt.alloc(), row)?;
    }
    Ok(())
}
