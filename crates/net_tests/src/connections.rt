//! The near end of a connection whose far end the test holds; what is seen is written by hand.

use crate::player::{Seen, is_seen};
use asio_types::Moved;
use mio::net::TcpStream;
use reactor_mio::StreamSocket;
use std::io::{Read, Write};
use std::net::{Ipv4Addr, Net, Shutdown, SocketAddr};
use std::process::Abort;
use std::{io, net};

/// What is done at either end.
#[derive(Clone, Copy)]
enum Deed {
    FarWrites(&'static [u8]),
    FarReads,
    FarEnds,
    FarLeaves,
    Reads,
    Writes(&'static [u8]),
}

#[derive(Drop)]
struct Connection {
    near: StreamSocket,
    far: Option<net::TcpStream>,
}

impl Connection {
    fn of<R: Net<Listener = net::TcpListener, Stream = net::TcpStream>>(
        rt: &R,
    ) -> io::Result<Connection> {
        let any = SocketAddr::from((Ipv4Addr::LOCALHOST, 0));
        let listener = net::TcpListener::bind(rt, any)?;
        let near = net::TcpStream::connect(rt, listener.local_addr()?)?;
        near.set_nonblocking(true)?;
        let (far, _) = listener.accept()?;
        Ok(Connection {
            near: StreamSocket::of(TcpStream::from_std(near)),
            far: Some(far),
        })
    }

    fn reads(&mut self) -> Seen {
        let mut buf = [0; 4];
        match self.near.read(&mut buf) {
            Ok(moved) => Seen::Gave(moved, buf),
            Err(_) => Seen::Failed,
        }
    }

    fn writes(&mut self, bytes: &[u8]) -> Seen {
        if bytes.is_empty() {
            return Seen::NotAllowed;
        }
        match self.near.write(bytes) {
            Ok(moved) => Seen::Took(moved),
            Err(_) => Seen::Failed,
        }
    }

    fn step(&mut self, deed: Deed) -> Seen {
        match deed {
            Deed::Reads => self.reads(),
            Deed::Writes(bytes) => self.writes(bytes),
            Deed::FarLeaves => {
                self.far = None;
                Seen::Ready
            }
            _ => match &mut self.far {
                Some(far) => far_does(far, deed),
                None => Seen::NotAllowed,
            },
        }
    }
}

fn is_done(done: io::Result<()>) -> Seen {
    match done {
        Ok(()) => Seen::Ready,
        Err(_) => Seen::Failed,
    }
}

fn far_reads(far: &mut net::TcpStream) -> Seen {
    let mut buf = [0; 4];
    match far.read(&mut buf) {
        Ok(count) => Seen::Received(count, buf),
        Err(_) => Seen::Failed,
    }
}

fn far_does(far: &mut net::TcpStream, deed: Deed) -> Seen {
    match deed {
        Deed::FarWrites(bytes) => is_done(far.write_all(bytes)),
        Deed::FarReads => far_reads(far),
        Deed::FarEnds => is_done(far.shutdown(Shutdown::Write)),
        _ => Seen::NotAllowed,
    }
}

const NONE: [u8; 4] = [0; 4];

const END: Seen = Seen::Gave(Moved::End, NONE);

const RESET: Seen = Seen::Gave(Moved::Reset, NONE);

type Row = &'static [(Deed, Seen)];

/// Bytes go both ways, and writes go on after an end.
const ENDS: Row = &[
    (Deed::Reads, Seen::Gave(Moved::NotYet, NONE)),
    (Deed::FarWrites(b"abcde"), Seen::Ready),
    (Deed::Reads, Seen::Gave(Moved::Took(4), *b"abcd")),
    (Deed::FarEnds, Seen::Ready),
    (Deed::Reads, Seen::Gave(Moved::Took(1), *b"e\0\0\0")),
    (Deed::Reads, END),
    (Deed::Reads, END),
    (Deed::Writes(b"xyz"), Seen::Took(Moved::Took(3))),
    (Deed::FarReads, Seen::Received(3, *b"xyz\0")),
    (Deed::Writes(b"!"), Seen::Took(Moved::Took(1))),
    (Deed::FarReads, Seen::Received(1, *b"!\0\0\0")),
];

/// The far end leaves with a byte unread, which is a reset: it is told behind the bytes that came
/// before it, each time.
const RESETS_READS: Row = &[
    (Deed::FarWrites(b"abc"), Seen::Ready),
    (Deed::Writes(b"x"), Seen::Took(Moved::Took(1))),
    (Deed::FarLeaves, Seen::Ready),
    (Deed::Reads, Seen::Gave(Moved::Took(3), *b"abc\0")),
    (Deed::Reads, RESET),
    (Deed::Reads, RESET),
    (Deed::Writes(b"y"), Seen::Took(Moved::Reset)),
    (Deed::Writes(b"y"), Seen::Took(Moved::Reset)),
    (Deed::Reads, RESET),
];

/// The same where a write is the first to be told: what came before can still be read.
const RESETS_WRITES: Row = &[
    (Deed::FarWrites(b"abc"), Seen::Ready),
    (Deed::Writes(b"x"), Seen::Took(Moved::Took(1))),
    (Deed::FarLeaves, Seen::Ready),
    (Deed::Writes(b"y"), Seen::Took(Moved::Reset)),
    (Deed::Writes(b"y"), Seen::Took(Moved::Reset)),
    (Deed::Reads, Seen::Gave(Moved::Took(3), *b"abc\0")),
    (Deed::Reads, RESET),
    (Deed::Reads, RESET),
];

/// The far end leaves with nothing unread: one more write is taken, and then the pipe is broken.
const BREAKS: Row = &[
    (Deed::FarLeaves, Seen::Ready),
    (Deed::Reads, END),
    (Deed::Writes(b"x"), Seen::Took(Moved::Took(1))),
    (Deed::Writes(b"x"), Seen::Took(Moved::End)),
    (Deed::Writes(b"x"), Seen::Took(Moved::End)),
    (Deed::Reads, END),
];

const ROWS: &[Row] = &[ENDS, RESETS_READS, RESETS_WRITES, BREAKS];

fn shows<R: Abort + Net<Listener = net::TcpListener, Stream = net::TcpStream>>(
    rt: &R,
    row: usize,
    steps: Row,
) -> io::Result<()> {
    let mut connection = Connection::of(rt)?;
    for (at, (deed, want)) in steps.iter().enumerate() {
        is_seen(rt, connection.step(*deed), *want, row, at);
    }
    Ok(())
}

/// An end that connects to an address at which nobody listens any more.
fn refused<R: Net<Listener = net::TcpListener, Stream = net::TcpStream>>(
    rt: &R,
) -> io::Result<Connection> {
    let any = SocketAddr::from((Ipv4Addr::LOCALHOST, 0));
    let address = net::TcpListener::bind(rt, any)?.local_addr()?;
    Ok(Connection {
        near: StreamSocket::of(TcpStream::connect(rt, address)?),
        far: None,
    })
}

/// A failing call is no wait: the read that is told of the refusal fails.
#[test]
fn a_refused_connection_fails(rt: HostRuntime) -> io::Result<()> {
    let mut connection = refused(&rt)?;
    is_seen(&rt, connection.reads(), Seen::Failed, 0, 0);
    Ok(())
}

#[test]
fn a_connection_ends_is_reset_or_breaks(rt: HostRuntime) -> io::Result<()> {
    for (row, steps) in ROWS.iter().enumerate() {
        shows(&rt, row, steps)?;
    }
    Ok(())
}

/// Writes pieces until one isn't taken; what that one answered.
fn answer_when_full(near: &mut StreamSocket) -> Seen {
    let piece = [7; 4096];
    for _ in 0..MOST_PIECES {
        match near.write(&piece) {
            Ok(Moved::Took(_)) => {}
            Ok(moved) => return Seen::Took(moved),
            Err(_) => return Seen::Failed,
        }
    }
    Seen::NotAllowed
}

/// More than a socket holds that nobody reads from: 64 MB.
const MOST_PIECES: u32 = 16_384;

#[test]
fn a_full_socket_takes_nothing_yet(rt: HostRuntime) -> io::Result<()> {
    let mut connection = Connection::of(&rt)?;
    for at in 0..2 {
        let seen = answer_when_full(&mut connection.near);
        is_seen(&rt, seen, Seen::Took(Moved::NotYet), 0, at);
    }
    Ok(())
}
