use crate::failure::Failure;
use crate::limits::{MOST_BYTES, MOST_STREAMS, MOST_TURNS, PIECE};
use crate::stopwatch::{Measured, Stopwatch};
use asio_types::Moved;
use mio::net::{TcpListener, TcpStream};
use reactor_mio::StreamSocket;
use std::alloc::Global;
use std::io;
use std::io::ErrorKind;
use std::net::{Ipv4Addr, Net, SocketAddr};
use std::rt::Clock;
use std::time::CpuClock;

/// How often a connection is asked for.
const MOST_TRIES: u32 = 1_000_000;

/// The two ends of a connection over 127.0.0.1.
#[derive(Drop)]
struct Pair {
    near: StreamSocket,
    far: StreamSocket,
    /// How many bytes the far end has still to write.
    left: usize,
}

impl Pair {
    /// The far end writes what is left, as far as the socket takes it.
    fn offer(&mut self, bytes: &[u8]) {
        let rest = &bytes[..self.left.min(bytes.len())];
        if rest.is_empty() {
            return;
        }
        if let Ok(Moved::Took(count)) = self.far.write(rest) {
            self.left = self.left.saturating_sub(count as usize);
        }
    }

    /// The near end reads a piece; answers how many bytes came.
    fn read_piece(&mut self) -> u32 {
        let mut piece = [0; PIECE];
        match self.near.read(&mut piece) {
            Ok(Moved::Took(count)) => count,
            _ => 0,
        }
    }
}

fn network<T>(gave: io::Result<T>) -> Result<T, Failure> {
    match gave {
        Ok(value) => Ok(value),
        Err(_) => Err(Failure::Network),
    }
}

/// The next connection, which was asked for.
fn accepted(listener: &TcpListener) -> Result<TcpStream, Failure> {
    for _ in 0..MOST_TRIES {
        match listener.accept() {
            Ok((stream, _)) => return Ok(stream),
            Err(error) => match error.kind() {
                ErrorKind::WouldBlock | ErrorKind::Interrupted => {}
                _ => return Err(Failure::Network),
            },
        }
    }
    Err(Failure::Network)
}

/// A connection whose far end has so many bytes to write.
fn pair_of<R: Net>(
    rt: &R,
    listener: &TcpListener,
    address: SocketAddr,
    bytes: u32,
) -> Result<Pair, Failure> {
    let near = network(TcpStream::connect(rt, address))?;
    let far = accepted(listener)?;
    network(near.set_nodelay(true))?;
    network(far.set_nodelay(true))?;
    Ok(Pair {
        near: StreamSocket::of(near),
        far: StreamSocket::of(far),
        left: bytes as usize,
    })
}

/// So many connections. The listener is gone once they stand.
fn open_pairs<R: Net>(rt: &R, alloc: Global, count: u32, bytes: u32) -> Result<Vec<Pair>, Failure> {
    let any = SocketAddr::from((Ipv4Addr::LOCALHOST, 0));
    let listener = network(TcpListener::bind(rt, any))?;
    let address = network(listener.local_addr())?;
    let mut pairs = Vec::with_capacity(alloc, count as usize)?;
    for _ in 0..count {
        let pair = pair_of(rt, &listener, address, bytes)?;
        if pairs.push(pair).is_err() {
            return Err(Failure::NoMemory);
        }
    }
    Ok(pairs)
}

/// Each far end writes, and each near end reads a piece; answers how many bytes came.
fn turn(pairs: &mut [Pair], bytes: &[u8]) -> u64 {
    let mut came: u64 = 0;
    for pair in pairs {
        pair.offer(bytes);
        came = came.saturating_add(pair.read_piece() as u64);
    }
    came
}

/// Turns until so many bytes came; answers how many did.
fn read_all(pairs: &mut [Pair], bytes: &[u8], wanted: u64) -> u64 {
    let mut came: u64 = 0;
    for _ in 0..MOST_TURNS {
        if came >= wanted {
            break;
        }
        came = came.saturating_add(turn(pairs, bytes));
    }
    came
}

/// `pairs STREAMS BYTES`: what `sockets` does, over connections alone, with the same reads in the
/// same turns.
pub(crate) fn read<R: Clock + CpuClock + Net>(
    rt: &R,
    alloc: Global,
    streams: u32,
    bytes: u32,
) -> Result<Measured, Failure> {
    if streams > MOST_STREAMS || bytes > MOST_BYTES {
        return Err(Failure::Usage);
    }
    let fed = vec![in alloc; b'x'; bytes as usize]?;
    let mut pairs = open_pairs(rt, alloc, streams, bytes)?;
    let watch = Stopwatch::begin(rt)?;
    let came = read_all(
        pairs.as_mut_slice(),
        fed.as_slice(),
        streams as u64 * bytes as u64,
    );
    watch.end(rt, came)
}
