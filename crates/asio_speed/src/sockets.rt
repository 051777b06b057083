ghost use Rattle.std.specs.Prelude.{◌≡◌, ◌<◌, All, IfOk, map};
ghost use Rattle.stream_rules.specs.World.{HasItsStreams};
ghost use Rattle.reactor_trait.specs.Reactor.{state_ready};

use crate::failure::Failure;
use crate::limits::{MOST_BYTES, MOST_STREAMS, MOST_TURNS, PIECE};
use crate::stopwatch::{Measured, Stopwatch};
use asio_types::{Bytes, Line, Lines, Moved, NoMemory, SetupFault, StreamNo, What, World};
use reactor_mio::MioReactor;
use reactor_trait::Reactor;
use std::alloc::Global;
use std::net::Net;
use std::rt::Clock;
use std::time::CpuClock;

/// These bytes arrive on a stream at time 0.
fn line_of(alloc: Global, stream: StreamNo, bytes: u32) -> Result<Line, NoMemory>
    ensures { IfOk result (λ line. line.stream ≡ stream) }
{
    let fed = vec![in alloc; b'x'; bytes as usize]?;
    Ok(Line {
        time: 0,
        stream,
        what: What::Feed(Bytes::of(fed)),
    })
}

/// A world with so many streams, on each of which so many bytes arrive at time 0.
fn world_of(alloc: Global, streams: u8, bytes: u32) -> Result<World, NoMemory>
    ensures { IfOk result HasItsStreams }
{
    let mut lines = Vec::with_capacity(alloc, streams as usize)?;
    for stream in 0..streams {
        lines.push(line_of(alloc, stream, bytes)?)?;
    }
    Ok(World {
        streams,
        lines: Lines::of(lines),
    })
}

/// Reads a piece of a stream; answers how many bytes came.
#[tactic(auto, using(crate::proofs::ReadyLemmas::ready_known, crate::proofs::ReadyLemmas::ready_open))]
fn read_piece<X: Reactor>(reactor: &mut X, world: &World, stream: StreamNo) -> u32
    requires ready { X.state reactor.old ≡ state_ready world.now }
    requires known { stream < world.now.streams }
    ensures ready { X.state reactor.new ≡ state_ready world.now }
{
    let mut piece = [0; PIECE];
    match reactor.read_some(stream, &mut piece) {
        Ok(Moved::Took(count)) => count,
        _ => 0,
    }
}

/// Reads a piece of each stream; answers how many bytes came.
fn turn<X: Reactor>(reactor: &mut X, world: &World) -> u64
    requires ready { X.state reactor.old ≡ state_ready world.now }
    ensures ready { X.state reactor.new ≡ state_ready world.now }
{
    let mut came: u64 = 0;
    for stream in 0..world.streams {
        came = came.saturating_add(read_piece(reactor, world, stream) as u64);
    }
    came
}

/// Reads the streams in turn until so many bytes came; answers how many did.
fn read_all<X: Reactor>(reactor: &mut X, world: &World, wanted: u64) -> u64
    requires ready { X.state reactor.old ≡ state_ready world.now }
{
    let mut came: u64 = 0;
    for _ in 0..MOST_TURNS {
        if came >= wanted {
            break;
        }
        came = came.saturating_add(turn(reactor, world));
    }
    came
}

/// Sets the reactor up, and reads all that its world brings.
fn reads<R: Clock + CpuClock, X: Reactor>(
    rt: &R,
    alloc: Global,
    reactor: &mut X,
    world: &World,
    wanted: u64,
) -> Result<Measured, Failure>
    requires { HasItsStreams world.now }
{
    match reactor.set_up(alloc, world) {
        Ok(()) => {}
        Err(SetupFault::Failed) => return Err(Failure::Network),
        Err(SetupFault::NoMemory) => return Err(Failure::NoMemory),
    }
    let watch = Stopwatch::begin(rt)?;
    let came = read_all(reactor, world, wanted);
    watch.end(rt, came)
}

/// `sockets STREAMS BYTES`: so many bytes go over each of so many streams of a reactor over
/// sockets, and are read by `read_some` stream by stream in turn. Counts the bytes that came.
pub(crate) fn read<R: Clock + CpuClock + Net + Copy>(
    rt: &R,
    alloc: Global,
    streams: u32,
    bytes: u32,
) -> Result<Measured, Failure> {
    if streams > MOST_STREAMS || bytes > MOST_BYTES {
        return Err(Failure::Usage);
    }
    let world = world_of(alloc, streams as u8, bytes)?;
    let mut reactor = MioReactor::make(*rt);
    reads(
        rt,
        alloc,
        &mut reactor,
        &world,
        streams as u64 * bytes as u64,
    )
}
