//! A reactor over sockets that is played step by step, and what its caller knows of it.

ghost use Rattle.std.specs.Prelude.{◌≡◌, ◌<◌, ◌↔◌, IfOk, IsTrue, false, replicate};
ghost use Rattle.std.specs.Option.{ForSome};
ghost use Rattle.stream_rules.specs.World.{HasItsStreams};
ghost use Rattle.reactor_trait.specs.Reactor.{stream_count, IsOpen};

use asio_types::{Bytes, Line, Lines, Moved, NoMemory, Point, SetupFault, What, World};
use reactor_mio::MioReactor;
use reactor_trait::Reactor;
use std::alloc::Global;
use std::net::Net;
use std::process::Abort;

/// What a line of a world brings.
#[derive(Clone, Copy)]
pub(crate) enum Cue {
    Feed(&'static [u8]),
    End,
    Reset,
    Room(u32),
}

/// A call of the reactor.
#[derive(Clone, Copy)]
pub(crate) enum Step {
    SetUp,
    Advance(Option<u64>),
    Read(u8, usize),
    Write(u8, &'static [u8]),
    Close(u8),
    Received(u8),
}

/// What a call answered, with up to four bytes that were read or received.
#[derive(Clone, Copy, Debug, PartialEq, Eq)]
pub(crate) enum Seen {
    Ready,
    Refused(SetupFault),
    At(Point),
    Gave(Moved, [u8; 4]),
    Took(Moved),
    Closed,
    Received(usize, [u8; 4]),
    Failed,
    NotAllowed,
}

fn line_of(alloc: Global, time: u64, stream: u8, cue: Cue) -> Result<Line, NoMemory> {
    let what = match cue {
        Cue::Feed(bytes) => What::Feed(Bytes::from_slice(alloc, bytes)?),
        Cue::End => What::End,
        Cue::Reset => What::Reset,
        Cue::Room(count) => What::Room(count),
    };
    Ok(Line { time, stream, what })
}

pub(crate) fn world_of(
    alloc: Global,
    streams: u8,
    cues: &[(u64, u8, Cue)],
) -> Result<World, NoMemory> {
    let mut lines = Vec::new(alloc);
    for (time, stream, cue) in cues {
        lines.push(line_of(alloc, *time, *stream, *cue)?)?;
    }
    Ok(World {
        streams,
        lines: Lines::of(lines),
    })
}

fn has_its_streams(world: &World) -> bool
    ensures { IsTrue result ↔ HasItsStreams world.now }
{
    world
        .lines
        .as_slice()
        .iter()
        .all(|line| line.stream < world.streams)
}

fn first_bytes(bytes: &[u8]) -> [u8; 4] {
    let mut first = [0; 4];
    for (place, byte) in first.iter_mut().zip(bytes) {
        *place = *byte;
    }
    first
}

fn none_closed(alloc: Global, streams: u8) -> Result<Vec<bool>, NoMemory>
    ensures { IfOk result (λ closed. closed.items ≡ replicate streams false) }
{
    Ok(vec![in alloc; false; streams as usize]?)
}

/// At this step of this row this is seen.
pub(crate) fn is_seen<R: Abort>(rt: &R, seen: Seen, want: Seen, row: usize, at: usize) {
    assert_eq!(rt; seen, want, "row {row}, step {at}");
}

/// A reactor, and what its caller knows of it.
#[derive(Drop)]
pub(crate) struct Player<R: Net + Copy> {
    reactor: MioReactor<R>,
    up: bool,
    time: u64,
    closed: Vec<bool>,
    ghost is_up: { reactor.state.up ≡ up },
    ghost is_now: { reactor.state.now ≡ time },
    ghost is_closed: { reactor.state.closed ≡ closed.items },
}

impl<R: Net + Copy> Player<R> {
    pub(crate) fn of(rt: R, alloc: Global) -> Player<R> {
        Player {
            reactor: MioReactor::make(rt),
            up: false,
            time: 0,
            closed: Vec::new(alloc),
        }
    }

    fn set_up(&mut self, alloc: Global, world: &World) -> Seen {
        if !has_its_streams(world) {
            return Seen::NotAllowed;
        }
        let Ok(closed) = none_closed(alloc, world.streams) else {
            return Seen::Refused(SetupFault::NoMemory);
        };
        match self.reactor.set_up(alloc, world) {
            Ok(()) => {
                self.up = true;
                self.time = 0;
                self.closed = closed;
                Seen::Ready
            }
            Err(fault) => {
                self.up = false;
                Seen::Refused(fault)
            }
        }
    }

    /// A limit lies ahead.
    fn is_ahead(&self, limit: Option<u64>) -> bool
        ensures { IsTrue result → ForSome limit (λ time. self.now.reactor.state.now < time) }
    {
        match limit {
            Some(time) => self.time < time,
            None => true,
        }
    }

    fn advance(&mut self, limit: Option<u64>) -> Seen {
        if !self.up || !self.is_ahead(limit) {
            return Seen::NotAllowed;
        }
        match self.reactor.advance(limit) {
            Ok(Point::Time(time)) => {
                self.time = time;
                Seen::At(Point::Time(time))
            }
            Ok(Point::Last) => Seen::At(Point::Last),
            Err(_) => Seen::Failed,
        }
    }

    fn may_use(&self, stream: u8) -> bool
        ensures up { IsTrue result → IsTrue self.now.reactor.state.up }
        ensures known { IsTrue result → stream < stream_count self.now.reactor.state }
        ensures open { IsTrue result → IsOpen self.now.reactor.state stream }
    {
        self.up && (stream as usize) < self.closed.len() && !self.closed[stream as usize]
    }

    /// Reads once; none where the reactor fails, or the call isn't allowed.
    pub(crate) fn read_into(&mut self, stream: u8, buf: &mut [u8]) -> Option<Moved> {
        if !self.may_use(stream) || buf.is_empty() {
            return None;
        }
        self.reactor.read_some(stream, buf).ok()
    }

    fn read(&mut self, stream: u8, wanted: usize) -> Seen {
        let mut buf = [0u8; 4];
        let wanted = wanted.min(4);
        match self.read_into(stream, &mut buf[..wanted]) {
            Some(moved) => Seen::Gave(moved, buf),
            None => Seen::NotAllowed,
        }
    }

    /// Writes once; none where the reactor fails, or the call isn't allowed.
    pub(crate) fn write_from(&mut self, stream: u8, bytes: &[u8]) -> Option<Moved> {
        if !self.may_use(stream) || bytes.is_empty() {
            return None;
        }
        self.reactor.write_some(stream, bytes).ok()
    }

    fn write(&mut self, stream: u8, bytes: &[u8]) -> Seen {
        match self.write_from(stream, bytes) {
            Some(moved) => Seen::Took(moved),
            None => Seen::NotAllowed,
        }
    }

    fn close(&mut self, stream: u8) -> Seen {
        if !self.may_use(stream) {
            return Seen::NotAllowed;
        }
        self.reactor.close(stream);
        self.closed[stream as usize] = true;
        Seen::Closed
    }

    fn received(&self, stream: u8) -> Seen {
        let received = self.reactor.received(stream);
        Seen::Received(received.len(), first_bytes(received))
    }

    /// Whether the far end of a stream has received these bytes and no others.
    pub(crate) fn has_received(&self, stream: u8, bytes: &[u8]) -> bool {
        self.reactor.received(stream) == bytes
    }

    pub(crate) fn step(&mut self, alloc: Global, world: &World, step: Step) -> Seen {
        match step {
            Step::SetUp => self.set_up(alloc, world),
            Step::Advance(limit) => self.advance(limit),
            Step::Read(stream, wanted) => self.read(stream, wanted),
            Step::Write(stream, bytes) => self.write(stream, bytes),
            Step::Close(stream) => self.close(stream),
            Step::Received(stream) => self.received(stream),
        }
    }
}
