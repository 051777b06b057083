//! Worlds that are played step by step; what is seen at each step is written by hand.

ghost use Rattle.std.specs.Prelude.{◌≡◌, ◌<◌, ◌↔◌, IsTrue};
ghost use Rattle.stream_rules.specs.World.{HasItsStreams};
ghost use Rattle.reactor_trait.specs.Reactor.{stream_count, IsOpen};

use asio_types::{Bytes, Line, Lines, Moved, NoMemory, Point, SetupFault, What, World};
use reactor_script::{FailAt, Method, ScriptReactor};
use reactor_trait::Reactor;
use std::alloc::Global;
use std::process::Abort;

/// What a line of a world brings.
#[derive(Clone, Copy)]
enum Cue {
    Feed(&'static [u8]),
    End,
    Reset,
    Room(u32),
}

/// A call of the reactor.
#[derive(Clone, Copy)]
enum Step {
    SetUp,
    Advance(Option<u64>),
    Read(u8, usize),
    Write(u8, &'static [u8]),
    Close(u8),
    Sent(u8),
}

/// What a call answered, with up to four bytes that were read or sent.
#[derive(Clone, Copy, Debug, PartialEq, Eq)]
enum Seen {
    Ready,
    Refused(SetupFault),
    At(Point),
    Gave(Moved, [u8; 4]),
    Took(Moved),
    Closed,
    Sent(usize, [u8; 4]),
    Failed,
    NotAllowed,
}

fn line_of(alloc: Global, time: u64, stream: u8, cue: Cue) -> Result<Line, NoMemory> {
    let what = match cue {
        Cue::Feed(bytes) => What::Feed(Bytes::from_slice(alloc, bytes)?),
        Cue::End => What::End,
        Cue::Reset => What::Reset,
        Cue::Room(count) => What::Room(count),
    };
    Ok(Line { time, stream, what })
}

fn world_of(alloc: Global, streams: u8, cues: &[(u64, u8, Cue)]) -> Result<World, NoMemory> {
    let mut lines = Vec::new(alloc);
    for (time, stream, cue) in cues {
        lines.push(line_of(alloc, *time, *stream, *cue)?)?;
    }
    Ok(World {
        streams,
        lines: Lines::of(lines),
    })
}

fn has_its_streams(world: &World) -> bool
    ensures { IsTrue result ↔ HasItsStreams world.now }
{
    world
        .lines
        .as_slice()
        .iter()
        .all(|line| line.stream < world.streams)
}

fn first_bytes(bytes: &[u8]) -> [u8; 4] {
    let mut first = [0; 4];
    for (place, byte) in first.iter_mut().zip(bytes) {
        *place = *byte;
    }
    first
}

/// A reactor, and what its caller knows of it.
#[derive(Drop)]
struct Player {
    reactor: ScriptReactor,
    up: bool,
    time: u64,
    closed: Vec<bool>,
    ghost is_up: { reactor.state.up ≡ up },
    ghost is_now: { reactor.state.now ≡ time },
    ghost is_closed: { reactor.state.closed ≡ closed.items },
}

impl Player {
    fn set_up(&mut self, alloc: Global, world: &World) -> Seen {
        if !has_its_streams(world) {
            return Seen::NotAllowed;
        }
        let Ok(closed) = vec![in alloc; false; world.streams as usize] else {
            return Seen::Refused(SetupFault::NoMemory);
        };
        match self.reactor.set_up(alloc, world) {
            Ok(()) => {
                self.up = true;
                self.time = 0;
                self.closed = closed;
                Seen::Ready
            }
            Err(fault) => {
                self.up = false;
                Seen::Refused(fault)
            }
        }
    }

    fn advance(&mut self, limit: Option<u64>) -> Seen {
        if !self.up || limit.is_some_and(|limit| limit <= self.time) {
            return Seen::NotAllowed;
        }
        match self.reactor.advance(limit) {
            Ok(Point::Time(time)) => {
                self.time = time;
                Seen::At(Point::Time(time))
            }
            Ok(Point::Last) => Seen::At(Point::Last),
            Err(_) => Seen::Failed,
        }
    }

    fn may_use(&self, stream: u8) -> bool
        ensures up { IsTrue result → IsTrue self.now.reactor.state.up }
        ensures known { IsTrue result → stream < stream_count self.now.reactor.state }
        ensures open { IsTrue result → IsOpen self.now.reactor.state stream }
    {
        self.up && (stream as usize) < self.closed.len() && !self.closed[stream as usize]
    }

    fn read(&mut self, stream: u8, wanted: usize) -> Seen {
        if !self.may_use(stream) || wanted == 0 || wanted > 4 {
            return Seen::NotAllowed;
        }
        let mut buf = [0u8; 4];
        match self.reactor.read_some(stream, &mut buf[..wanted]) {
            Ok(moved) => Seen::Gave(moved, buf),
            Err(_) => Seen::Failed,
        }
    }

    fn write(&mut self, stream: u8, bytes: &[u8]) -> Seen {
        if !self.may_use(stream) || bytes.is_empty() {
            return Seen::NotAllowed;
        }
        match self.reactor.write_some(stream, bytes) {
            Ok(moved) => Seen::Took(moved),
            Err(_) => Seen::Failed,
        }
    }

    fn close(&mut self, stream: u8) -> Seen {
        if !self.may_use(stream) {
            return Seen::NotAllowed;
        }
        self.reactor.close(stream);
        self.closed[stream as usize] = true;
        Seen::Closed
    }

    fn sent(&self, stream: u8) -> Seen {
        if (stream as usize) >= self.closed.len() {
            return Seen::NotAllowed;
        }
        let sent = self.reactor.sent(stream);
        Seen::Sent(sent.len(), first_bytes(sent))
    }

    fn step(&mut self, alloc: Global, world: &World, step: Step) -> Seen {
        match step {
            Step::SetUp => self.set_up(alloc, world),
            Step::Advance(limit) => self.advance(limit),
            Step::Read(stream, wanted) => self.read(stream, wanted),
            Step::Write(stream, bytes) => self.write(stream, bytes),
            Step::Close(stream) => self.close(stream),
            Step::Sent(stream) => self.sent(stream),
        }
    }
}

fn player_of(alloc: Global, fails: &[FailAt]) -> Result<Player, NoMemory> {
    Ok(Player {
        reactor: ScriptReactor::make(alloc, fails)?,
        up: false,
        time: 0,
        closed: Vec::new(alloc),
    })
}

/// At each step this is seen.
fn shows(
    rt: &impl Abort,
    player: &mut Player,
    alloc: Global,
    world: &World,
    rows: &[(Step, Seen)],
) {
    for (at, (step, seen)) in rows.iter().enumerate() {
        assert_eq!(rt; player.step(alloc, world, *step), *seen, "at step {at}");
    }
}

/// So a reactor that fails at these calls plays this world.
fn plays(
    rt: &impl Abort,
    alloc: Global,
    fails: &[FailAt],
    cues: &[(u64, u8, Cue)],
    rows: &[(Step, Seen)],
) -> Result<(), NoMemory> {
    let world = world_of(alloc, 2, cues)?;
    let mut player = player_of(alloc, fails)?;
    shows(rt, &mut player, alloc, &world, rows);
    Ok(())
}

const READ_CUES: &[(u64, u8, Cue)] = &[
    (2, 0, Cue::Feed(b"cd")),
    (0, 0, Cue::Feed(b"a")),
    (2, 1, Cue::Feed(b"x")),
    (2, 0, Cue::End),
    (2, 0, Cue::Feed(b"e")),
    (1, 0, Cue::Feed(b"b")),
    (3, 0, Cue::Reset),
    (3, 1, Cue::Reset),
    (4, 1, Cue::End),
];

const READ: &[(Step, Seen)] = &[
    (Step::SetUp, Seen::Ready),
    (Step::Advance(None), Seen::At(Point::Time(1))),
    (Step::Read(0, 1), Seen::Gave(Moved::Took(1), *b"a\0\0\0")),
    (Step::Advance(Some(9)), Seen::At(Point::Time(2))),
    (Step::Read(0, 4), Seen::Gave(Moved::Took(3), *b"bcd\0")),
    (Step::Read(0, 4), Seen::Gave(Moved::End, [0; 4])),
    (Step::Read(1, 4), Seen::Gave(Moved::Took(1), *b"x\0\0\0")),
    (Step::Read(1, 4), Seen::Gave(Moved::NotYet, [0; 4])),
    (Step::Advance(Some(3)), Seen::At(Point::Time(3))),
    (Step::Read(0, 1), Seen::Gave(Moved::End, [0; 4])),
    (Step::Read(1, 2), Seen::Gave(Moved::Reset, [0; 4])),
    (Step::Advance(None), Seen::At(Point::Time(4))),
    (Step::Read(1, 2), Seen::Gave(Moved::Reset, [0; 4])),
];

/// A feed is cut over three times; what was there at a mark is read before it, and what comes after
/// a mark is not.
#[test]
fn bytes_are_given_before_marks(rt: HostRuntime) -> Result<(), NoMemory> {
    plays(&rt, rt.alloc(), &[], READ_CUES, READ)
}

const WRITTEN_CUES: &[(u64, u8, Cue)] = &[
    (0, 0, Cue::Room(3)),
    (0, 1, Cue::Room(9)),
    (0, 1, Cue::Feed(b"gone")),
    (5, 0, Cue::Room(1)),
    (5, 0, Cue::Reset),
    (5, 0, Cue::Room(7)),
    (6, 1, Cue::Feed(b"late")),
];

const WRITTEN: &[(Step, Seen)] = &[
    (Step::SetUp, Seen::Ready),
    (Step::Write(0, b"ab"), Seen::Took(Moved::Took(2))),
    (Step::Write(0, b"cd"), Seen::Took(Moved::Took(1))),
    (Step::Write(0, b"d"), Seen::Took(Moved::NotYet)),
    (Step::Advance(None), Seen::At(Point::Time(5))),
    (Step::Write(0, b"de"), Seen::Took(Moved::Took(1))),
    (Step::Write(0, b"e"), Seen::Took(Moved::Reset)),
    (Step::Sent(0), Seen::Sent(4, *b"abcd")),
    (Step::Write(1, b"zz"), Seen::Took(Moved::Took(2))),
    (Step::Close(1), Seen::Closed),
    (Step::Advance(None), Seen::At(Point::Time(6))),
    (Step::Read(1, 1), Seen::NotAllowed),
    (Step::Sent(1), Seen::Sent(2, *b"zz\0\0")),
    (Step::Close(0), Seen::Closed),
    (Step::Sent(0), Seen::Sent(4, *b"abcd")),
];

/// Room comes before and after a reset; what was sent stays through the close, and the bytes there
/// go.
#[test]
fn room_is_used_before_marks(rt: HostRuntime) -> Result<(), NoMemory> {
    plays(&rt, rt.alloc(), &[], WRITTEN_CUES, WRITTEN)
}

const LAST_CUES: &[(u64, u8, Cue)] = &[
    (1, 0, Cue::Feed(b"a")),
    (1, 1, Cue::Reset),
    (1, 0, Cue::Room(1)),
];

const LAST: &[(Step, Seen)] = &[
    (Step::SetUp, Seen::Ready),
    (Step::Read(0, 1), Seen::Gave(Moved::NotYet, [0; 4])),
    (Step::Advance(Some(1)), Seen::At(Point::Time(1))),
    (Step::Advance(Some(7)), Seen::At(Point::Time(7))),
    (Step::Advance(None), Seen::At(Point::Last)),
    (Step::Read(0, 2), Seen::Gave(Moved::Took(1), *b"a\0\0\0")),
    (Step::Read(0, 2), Seen::Gave(Moved::End, [0; 4])),
    (Step::Write(0, b"xy"), Seen::Took(Moved::Took(1))),
    (Step::Write(0, b"y"), Seen::Took(Moved::End)),
    (Step::Read(1, 1), Seen::Gave(Moved::Reset, [0; 4])),
    (Step::Write(1, b"y"), Seen::Took(Moved::Reset)),
    (Step::Advance(None), Seen::At(Point::Last)),
    (Step::Advance(Some(8)), Seen::At(Point::Time(8))),
    (Step::SetUp, Seen::Ready),
    (Step::Sent(0), Seen::Sent(0, [0; 4])),
    (Step::Read(0, 1), Seen::Gave(Moved::NotYet, [0; 4])),
    (Step::Advance(None), Seen::At(Point::Time(1))),
    (Step::Read(0, 1), Seen::Gave(Moved::Took(1), *b"a\0\0\0")),
];

/// After the last point each side without a mark has reached its end; a second world begins anew.
#[test]
fn the_last_point_marks_what_has_no_mark(rt: HostRuntime) -> Result<(), NoMemory> {
    plays(&rt, rt.alloc(), &[], LAST_CUES, LAST)
}

const FAILING_CUES: &[(u64, u8, Cue)] = &[
    (0, 0, Cue::Feed(b"ab")),
    (0, 0, Cue::Room(1)),
    (3, 0, Cue::Feed(b"c")),
];

const FAILING: &[(Step, Seen)] = &[
    (Step::SetUp, Seen::Refused(SetupFault::Failed)),
    (Step::Read(0, 1), Seen::NotAllowed),
    (Step::SetUp, Seen::Refused(SetupFault::Failed)),
    (Step::SetUp, Seen::Ready),
    (Step::Advance(None), Seen::Failed),
    (Step::Advance(Some(2)), Seen::Failed),
    (Step::Read(0, 4), Seen::Failed),
    (Step::Read(0, 4), Seen::Failed),
    (Step::Read(0, 4), Seen::Gave(Moved::Took(2), *b"ab\0\0")),
    (Step::Write(0, b"x"), Seen::Failed),
    (Step::Write(0, b"x"), Seen::Failed),
    (Step::Write(0, b"xy"), Seen::Took(Moved::Took(1))),
    (Step::Advance(None), Seen::At(Point::Time(3))),
    (Step::Read(0, 4), Seen::Gave(Moved::Took(1), *b"c\0\0\0")),
    (Step::Sent(0), Seen::Sent(1, *b"x\0\0\0")),
];

const FAILS: &[FailAt] = &[
    FailAt {
        method: Method::SetUp,
        nth: 2,
    },
    FailAt {
        method: Method::SetUp,
        nth: 1,
    },
    FailAt {
        method: Method::Advance,
        nth: 2,
    },
    FailAt {
        method: Method::Advance,
        nth: 1,
    },
    FailAt {
        method: Method::ReadSome,
        nth: 2,
    },
    FailAt {
        method: Method::ReadSome,
        nth: 1,
    },
    FailAt {
        method: Method::WriteSome,
        nth: 2,
    },
    FailAt {
        method: Method::WriteSome,
        nth: 1,
    },
];

/// Each method fails at its first and its second call, and the third finds everything as before.
#[test]
fn calls_fail_where_they_were_told_to(rt: HostRuntime) -> Result<(), NoMemory> {
    plays(&rt, rt.alloc(), FAILS, FAILING_CUES, FAILING)
}
