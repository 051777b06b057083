//! Worlds that are played over sockets; what is seen at each step is written by hand.

use crate::player::{Cue, Player, Seen, Step, is_seen, world_of};
use asio_types::{Bytes, Line, Lines, Moved, NoMemory, Point, What, World};
use std::alloc::Global;
use std::net::Net;
use std::process::Abort;

const NONE: [u8; 4] = [0; 4];

/// At each step of this row this is seen.
fn shows<R: Net + Copy + Abort>(
    rt: &R,
    player: &mut Player<R>,
    alloc: Global,
    world: &World,
    row: usize,
    steps: &[(Step, Seen)],
) {
    for (at, (step, seen)) in steps.iter().enumerate() {
        is_seen(rt, player.step(alloc, world, *step), *seen, row, at);
    }
}

type Row = (&'static [(u64, u8, Cue)], &'static [(Step, Seen)]);

const BOTH_WAYS: Row = (
    &[
        (1, 0, Cue::Feed(b"abc")),
        (1, 0, Cue::Room(5)),
        (2, 0, Cue::End),
        (2, 0, Cue::Feed(b"late")),
        (3, 0, Cue::Room(9)),
    ],
    &[
        (Step::SetUp, Seen::Ready),
        (Step::Read(0, 4), Seen::Gave(Moved::NotYet, NONE)),
        (Step::Advance(None), Seen::At(Point::Time(1))),
        (Step::Read(0, 2), Seen::Gave(Moved::Took(2), *b"ab\0\0")),
        (Step::Read(0, 4), Seen::Gave(Moved::Took(1), *b"c\0\0\0")),
        (Step::Read(0, 4), Seen::Gave(Moved::NotYet, NONE)),
        (Step::Write(0, b"hello!"), Seen::Took(Moved::Took(6))),
        (Step::Advance(Some(9)), Seen::At(Point::Time(2))),
        (Step::Received(0), Seen::Received(5, *b"hell")),
        (Step::Read(0, 4), Seen::Gave(Moved::End, NONE)),
        (Step::Read(0, 4), Seen::Gave(Moved::End, NONE)),
        (Step::Write(0, b"go on"), Seen::Took(Moved::Took(5))),
        (Step::Advance(None), Seen::At(Point::Time(3))),
        (Step::Advance(Some(7)), Seen::At(Point::Time(7))),
        (Step::Received(0), Seen::Received(11, *b"hell")),
        (Step::Advance(None), Seen::At(Point::Last)),
        (Step::Read(0, 4), Seen::Gave(Moved::End, NONE)),
    ],
);

const RESETS: Row = (
    &[
        (1, 0, Cue::Reset),
        (1, 1, Cue::Feed(b"x")),
        (1, 1, Cue::Reset),
    ],
    &[
        (Step::SetUp, Seen::Ready),
        (Step::Advance(None), Seen::At(Point::Time(1))),
        (Step::Write(0, b"a"), Seen::Took(Moved::Reset)),
        (Step::Write(0, b"a"), Seen::Took(Moved::Reset)),
        (Step::Read(0, 4), Seen::Gave(Moved::Reset, NONE)),
        (Step::Read(1, 4), Seen::Gave(Moved::Took(1), *b"x\0\0\0")),
        (Step::Read(1, 4), Seen::Gave(Moved::Reset, NONE)),
        (Step::Read(1, 4), Seen::Gave(Moved::Reset, NONE)),
        (Step::Write(1, b"a"), Seen::Took(Moved::Reset)),
        (Step::Advance(None), Seen::At(Point::Last)),
        (Step::Read(1, 4), Seen::Gave(Moved::Reset, NONE)),
    ],
);

const LAST: Row = (
    &[(1, 0, Cue::Feed(b"a")), (0, 1, Cue::Room(3))],
    &[
        (Step::SetUp, Seen::Ready),
        (Step::Write(0, b"unread"), Seen::Took(Moved::Took(6))),
        (Step::Write(1, b"kept"), Seen::Took(Moved::Took(4))),
        (Step::Advance(None), Seen::At(Point::Time(1))),
        (Step::Received(1), Seen::Received(3, *b"kep\0")),
        (Step::Close(1), Seen::Closed),
        (Step::Received(1), Seen::Received(3, *b"kep\0")),
        (Step::Read(1, 1), Seen::NotAllowed),
        (Step::Advance(None), Seen::At(Point::Last)),
        (Step::Read(0, 4), Seen::Gave(Moved::Took(1), *b"a\0\0\0")),
        (Step::Read(0, 4), Seen::Gave(Moved::End, NONE)),
        (Step::Write(0, b"b"), Seen::Took(Moved::Took(1))),
        (Step::Write(0, b"b"), Seen::Took(Moved::End)),
        (Step::Read(0, 4), Seen::Gave(Moved::End, NONE)),
        (Step::SetUp, Seen::Ready),
        (Step::Read(1, 4), Seen::Gave(Moved::NotYet, NONE)),
        (Step::Advance(None), Seen::At(Point::Time(1))),
        (Step::Read(0, 1), Seen::Gave(Moved::Took(1), *b"a\0\0\0")),
    ],
);

const ROWS: &[Row] = &[BOTH_WAYS, RESETS, LAST];

fn plays<R: Net + Copy + Abort>(
    rt: R,
    alloc: Global,
    row: usize,
    steps: &Row,
) -> Result<(), NoMemory> {
    let world = world_of(alloc, 2, steps.0)?;
    let mut player = Player::of(rt, alloc);
    shows(&rt, &mut player, alloc, &world, row, steps.1);
    Ok(())
}

/// Bytes go both ways, and writes go on after an end; a reset is answered each time; at the last
/// point unread bytes are drained, so that no reset comes of them; and a second world begins anew.
#[test]
fn streams_are_connections(rt: HostRuntime) -> Result<(), NoMemory> {
    for (row, steps) in ROWS.iter().enumerate() {
        plays(rt, rt.alloc(), row, steps)?;
    }
    Ok(())
}

const STREAMS: u8 = 64;

/// More bytes than a socket takes at once are no matter: so many go over each stream.
const LENGTH: usize = 5_000;

/// The bytes of a stream.
fn bytes_for(alloc: Global, stream: u8) -> Result<Vec<u8>, NoMemory> {
    let mut bytes = Vec::with_capacity(alloc, LENGTH)?;
    let mut byte = stream;
    for _ in 0..LENGTH {
        bytes.push(byte)?;
        byte = byte.wrapping_mul(5).wrapping_add(stream);
    }
    Ok(bytes)
}

/// Each stream is fed its bytes, and has room for as many.
fn world_of_many(alloc: Global) -> Result<World, NoMemory> {
    let mut lines = Vec::new(alloc);
    for stream in 0..STREAMS {
        let bytes = bytes_for(alloc, stream)?;
        let feed = What::Feed(Bytes::from_slice(alloc, bytes.as_slice())?);
        lines.push(Line {
            time: 0,
            stream,
            what: feed,
        })?;
        lines.push(Line {
            time: 0,
            stream,
            what: What::Room(LENGTH as u32),
        })?;
    }
    Ok(World {
        streams: STREAMS,
        lines: Lines::of(lines),
    })
}

/// Reads all that a stream is fed; what came is appended.
fn read_all<R: Net + Copy>(player: &mut Player<R>, stream: u8, all: &mut Vec<u8>) -> Option<()> {
    let mut buf = [0u8; 700];
    for _ in 0..LENGTH {
        if all.len() >= LENGTH {
            break;
        }
        match player.read_into(stream, &mut buf)? {
            Moved::Took(count) => all.extend_from_slice(buf.get(..count as usize)?).ok()?,
            _ => return None,
        }
    }
    Some(())
}

/// Whether a stream gives what it is fed, and no more; takes all that is written; and its far end
/// receives that.
fn carries<R: Net + Copy>(
    alloc: Global,
    player: &mut Player<R>,
    stream: u8,
) -> Result<[bool; 4], NoMemory> {
    let bytes = bytes_for(alloc, stream)?;
    let mut all = Vec::with_capacity(alloc, LENGTH)?;
    let read = read_all(player, stream, &mut all).is_some() && all.as_slice() == bytes.as_slice();
    let written = player.write_from(stream, bytes.as_slice());
    let again = player.read_into(stream, &mut [0; 1]);
    Ok([
        read,
        matches!(written, Some(Moved::Took(count)) if count as usize == LENGTH),
        matches!(again, Some(Moved::NotYet)),
        player.has_received(stream, bytes.as_slice()),
    ])
}

fn is_carried<R: Abort>(rt: &R, carried: [bool; 4], stream: u8) {
    assert_eq!(rt; carried, [true; 4], "stream {stream}");
}

#[test]
fn many_streams_carry_bytes_both_ways(rt: HostRuntime) -> Result<(), NoMemory> {
    let alloc = rt.alloc();
    let world = world_of_many(alloc)?;
    let mut player = Player::of(rt, alloc);
    is_seen(
        &rt,
        player.step(alloc, &world, Step::SetUp),
        Seen::Ready,
        0,
        0,
    );
    for stream in 0..STREAMS {
        is_carried(&rt, carries(alloc, &mut player, stream)?, stream);
    }
    Ok(())
}
