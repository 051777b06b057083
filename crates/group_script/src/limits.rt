ghost use Rattle.std.specs.Prelude.{◌↔◌, IsTrue, All};
ghost use Rattle.group_script.specs.Limits.{FitsGroup, FitsMember, FitsWorldLine, FitsWorldWhat};
ghost use Rattle.group_script.specs.Group.{group_of};

use crate::member::{Member, WaitFor};
use asio_types::{Line, Types, What, World};

/// The most members of a group.
pub const MOST_MEMBERS: usize = 16;

/// The most workers of a round.
const MOST_WORKERS: u8 = 16;

/// The most streams of a world.
const MOST_STREAMS: u8 = 64;

/// The most lines of a world.
const MOST_LINES: usize = 1_024;

/// The most bytes of a read and of one feed.
const MOST_SIZE: usize = 16_384;

/// The most room that one line adds.
const MOST_ROOM: u32 = 262_144;

/// The last time, and the longest wait.
const MOST_TIME: u64 = 1_099_511_627_775;

/// Whether an operation is within the limits, where there are so many streams.
#[tactic(auto, unfolding(session_script::specs::Limits::limits_of))]
fn fits_member(member: Member, streams: u8) -> bool
    ensures { IsTrue result ↔ FitsMember streams member }
{
    match member {
        Member::Wait { after } => after <= MOST_TIME,
        Member::Read { stream, size } => stream < streams
            && 1 <= size
            && size as usize <= MOST_SIZE,
    }
}

/// Whether what a stream meets is within the limits.
#[tactic(auto, unfolding(session_script::specs::Limits::limits_of))]
fn fits_what(what: &What, streams: u8) -> bool
    ensures { IsTrue result ↔ FitsWorldWhat streams what.now }
{
    match what {
        What::Feed(bytes) => 1 <= bytes.as_slice().len() && bytes.as_slice().len() <= MOST_SIZE,
        What::End | What::Reset => true,
        What::Room(room) => 1 <= *room && *room <= MOST_ROOM,
    }
}

/// Whether a line is within the limits.
#[tactic(auto, unfolding(session_script::specs::Limits::limits_of))]
fn fits_line(line: &Line, streams: u8) -> bool
    ensures { IsTrue result ↔ FitsWorldLine streams line.now }
{
    line.time <= MOST_TIME && line.stream < streams && fits_what(&line.what, streams)
}

/// Whether all members are within the limits.
fn fit_members(members: &[Member], streams: u8) -> bool
    ensures { IsTrue result ↔ All (FitsMember streams) members.now }
{
    members.iter().all(|member| fits_member(*member, streams))
}

/// Whether all lines are within the limits.
fn fit_lines(lines: &[Line], streams: u8) -> bool
    ensures { IsTrue result ↔ All (FitsWorldLine streams) lines.now }
{
    lines.iter().all(|line| fits_line(line, streams))
}

/// Whether a group is within the limits, apart from the length of its text.
#[tactic(auto, unfolding(session_script::specs::Limits::limits_of))]
pub(crate) fn fits_group(
    world: &World,
    members: &[Member],
    rule: WaitFor,
    types: Types,
    workers: u8,
) -> bool
    ensures { IsTrue result ↔ FitsGroup (group_of world.now members.now rule types workers) }
{
    // its number is at most 7, as that of every set of types
    let _bits = types.bits();
    let lines = world.lines.as_slice();
    1 <= members.len()
        && members.len() <= MOST_MEMBERS
        && 1 <= workers
        && workers <= MOST_WORKERS
        && world.streams <= MOST_STREAMS
        && lines.len() <= MOST_LINES
        && fit_members(members, world.streams)
        && fit_lines(lines, world.streams)
}
