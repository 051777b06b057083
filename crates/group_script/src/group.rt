ghost use Rattle.std.specs.Prelude.{◌≡◌, ◌≤◌, [], All, IfOk, IfErr, length};
ghost use Rattle.session_script.specs.Limits.{most_bytes};
ghost use Rattle.session_script.specs.Spelling.{spelling_of};
ghost use Rattle.session_script.specs.Writable.{IsFedBytes};
ghost use Rattle.group_script.specs.Group.{group_of, script_of};
ghost use Rattle.group_script.specs.Limits.{IsGroup, Refuses};

use crate::acts::acts_of;
use crate::limits::fits_group;
use crate::measure::lines_length;
use crate::member::{GroupFault, Member, Members, WaitFor};
use asio_types::{Lines, NoMemory, Types, World};
use session_script::{MOST_BYTES, Pace, Round, Script, ScriptParts, write_script};
use std::alloc::Global;

/// The script of a group whose numbers and text are within the limits.
fn script_of(
    alloc: Global,
    world: World,
    members: &[Member],
    rule: WaitFor,
    types: Types,
    workers: u8,
) -> Result<Script, NoMemory>
    requires group { IsGroup (group_of world members.now rule types workers) }
    requires fed { All (λ line. IsFedBytes line.what) world.lines }
    ensures { IfOk result
        (λ script. script ≡ script_of (group_of world members.now rule types workers)) }
{
    let acts = acts_of(alloc, members, rule, types)?;
    let one_run = Round {
        restart: false,
        pace: Pace::Run,
        workers,
    };
    let rounds = Vec::from_slice(alloc, &[one_run])?;
    Script::make(
        alloc,
        ScriptParts {
            version: 2,
            strands: 1,
            timers: members.len() as u8,
            slots: members.len() as u8,
            guards: 0,
            acts,
            world,
            rounds,
        },
    )
}

/// How many bytes the text of a script has.
fn text_length(alloc: Global, script: &Script) -> Result<usize, NoMemory>
    ensures { IfOk result (λ bytes. bytes ≡ length (spelling_of script.now)) }
{
    let text = write_script(alloc, script)?;
    let bytes = text.as_slice().len();
    Ok(bytes)
}

/// How many bytes the text of a group's script has without the world's lines.
fn outline_length(
    alloc: Global,
    streams: u8,
    members: &[Member],
    rule: WaitFor,
    types: Types,
    workers: u8,
) -> Result<usize, NoMemory>
    requires { IsGroup
        (group_of (record { streams = streams; lines = [] }) members.now rule types workers) }
    ensures few { IfOk result (λ bytes. bytes ≤ most_bytes) }
    ensures text { IfOk result (λ bytes. bytes ≡ length (spelling_of (script_of
        (group_of (record { streams = streams; lines = [] }) members.now rule types workers)))) }
{
    let bare = World {
        streams,
        lines: Lines::of(Vec::new(alloc)),
    };
    let outline = script_of(alloc, bare, members, rule, types, workers)?;
    text_length(alloc, &outline)
}

/// The script of a group whose numbers and text are within the limits, with lines of its own.
fn script_with(
    alloc: Global,
    world: &World,
    members: &[Member],
    rule: WaitFor,
    types: Types,
    workers: u8,
) -> Result<Script, NoMemory>
    requires group { IsGroup (group_of world.now members.now rule types workers) }
    requires fed { All (λ line. IsFedBytes line.what) world.now.lines }
    ensures { IfOk result
        (λ script. script ≡ script_of (group_of world.now members.now rule types workers)) }
{
    let whole = World {
        streams: world.streams,
        lines: Lines::from_slice(alloc, world.lines.as_slice())?,
    };
    script_of(alloc, whole, members, rule, types, workers)
}

/// The script of a group (Asio reference, experimental::make_parallel_group): version 2, one
/// strand, for each member a timer and a slot, the world's streams and lines, and one round of `run`
/// by so many workers. Its `open` starts the members in order, on the strand. Where the rule says so, a
/// member that completes emits these types at each other member, in rising order.
///
/// `Limit` comes exactly where there are no members or more than 16, the workers aren't from 1 to
/// 16, a member or the world is outside of the limits of version 2, or the script's text has more
/// than 262,144 bytes. `Failed` never comes here. Takes time and memory in proportion to the text.
pub fn group_script(
    alloc: Global,
    world: &World,
    members: &Members,
    rule: WaitFor,
    types: Types,
    workers: u8,
) -> Result<Script, GroupFault>
    ensures script { IfOk result
        (λ script. script ≡ script_of (group_of world.now members.now rule types workers)) }
    ensures within { IfOk result
        (λ _. IsGroup (group_of world.now members.now rule types workers)) }
    ensures refused { IfErr result
        (λ fault. Refuses fault (group_of world.now members.now rule types workers)) }
{
    let members = members.as_slice();
    if !fits_group(world, members, rule, types, workers) {
        return Err(GroupFault::Limit);
    }
    // the text without the world's lines is short, whatever the members are
    let outlined = outline_length(alloc, world.streams, members, rule, types, workers)?;
    let lines = world.lines.as_slice();
    let bytes = outlined + lines_length(lines, world.streams);
    if bytes > MOST_BYTES {
        return Err(GroupFault::Limit);
    }
    Ok(script_with(alloc, world, members, rule, types, workers)?)
}
