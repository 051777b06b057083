//! The questions of a script, its text and its upgrade.

use asio_types::{Class, Lane, NoMemory};
use session_script::{Act, Script, read_script, upgrade, write_script};
use std::alloc::Global;
use std::process::Abort;
use std::test::Fail;

/// The parent of an act, whether it is an operation and executes inside its call, and its lane.
type Row = (Option<(u32, Class)>, bool, bool, Lane);

fn seen(script: &Script, a: u32) -> Option<Row> {
    if a < script.acts() {
        Some((
            script.parent_of(a),
            script.is_op(a),
            script.is_inline(a),
            script.lane_of(a),
        ))
    } else {
        None
    }
}

fn have_lanes(rt: &impl Abort, script: &Script, rows: &[Row]) {
    assert_eq!(rt; script.acts() as usize, rows.len());
    for (a, row) in rows.iter().enumerate() {
        assert_eq!(rt; seen(script, a as u32), Some(*row), "at act {a}");
    }
}

fn is_stop(script: &Script, a: u32) -> bool {
    a < script.acts() && script.is_stop(a) && matches!(script.act(a), Act::Stop)
}

fn has_branch(script: &Script, o: u32, class: Class, acts: &[u32]) -> bool {
    o < script.acts() && script.is_op(o) && script.branch(o, class) == acts
}

fn have_branches(rt: &impl Abort, script: &Script, rows: &[(u32, Class, &[u32], bool)]) {
    for (o, class, acts, has) in rows {
        assert_eq!(rt; has_branch(script, *o, *class, acts), *has, "at act {o}");
    }
}

fn have_stops(rt: &impl Abort, script: &Script, rows: &[(u32, bool)]) {
    for (a, stop) in rows {
        assert_eq!(rt; is_stop(script, *a), *stop, "at act {a}");
    }
}

/// The strands, timers, slots and guards.
fn declared(script: &Script) -> (u8, u8, u8, u8) {
    (
        script.strands(),
        script.timers(),
        script.slots(),
        script.guards(),
    )
}

/// The version, the streams, and how many rounds there are.
fn sizes(script: &Script) -> (u8, u8, usize) {
    (
        script.version(),
        script.world().streams,
        script.rounds().len(),
    )
}

const OK: Class = Class::Ok;

const LANES_TEXT: &[u8] =
    b"session 1 strands 2 timers 1 slots 1 open { post 0 { dispatch 0 { stop } dispatch 1 { dispatch - { } } \
    dispatch - { } } dispatch 0 { } stop wait 0 1 0 { post - { dispatch 1 { } dispatch - { } } } abort { stop } \
    other { dispatch 1 { } } cancel 0 } run 1";

const LANES: &[Row] = &[
    (None, true, false, Lane::Strand(0)),
    (Some((0, OK)), true, true, Lane::Strand(0)),
    (Some((1, OK)), false, false, Lane::Strand(0)),
    (Some((0, OK)), true, false, Lane::Strand(1)),
    (Some((3, OK)), true, true, Lane::Strand(1)),
    (Some((0, OK)), true, true, Lane::Strand(0)),
    (None, true, false, Lane::Strand(0)),
    (None, false, false, Lane::Reactor),
    (None, true, false, Lane::Strand(1)),
    (Some((8, OK)), true, false, Lane::Own(9)),
    (Some((9, OK)), true, false, Lane::Strand(1)),
    (Some((9, OK)), true, true, Lane::Own(9)),
    (Some((8, Class::Abort)), false, false, Lane::Strand(1)),
    (Some((8, Class::Other)), true, true, Lane::Strand(1)),
    (None, false, false, Lane::Reactor),
];

#[test]
fn lanes_follow_callers_and_strands(rt: HostRuntime) -> Result<(), Fail> {
    let script = read_script(rt.alloc(), LANES_TEXT)?;
    have_lanes(&rt, &script, LANES);
    Ok(())
}

const BRANCHES_TEXT: &[u8] =
    b"session 1 timers 1 guards 1 open { post - { post - { } stop } wait 0 - - { stop stop } abort { release 0 } \
    other { post - { } } stop } restart run 2 poll 3";

/// Whether an operation has these acts in its branch of this class.
const BRANCHES: &[(u32, Class, &[u32], bool)] = &[
    (0, OK, &[1, 2], true),
    (0, Class::Abort, &[], true),
    (1, OK, &[], true),
    (3, OK, &[4, 5], true),
    (3, Class::Abort, &[6], true),
    (3, Class::Other, &[7], true),
    (8, OK, &[], false),
];

/// Whether an act is a stop.
const STOPS: &[(u32, bool)] = &[(1, false), (2, true), (8, true)];

#[test]
fn branches_list_their_acts_in_text_order(rt: HostRuntime) -> Result<(), Fail> {
    let script = read_script(rt.alloc(), BRANCHES_TEXT)?;
    assert_eq!(rt; script.opening(), [0, 3, 8].as_slice());
    have_branches(&rt, &script, BRANCHES);
    have_stops(&rt, &script, STOPS);
    assert_eq!(rt; declared(&script), (0, 1, 0, 1));
    assert_eq!(rt; sizes(&script), (1, 0, 2));
    Ok(())
}

/// Texts in their one spelling.
const CANONICAL: &[&str] = &[
    "session 1 open { post - { } } run 1",
    "session 1 open { } run 4 restart run 1",
    "session 1 strands 1 open { post 0 { } post 0 { } } run 4",
    "session 1 strands 2 open { post 0 { dispatch 1 { } } } run 2",
    "session 1 timers 1 slots 1 open { expires 0 5 wait 0 - 0 { } post - { emit 0 1 } } run 1",
    "session 1 slots 1 streams 1 at 4 feed 0 x6162 open { emit 0 1 read 0 2 - 0 { } emit 0 4 } run 1",
    "session 1 strands 1 timers 2 open { expires 0 3 expires 1 3 wait 1 0 - { } wait 0 0 - { } } run 1",
    "session 1 strands 1 streams 1 at 1 feed 0 x61620d at 2 feed 0 x0a63640d0a open { until 0 x0d0a 64 0 - { } } run 1",
    "session 1 streams 1 at 1 feed 0 x61626364 at 1 end 0 open { read 0 10 - - { } } run 1",
    "session 1 strands 1 streams 1 open { read 0 4 0 - { } close 0 read 0 4 0 - { } } run 1",
    "session 1 strands 1 open { post 0 { stop } post 0 { } post 0 { } } run 1 restart run 1",
    "session 1 guards 1 open { post - { release 0 } } run 1",
    "session 1 timers 1 open { expires 0 5 wait 0 - - { } } poll 1 run 1",
    "session 1 streams 1 at 1 room 0 2 at 3 reset 0 open { write 0 x61626364 - - { } } run 1",
    "session 1 strands 1 timers 1 slots 1 streams 1 at 0 room 0 64 at 2 feed 0 x68690a open { expires 0 10 wait 0 0 - { emit 0 1 } until 0 x0a 64 0 0 { write 0 x68690a 0 - { cancel 0 } } } run 4",
    "session 2 timers 1 slots 1 open { expiresat 0 7 wait 0 - 0 only 4 { stop } abort { stop } other { stop } } run 1",
    "session 2 timers 1 streams 1 open { cancelone 0 readsome 0 16384 - - { } other { defer - { } } writesome 0 xff - - { } } run 16",
];

/// Other spellings, and the one spelling of each.
const RESPELLED: &[(&str, &str)] = &[
    (
        "session 1 strands 0 open { } run 1",
        "session 1 open { } run 1",
    ),
    (
        "\tsession\r\n2 timers 0 slots 1\nguards 0 open { } run 1 ",
        "session 2 slots 1 open { } run 1",
    ),
    (
        " session 2\ntimers 1 slots 1 open { wait 0 - 0 only 7 { } abort { } other { stop } } run 1\n",
        "session 2 timers 1 slots 1 open { wait 0 - 0 { } other { stop } } run 1",
    ),
    (
        "session 2 timers 1 slots 1 open { wait 0 - 0 only 0 { } abort { stop } other { } } run 1",
        "session 2 timers 1 slots 1 open { wait 0 - 0 only 0 { } abort { stop } } run 1",
    ),
];

fn respelled(alloc: Global, text: &str) -> Result<Vec<u8>, Fail> {
    let script = read_script(alloc, text.as_bytes())?;
    Ok(write_script(alloc, &script)?)
}

fn is_respelled(rt: &impl Abort, alloc: Global, text: &str, canonical: &str) -> Result<(), Fail> {
    let written = respelled(alloc, text)?;
    assert_eq!(rt; written.as_slice(), canonical.as_bytes(), "{text}");
    Ok(())
}

#[test]
fn a_script_is_written_in_one_spelling(rt: HostRuntime) -> Result<(), Fail> {
    let alloc = rt.alloc();
    for text in CANONICAL {
        is_respelled(&rt, alloc, text, text)?;
    }
    for (text, canonical) in RESPELLED {
        is_respelled(&rt, alloc, text, canonical)?;
    }
    Ok(())
}

/// A script in version 1, and its upgrade.
const UPGRADED: (&str, &str) = (
    "session 1 strands 3 timers 1 slots 2 streams 1 guards 1 at 5 feed 0 xab at 6 room 0 9 open { wait 0 2 1 { release 0 } abort { stop } until 0 x0a 9 - - { } } restart poll 3 run 2",
    "session 2 strands 3 timers 1 slots 2 streams 1 guards 1 at 5 feed 0 xab at 6 room 0 9 open { wait 0 2 1 { release 0 } abort { stop } until 0 x0a 9 - - { } } restart poll 3 run 2",
);

fn upgraded(alloc: Global, script: &Script) -> Result<Vec<u8>, NoMemory> {
    let upgraded = upgrade(alloc, script)?;
    write_script(alloc, &upgraded)
}

#[test]
fn an_upgrade_changes_the_version_alone(rt: HostRuntime) -> Result<(), Fail> {
    let (text, wanted) = UPGRADED;
    let script = read_script(rt.alloc(), text.as_bytes())?;
    let written = upgraded(rt.alloc(), &script)?;
    assert_eq!(rt; written.as_slice(), wanted.as_bytes());
    Ok(())
}
