//! For how many entries logs need room.
ghost use Rattle.std.specs.Prelude.{◌≡◌, ◌<◌, ◌≤◌, EachIndex, IfOk, length, slice_index};
ghost use Rattle.std.specs.List.{sum_by};
ghost use Rattle.reactor_turns.specs.Ahead.{most_turn_events};
ghost use Rattle.strand_core.specs.Room.{shown_by_handler};
ghost use Rattle.lane_logs.specs.SeatNumbers.{worker_count};
ghost use Rattle.lane_logs.specs.Stand.{draws_of_call, first_stand};
ghost use Rattle.lane_turns.specs.Firsts.{RoomsFit};
ghost use Rattle.lane_turns.specs.Rooms.{lane_rooms, opener_room};

use crate::op_lanes::operations_have_lanes;
use asio_types::{ActNo, Class, NoMemory, OpNo};
use lane_map::LaneMap;
use session_script::{Script, scripts_are_well_formed};
use std::alloc::Global;

/// No log needs room for more entries than a seat may draw.
pub fn rooms_fit(script: &Script)
    ensures { RoomsFit script.now }
{
    scripts_are_well_formed(script);
}

/// How many draws a call of an act is, with its back.
fn draws_of_call(script: &Script, act: ActNo) -> u32
    requires { act < length script.now.acts }
    ensures { result ≡ draws_of_call script.now act }
{
    if script.is_stop(act) { 3 } else { 2 }
}

/// How many draws the calls of some acts are.
fn draws_of_calls(script: &Script, acts: &[ActNo]) -> u32
    requires known { EachIndex acts.now
        (λ k. slice_index acts.now k < length script.now.acts) }
    requires few { length acts.now ≤ length script.now.acts }
    ensures { result ≡ sum_by (draws_of_call script.now) acts.now }
{
    scripts_are_well_formed(script);
    let mut draws = 0;
    for &act in acts {
        draws += draws_of_call(script, act);
    }
    draws
}

/// What a handler shows at most.
pub fn shown_by_handler(script: &Script, op: OpNo) -> u32
    requires { op < length script.now.acts }
    ensures { result ≡ shown_by_handler script.now op }
{
    scripts_are_well_formed(script);
    let done = draws_of_calls(script, script.branch(op, Class::Ok));
    let aborted = draws_of_calls(script, script.branch(op, Class::Abort));
    let other = draws_of_calls(script, script.branch(op, Class::Other));
    2 + done + aborted + other
}

/// For how many entries the log of each lane needs room on which handlers execute.
pub fn lane_rooms(alloc: Global, script: &Script, map: &LaneMap<'_>) -> Result<Vec<u32>, NoMemory>
    requires map { map.now ≡ script.now }
    ensures { IfOk result (λ rooms. rooms.items ≡ lane_rooms script.now) }
{
    operations_have_lanes(script);
    rooms_fit(script);
    let mut rooms = vec![in alloc; 0u32; map.reactor() as usize]?;
    for op in 0..script.acts() {
        if script.is_op(op) {
            rooms[map.home(op) as usize] += shown_by_handler(script, op);
        }
    }
    Ok(rooms)
}

/// How many draws the calls of `open` are.
pub fn opening_draws(script: &Script) -> u32
    ensures { result ≡ (first_stand script.now).opening }
{
    draws_of_calls(script, script.opening())
}

/// For how many entries the opener's log needs room.
pub fn opener_room(script: &Script) -> u32
    ensures { result ≡ opener_room script.now }
{
    rooms_fit(script);
    opening_draws(script) + 2 * script.rounds().len() as u32
}

/// For how many entries the log of the reactor's lane needs room.
pub fn reactor_room(script: &Script) -> u32
    ensures { result ≡ most_turn_events script.now }
{
    scripts_are_well_formed(script);
    rooms_fit(script);
    3 * script.acts() + script.world().lines.as_slice().len() as u32 + 2
}

/// How many workers a session has: one more than the greatest number of a round, who is the caller.
pub fn worker_count(script: &Script) -> u32
    ensures count { result ≡ worker_count script.now }
    ensures few { result ≤ 256 }
{
    let mut most = 0;
    let rounds = script.rounds();
    for round in rounds {
        most = most.max(round.workers as u32);
    }
    most + 1
}
