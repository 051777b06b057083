//! The logs of a session that hasn't begun, and the pens of its seats.
ghost use Rattle.std.specs.Prelude.{◌≡◌, IfOk};
ghost use Rattle.reactor_turns.specs.Ahead.{most_turn_events};
ghost use Rattle.lane_clock.specs.Seats.{all_left};
ghost use Rattle.lane_map.specs.LaneNumbers.{reactor_lane};
ghost use Rattle.lane_context.specs.Making.{HasLogRoom, worker_rooms};
ghost use Rattle.lane_logs.specs.SeatNumbers.{lane_count, opener_seat, seat_count};
ghost use Rattle.lane_turns.specs.Rooms.{AreNewPens, IsNewPen, lane_rooms, opener_room};

use crate::new_pens::{new_logs, new_pen, new_pens};
use asio_types::NoMemory;
use lane_clock::SeatList;
use lane_logs::LogEntry;
use lane_map::{LaneMap, lanes_have_cells};
use lane_turns::{Pen, lane_rooms, opener_room, reactor_room, rounds_are_few, worker_count};
use session_script::Script;
use std::alloc::Global;

/// The logs of all seats of a session that hasn't begun, and the room for what is made of them.
#[derive(Drop)]
pub(crate) struct LogRoom {
    lanes: Vec<Vec<LogEntry>>,
    reactor: Vec<LogEntry>,
    workers: Vec<Vec<LogEntry>>,
    opener: Vec<LogEntry>,
    lane_pens: Vec<Pen>,
    worker_pens: Vec<Pen>,
}

/// All memory for the logs of a script's session.
pub(crate) fn log_room(
    alloc: Global,
    script: &Script,
    map: &LaneMap<'_>,
) -> Result<LogRoom, NoMemory>
    requires map { map.now ≡ script.now }
    ensures { IfOk result (HasLogRoom script.now) }
{
    rounds_are_few(script);
    let lane_rooms = lane_rooms(alloc, script, map)?;
    let worker_rooms = vec![in alloc; script.rounds().len() as u32; worker_count(script) as usize]?;
    Ok(LogRoom {
        lanes: new_logs(alloc, lane_rooms.as_slice())?,
        reactor: Vec::with_capacity(alloc, reactor_room(script) as usize)?,
        workers: new_logs(alloc, worker_rooms.as_slice())?,
        opener: Vec::with_capacity(alloc, opener_room(script) as usize)?,
        lane_pens: Vec::with_capacity(alloc, lane_rooms.len())?,
        worker_pens: Vec::with_capacity(alloc, worker_rooms.len())?,
    })
}

/// The pens of all seats of a session that hasn't begun, those of lanes and workers in the order of
/// their numbers.
#[derive(Drop)]
pub(crate) struct FirstPens {
    pub(crate) lanes: Vec<Pen>,
    pub(crate) reactor: Pen,
    pub(crate) workers: Vec<Pen>,
    pub(crate) opener: Pen,
}

/// The pens with these logs, of all seats of a clock.
pub(crate) fn first_pens(seats: SeatList, room: LogRoom, script: &Script) -> FirstPens
    requires seats { seats ≡ all_left seats.clock }
    requires count { seats.clock.plan.seats ≡ seat_count script.now }
    requires room { HasLogRoom script.now room }
    ensures lanes { AreNewPens seats.clock 0 (lane_rooms script.now) result.lanes.items }
    ensures reactor { IsNewPen seats.clock (reactor_lane script.now) (most_turn_events script.now)
        result.reactor }
    ensures workers { AreNewPens seats.clock (lane_count script.now) (worker_rooms script.now)
        result.workers.items }
    ensures opener { IsNewPen seats.clock (opener_seat script.now) (opener_room script.now)
        result.opener }
{
    lanes_have_cells(script);
    let mut left = seats;
    let lanes = new_pens(&mut left, room.lanes, room.lane_pens);
    let Some(seat) = left.next() else {
        unreachable!();
    };
    let reactor = new_pen(seat, room.reactor);
    let workers = new_pens(&mut left, room.workers, room.worker_pens);
    let Some(last) = left.next() else {
        unreachable!();
    };
    let opener = new_pen(last, room.opener);
    FirstPens {
        lanes,
        reactor,
        workers,
        opener,
    }
}
