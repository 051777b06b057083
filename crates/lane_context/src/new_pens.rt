//! Pens of seats that have done nothing.
ghost use Rattle.std.specs.Prelude.{◌≡◌, ◌+◌, ◌≤◌, [], IfOk, length, map, vec_capacity};
ghost use Rattle.lane_clock.specs.Seats.{Owns, new_clock_seat};
ghost use Rattle.lane_turns.specs.Rooms.{AreNewLogs, AreNewPens, EachAt, IsNewPen, seats_on};

use asio_types::NoMemory;
use lane_clock::{LaneSeat, SeatList};
use lane_logs::LogEntry;
use lane_turns::Pen;
use std::alloc::Global;

/// Logs with nothing in them, each with room for so many entries. Takes memory for these.
pub(crate) fn new_logs(alloc: Global, rooms: &[u32]) -> Result<Vec<Vec<LogEntry>>, NoMemory>
    ensures { IfOk result (λ logs. AreNewLogs rooms.now logs.items) }
{
    let mut logs = Vec::with_capacity(alloc, rooms.len())?;
    for &room in rooms {
        logs.push_reserved(Vec::with_capacity(alloc, room as usize)?);
    }
    Ok(logs)
}

/// The pen of a seat that has done nothing.
pub(crate) fn new_pen(seat: LaneSeat, log: Vec<LogEntry>) -> Pen
    requires seat { seat ≡ new_clock_seat seat.clock seat.number }
    requires owns { Owns seat seat.number }
    requires none { log.items ≡ [] }
    ensures { IsNewPen seat.clock seat.number (vec_capacity log) result }
{
    Pen::of(seat, log)
}

/// Pens with these logs and the next seats of a clock, into `pens`, which has room for them.
pub(crate) fn new_pens(seats: &mut SeatList, logs: Vec<Vec<LogEntry>>, pens: Vec<Pen>) -> Vec<Pen>
    requires logs { EachAt (λ k log. log.items ≡ []) logs.items }
    requires seats { seats.old.next + length logs.items ≤ seats.old.clock.plan.seats }
    requires none { pens.items ≡ [] }
    requires room { length logs.items ≤ vec_capacity pens }
    ensures pens { AreNewPens seats.old.clock seats.old.next (map vec_capacity logs.items)
        result.items }
    ensures seats { seats.new ≡ seats_on (length logs.items) seats.old }
{
    let mut pens = pens;
    let mut rest = logs.into_iter();
    while let Some(log) = rest.next() {
        let Some(seat) = seats.next() else {
            unreachable!();
        };
        pens.push_reserved(new_pen(seat, log));
    }
    pens
}
