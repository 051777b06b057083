ghost use Rattle.std.specs.Prelude.{◌≡◌, ◌<◌, ◌≤◌, ◌↔◌, [], IfOk, IfSome, OnSome, IfNone, IsNone};
ghost use Rattle.lane_clock.specs.Seats.{Owns, all_left, clock_id, new_clock_seat, one_given};
ghost use Rattle.lane_clock.specs.Chronicle.{giver as giver_of};

use crate::rule::{GivesNumber, TableSeat, WordTable};
use asio_types::NoMemory;
use std::alloc::Global;
use std::marker::Model;

/// A seat of a clock, with which one thread at a time steps. It has no bytes. Contracts see its
/// number, its own steps, and what it knows of the steps under the other numbers.
#[derive(Drop)]
pub struct LaneSeat {
    pub(crate) seat: TableSeat,
}

impl Model for LaneSeat {
    ghost use Rattle.lane_clock.specs.Plays.{IsLive};
    ghost use Rattle.lane_clock.specs.Seats.{SeatView, seen_as};

    ghost Value = { SeatView };

    ghost view = { λ s. seen_as s.seat.table_id s.seat.me.0 };

    ghost invariant = { λ s. IsLive s.seat.me };
}

/// What a seat knew when it was copied, for another seat to take in. It has no bytes.
#[derive(Drop)]
pub struct LaneCopy {
    pub(crate) seat: TableSeat,
}

impl Model for LaneCopy {
    ghost use Rattle.std.specs.Prelude.{◌≡◌, []};
    ghost use Rattle.lane_clock.specs.Seats.{SeatView, seen_as};

    ghost Value = { SeatView };

    ghost view = { λ s. seen_as s.seat.table_id s.seat.me.0 };

    ghost invariant = { λ s. s.seat.me.1 ≡ [] };
}

/// The seats of a clock that weren't given yet, in the order in which they were made: one for each
/// lane, then one for each worker, then the opener's.
#[derive(Drop)]
pub struct SeatList {
    // The last is the next.
    seats: Vec<LaneSeat>,
    next: u32,
    // the seat that gave all numbers away
    giver: TableSeat,
}

impl Model for SeatList {
    ghost use Rattle.lane_clock.specs.Seats.{SeatsLeft, AreLeft, left_in};

    ghost Value = { SeatsLeft };

    ghost view = { λ s. left_in s.giver.table_id s.giver.me.0 s.next };

    ghost invariant = { λ s. AreLeft (left_in s.giver.table_id s.giver.me.0 s.next) s.seats.items };
}

impl SeatList {
    /// Takes memory for the list, though a seat has no bytes.
    pub(crate) fn make(
        alloc: Global,
        table: &WordTable,
        mut giver: TableSeat,
        seats: u32,
    ) -> Result<SeatList, NoMemory>
        requires table { giver.table_id ≡ table.now.shared.table_id }
        requires words { 0 < table.now.shared.table_id.words }
        requires giver { (giver.me.0 ≡ giver_of table.now.shared.key) × (giver.me.1 ≡ []) }
        requires seats { table.now.shared.key.seats ≡ seats }
        ensures { IfOk result
            (λ list. list ≡ all_left (clock_id table.now.shared.table_id table.now.shared.key)) }
    {
        let mut list = Vec::new(alloc);
        let mut left = seats;
        while left > 0 {
            let seat = table.shared.split_seat::<GivesNumber>(&mut giver);
            list.push(LaneSeat { seat })?;
            left -= 1;
        }
        Ok(SeatList {
            seats: list,
            next: 0,
            giver,
        })
    }

    /// The next seat, `None` exactly where all were given. Takes no memory.
    pub fn next(&mut self) -> Option<LaneSeat>
        ensures some { IfSome result (λ seat. seat ≡ new_clock_seat self.old.clock self.old.next) }
        ensures owns { IfSome result (λ seat. Owns seat seat.number) }
        ensures given { OnSome result (self.new ≡ one_given self.old) }
        ensures none { IsNone result ↔ (self.old.clock.plan.seats ≤ self.old.next) }
        ensures same { IfNone result (self.new ≡ self.old) }
    {
        let seat = self.seats.pop()?;
        self.next += 1;
        Some(seat)
    }
}
