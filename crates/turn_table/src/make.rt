// Making a table, and closing it.
ghost use Rattle.std.specs.Prelude.{◌≡◌, ◌+◌, ◌<◌, ◌≤◌, [], map, length, replicate, vec_capacity, IfOk, IfErr};
ghost use Rattle.std.specs.Mem.Slots.{slots_items, slots_len, IsFull};
ghost use Rattle.turn_table.specs.Numbers.{all_below, run_from};
ghost use Rattle.turn_table.specs.Laid.{AreAtHome, AreBare, IsVacant, IsWhole};
ghost use Rattle.turn_table.specs.Seated.{HasAllTurns, IsSeatOf, StandsForAll, first_seat, new_turn_seat, seat_of_all};

use crate::home::{Home, Homes};
use crate::place::{Sizes, TablePlace};
use crate::seat::{TurnSeat, TurnSeats};
use crate::table::TurnTable;
use asio_types::NoMemory;
use atomic_table::{Closed, Refused, Table};
use std::alloc::Global;

// The memory of a table, all of whose turns are held.
struct Reserved<T> {
    words: Vec<u64>,
    places: Vec<TablePlace<T>>,
}

fn reserve<T>(alloc: Global, lanes: usize) -> Result<Reserved<T>, NoMemory>
    ensures words { IfOk result (λ r. r.words.items ≡ replicate (lanes + 1) 1) }
    ensures places { IfOk result (λ r. AreBare lanes r.places.items) }
{
    let Some(count) = lanes.checked_add(1) else {
        return Err(NoMemory);
    };
    let words = vec![in alloc; 1u64; count]?;
    let places = Vec::with_capacity(alloc, count)?;
    match Vec::with_capacity(alloc, lanes) {
        Ok(room) => Ok(Reserved {
            words,
            places: lay_out(places, room, lanes),
        }),
        Err(_) => {
            places.destroy_empty();
            Err(NoMemory)
        }
    }
}

// Nothing for each lane, and the room behind.
fn lay_out<T>(mut places: Vec<TablePlace<T>>, room: Vec<T>, lanes: usize) -> Vec<TablePlace<T>>
    requires none { places.items ≡ [] }
    requires spare { lanes + 1 ≤ vec_capacity places }
    requires empty { room.items ≡ [] }
    requires fits { lanes ≤ vec_capacity room }
    ensures { AreBare lanes result.items }
{
    let mut lane = 0;
    while lane < lanes {
        places.push_reserved(TablePlace::Empty);
        lane += 1;
    }
    places.push_reserved(TablePlace::Room(room));
    places
}

// Lets go of memory with no value in it.
fn pick_up<T>(mut places: Vec<TablePlace<T>>, lanes: usize)
    requires { AreBare lanes places.items }
{
    let last = places.pop().unwrap();
    let TablePlace::Room(room) = last else {
        unreachable!()
    };
    room.destroy_empty();
    while let Some(place) = places.pop() {
        let TablePlace::Empty = place else {
            unreachable!()
        };
    }
    places.destroy_empty();
}

// Takes the values out of a closed table.
fn take_out<T: Home>(mut closed: Closed<TablePlace<T>, Global>, lanes: usize) -> Homes<T>
    requires full { IsFull closed.slots × (slots_len closed.slots ≡ lanes + 1) }
    requires whole { IsWhole T.home_of lanes (slots_items closed.slots) }
    ensures lanes { length result ≡ lanes }
    ensures home { AreAtHome T.home_of result }
{
    let last = closed.take(lanes);
    let TablePlace::Room(mut values) = last else {
        unreachable!()
    };
    let mut lane = 0;
    while lane < lanes {
        let place = closed.take(lane);
        let TablePlace::Value(value) = place else {
            unreachable!()
        };
        values.push_reserved(value);
        lane += 1;
    }
    closed.free();
    Homes::of(values)
}

// Lets go of a closed table with no value in it.
fn let_go<T>(mut closed: Closed<TablePlace<T>, Global>, lanes: usize)
    requires full { IsFull closed.slots × (slots_len closed.slots ≡ lanes + 1) }
    requires vacant { IsVacant lanes (slots_items closed.slots) }
{
    let last = closed.take(lanes);
    let TablePlace::Room(room) = last else {
        unreachable!()
    };
    room.destroy_empty();
    let mut lane = 0;
    while lane < lanes {
        let place = closed.take(lane);
        let TablePlace::Empty = place else {
            unreachable!()
        };
        lane += 1;
    }
    closed.free();
}

impl<T: Home> TurnTable<T> {
    /// A table of these values, of which the n-th, from 0, belongs to lane n, and a seat for each
    /// number below `seats`. Takes memory for the words, the values and the seats; where it is
    /// refused, the values come back.
    pub fn make(
        alloc: Global,
        homes: Homes<T>,
        seats: u32,
    ) -> Result<(TurnTable<T>, TurnSeats), (Homes<T>, NoMemory)>
        requires seats { 0 < seats }
        requires home { AreAtHome T.home_of homes }
        ensures lanes { IfOk result (λ made. made.0.lanes ≡ length homes) }
        ensures numbers { IfOk result (λ made. made.0.seats ≡ seats) }
        ensures seats { IfOk result
            (λ made. made.1 ≡ map (new_turn_seat made.0) (run_from 0 seats)) }
        ensures refused { IfErr result (λ back. back.0 ≡ homes) }
    {
        let list = match Vec::with_capacity(alloc, seats as usize) {
            Ok(list) => list,
            Err(_) => return Err((homes, NoMemory)),
        };
        let lanes = homes.as_slice().len();
        match TurnTable::held(alloc, lanes, seats) {
            Ok((table, whole)) => {
                let whole = table.give_all(whole, homes.into_vec());
                let seats = table.seat_all(whole, list, seats);
                Ok((table, seats))
            }
            Err(refused) => Err((homes, refused)),
        }
    }

    /// A table with no value yet, for so many lanes, and the seat that stands for each number below
    /// `seats` and has all turns: with each turn that it gives, a lane gets its value. Takes memory
    /// for the words and the values. It is closed by `close`, or by `close_held`.
    pub fn held(
        alloc: Global,
        lanes: usize,
        seats: u32,
    ) -> Result<(TurnTable<T>, TurnSeat), NoMemory>
        requires seats { 0 < seats }
        ensures lanes { IfOk result (λ made. made.0.lanes ≡ lanes) }
        ensures numbers { IfOk result (λ made. made.0.seats ≡ seats) }
        ensures seat { IfOk result (λ made. made.1 ≡ seat_of_all made.0) }
    {
        let reserved = reserve(alloc, lanes)?;
        let Reserved { words, places } = reserved;
        let sizes = Sizes { lanes, seats };
        match Table::new(alloc, words.as_slice(), places, &sizes) {
            Ok((table, first)) => {
                let table = TurnTable { table };
                let seat = TurnSeat {
                    badge: first.into_badge(),
                };
                Ok((table, seat))
            }
            Err(refused) => {
                let Refused { slots } = refused;
                pick_up(slots, lanes);
                Err(NoMemory)
            }
        }
    }

    // Gives every turn of the seat that has all of them, with these values.
    fn give_all(&self, whole: TurnSeat, values: Vec<T>) -> TurnSeat
        requires seat { whole ≡ seat_of_all self.now }
        requires count { length values.items ≡ self.now.lanes }
        requires home { AreAtHome T.home_of values.items }
        ensures { result ≡ first_seat self.now self.now.seats }
    {
        let mut seat = whole;
        let mut rest = values;
        while let Some(value) = rest.pop() {
            let lane = value.lane();
            self.give_turn(&mut seat, lane, value);
        }
        rest.destroy_empty();
        seat
    }

    // A seat for each number, of the seat that stands for all of them.
    fn seat_all(&self, mut whole: TurnSeat, mut list: Vec<TurnSeat>, count: u32) -> TurnSeats
        requires seats { (0 < count) × (whole ≡ first_seat self.now count) }
        requires room { (list.items ≡ []) × (count ≤ vec_capacity list) }
        ensures { result ≡ map (new_turn_seat self.now) (run_from 0 count) }
    {
        let mut left = count;
        while left > 1 {
            list.push_reserved(self.part(&mut whole));
            left -= 1;
        }
        list.push_reserved(whole);
        TurnSeats { left: list }
    }

    /// Ends the table, by the seat that stands for all numbers and has no turn. It gives every
    /// value, lane 0 first; no memory.
    pub fn close(self, seat: TurnSeat) -> Homes<T>
        requires seat { IsSeatOf self seat }
        requires all { StandsForAll seat }
        requires no_turn { seat.turns ≡ [] }
        ensures lanes { length result ≡ self.lanes }
        ensures home { AreAtHome T.home_of result }
    {
        let TurnTable { table } = self;
        let TurnSeat { badge } = seat;
        let lanes = table.slot_count() - 1;
        take_out(table.close_with(badge.into_seat()), lanes)
    }

    /// Ends the table, by the seat that has all turns: no value is left in it. No memory.
    pub fn close_held(self, seat: TurnSeat)
        requires seat { IsSeatOf self seat }
        requires turns { HasAllTurns self seat }
    {
        let TurnTable { table } = self;
        let TurnSeat { badge } = seat;
        let lanes = table.slot_count() - 1;
        let_go(table.close_with(badge.into_seat()), lanes);
    }
}
