ghost use Rattle.std.specs.Prelude.{◌≡◌, ◌+◌, ◌%◌, ◌<◌, [], ◌++◌, map, IfOk};
ghost use Rattle.turn_table.specs.Numbers.{run_from};
ghost use Rattle.turn_table.specs.Seated.{IsSeatOf, new_turn_seat};

use std::alloc::Global;
use std::sync::Wait;
use std::test::Fail;
use std::thread;
use std::thread::Threads;
use turn_table::{Home, Homes, TurnSeat, TurnSeats, TurnTable};

// A value that its type keeps even.
#[derive(Drop)]
struct Baton {
    lane: u32,
    count: u64,
    ghost even: { count % 2 ≡ 0 },
}

impl Home for Baton {
    ghost home_of = { λ b. b.lane };

    fn lane(&self) -> u32 {
        self.lane
    }
}

impl Baton {
    // Two more, as long as that fits.
    fn more(self) -> Baton
        ensures { result.lane ≡ self.lane }
    {
        match self.count.checked_add(2) {
            Some(count) => Baton {
                lane: self.lane,
                count,
            },
            None => self,
        }
    }
}

// A table of two lanes.
fn two_lanes(alloc: Global, seats: u32) -> Result<(TurnTable<Baton>, TurnSeats), Fail>
    requires { 0 < seats }
    ensures lanes { IfOk result (λ made. made.0.lanes ≡ 2) }
    ensures seats { IfOk result (λ made. (made.0.seats ≡ seats)
        × (made.1 ≡ map (new_turn_seat made.0) (run_from 0 seats))) }
{
    let homes = vec![in alloc; Baton { lane: 0, count: 10 }, Baton { lane: 1, count: 20 }]?;
    match TurnTable::make(alloc, Homes::of(homes), seats) {
        Ok(made) => Ok(made),
        Err((_homes, refused)) => Err(refused)?,
    }
}

#[test]
fn a_turn_is_taken_once_and_given_back(rt: HostRuntime) -> Result<(), Fail> {
    let (table, mut seats) = two_lanes(rt.alloc(), 2)?;
    let Some(mut one) = seats.next() else {
        unreachable!()
    };
    let Some(mut other) = seats.next() else {
        unreachable!()
    };
    assert!(rt; seats.next().is_none());
    let Some(baton) = table.take_turn(&mut one, 1) else {
        return Err(Fail::new("a free turn wasn't taken"));
    };
    assert!(rt; baton.lane() == 1 && baton.count == 20);
    assert!(rt; table.take_turn(&mut other, 1).is_none());
    assert!(rt; table.take_turn(&mut one, 1).is_none());
    table.give_turn(&mut one, 1, baton.more());
    let Some(baton) = table.take_turn(&mut other, 1) else {
        return Err(Fail::new("a turn that was given wasn't taken"));
    };
    assert!(rt; baton.count == 22);
    table.give_turn(&mut other, 1, baton);
    Ok(())
}

#[test]
fn who_gathers_all_seats_finds_every_turn(rt: HostRuntime) -> Result<(), Fail> {
    let (table, mut seats) = two_lanes(rt.alloc(), 2)?;
    let Some(mut whole) = seats.next() else {
        unreachable!()
    };
    let Some(other) = seats.next() else {
        unreachable!()
    };
    table.gather(&mut whole, other);
    let parted = table.part(&mut whole);
    table.gather(&mut whole, parted);
    let Some(baton) = table.take_turn(&mut whole, 0) else {
        unreachable!()
    };
    table.give_turn(&mut whole, 0, baton);
    let homes = table.close(whole);
    assert!(rt; homes.as_slice().len() == 2);
    Ok(())
}

// Adds two to the value of a lane, once its turn is free.
fn add<R: Wait>(rt: &R, table: &TurnTable<Baton>, seat: &mut TurnSeat, lane: u32)
    requires seat { IsSeatOf table.now seat.old × (seat.old.turns ≡ []) }
    requires lane { lane < table.now.lanes }
    ensures seat { IsSeatOf table.now seat.new × (seat.new.turns ≡ []) }
    ensures numbers { seat.new.numbers ≡ seat.old.numbers }
{
    for _ in rt.forever() {
        if let Some(baton) = table.take_turn(seat, lane) {
            table.give_turn(seat, lane, baton.more());
            return;
        }
        thread::yield_now();
    }
}

// Adds to both lanes.
fn work<R: Wait>(rt: &R, table: &TurnTable<Baton>, mut seat: TurnSeat) -> TurnSeat
    requires { IsSeatOf table.now seat × (seat.turns ≡ []) × (table.now.lanes ≡ 2) }
    ensures seat { IsSeatOf table.now result × (result.turns ≡ []) }
    ensures numbers { result.numbers ≡ seat.numbers }
{
    add(rt, table, &mut seat, 0);
    add(rt, table, &mut seat, 1);
    seat
}

// Two workers at once, whose seats are one then.
fn two<R: Threads + Wait + Sync>(
    rt: &R,
    table: &TurnTable<Baton>,
    one: TurnSeat,
    other: TurnSeat,
) -> TurnSeat
    requires seats { IsSeatOf table.now one × (one.turns ≡ []) × IsSeatOf table.now other
        × (other.turns ≡ []) }
    requires lanes { table.now.lanes ≡ 2 }
    ensures seat { IsSeatOf table.now result × (result.turns ≡ []) }
    ensures numbers { result.numbers ≡ one.numbers ++ other.numbers }
{
    let (mut whole, other) = thread::join(
        rt,
        move ||
            requires { IsSeatOf table.now one × (one.turns ≡ []) × (table.now.lanes ≡ 2) }
            ensures { IsSeatOf table.entry.now result × (result.turns ≡ [])
                × (result.numbers ≡ one.numbers) }
        { work(rt, table, one) },
        move ||
            requires { IsSeatOf table.now other × (other.turns ≡ []) × (table.now.lanes ≡ 2) }
            ensures { IsSeatOf table.entry.now result × (result.turns ≡ [])
                × (result.numbers ≡ other.numbers) }
        { work(rt, table, other) },
    );
    table.gather(&mut whole, other);
    whole
}

#[test]
fn a_value_goes_through_four_threads(rt: HostRuntime) -> Result<(), Fail> {
    let (made, mut seats) = two_lanes(rt.alloc(), 4)?;
    let table = &made;
    let (Some(a), Some(b), Some(c), Some(d)) = (
        seats.next(),
        seats.next(),
        seats.next(),
        seats.next(),
    ) else {
        unreachable!()
    };
    let (mut whole, other) = thread::join(
        &rt,
        move ||
            requires { IsSeatOf table.now a × (a.turns ≡ []) × IsSeatOf table.now b × (b.turns ≡ [])
                × (table.now.lanes ≡ 2) }
            ensures { IsSeatOf table.entry.now result × (result.turns ≡ [])
                × (result.numbers ≡ a.numbers ++ b.numbers) }
        { two(&rt, table, a, b) },
        move ||
            requires { IsSeatOf table.now c × (c.turns ≡ []) × IsSeatOf table.now d × (d.turns ≡ [])
                × (table.now.lanes ≡ 2) }
            ensures { IsSeatOf table.entry.now result × (result.turns ≡ [])
                × (result.numbers ≡ c.numbers ++ d.numbers) }
        { two(&rt, table, c, d) },
    );
    table.gather(&mut whole, other);
    let homes = made.close(whole);
    let counts = homes.as_slice();
    assert!(rt; counts[0].count == 18 && counts[1].count == 28);
    Ok(())
}
