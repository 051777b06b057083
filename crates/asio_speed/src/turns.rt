ghost use Rattle.std.specs.Prelude.{◌≡◌, ◌<◌, ◌≤◌, [], All, IfOk, length};
ghost use Rattle.turn_table.specs.Seated.{Lanes, IsSeatOf};
ghost use Rattle.turn_table.specs.Laid.{AreAtHome};

use crate::failure::Failure;
use crate::rounds::{STEPS, rounds_of, sum_of};
use crate::stopwatch::{Measured, Stopwatch};
use asio_types::NoMemory;
use std::alloc::Global;
use std::rt::Clock;
use std::thread::{Threads, map_vec};
use std::time::CpuClock;
use turn_table::{Home, Homes, TurnSeat, TurnSeats, TurnTable};

/// The value of a lane.
#[derive(Drop)]
struct Baton {
    lane: u32,
}

impl Home for Baton {
    ghost home_of = { λ b. b.lane };

    fn lane(&self) -> u32 {
        self.lane
    }
}

/// A seat, and the lane whose turn it takes.
#[derive(Drop)]
struct Worker {
    seat: TurnSeat,
    lane: u32,
}

/// Takes a lane's turn and gives it back, all times; answers how often it wasn't held.
fn take_all(table: &TurnTable<Baton>, worker: Worker) -> u64
    requires seat { IsSeatOf table.now worker.seat × (worker.seat.turns ≡ []) }
    requires lane { worker.lane < table.now.lanes }
{
    let Worker { mut seat, lane } = worker;
    let mut taken: u64 = 0;
    for _ in 0..STEPS {
        if let Some(baton) = table.take_turn(&mut seat, lane) {
            table.give_turn(&mut seat, lane, baton);
            taken = taken.saturating_add(1);
        }
    }
    taken
}

/// A worker for each seat, on the lanes in turn.
fn workers_of(
    alloc: Global,
    table: &TurnTable<Baton>,
    mut seats: TurnSeats,
    count: u32,
    lanes: u32,
) -> Result<Vec<Worker>, NoMemory>
    requires seats { All (λ seat. IsSeatOf table.now seat × (seat.turns ≡ [])) seats }
    requires lanes { (0 < lanes) × (table.now.lanes ≡ lanes) }
    ensures { IfOk result (λ workers. All (λ worker. IsSeatOf table.now worker.seat
        × (worker.seat.turns ≡ []) × (worker.lane < table.now.lanes)) workers.items) }
{
    let mut workers = Vec::with_capacity(alloc, count as usize)?;
    for i in 0..count {
        let Some(seat) = seats.next() else { break };
        workers.push(Worker {
            seat,
            lane: i % lanes,
        })?;
    }
    Ok(workers)
}

/// The value of lane 0.
fn one_home(alloc: Global) -> Result<Homes<Baton>, NoMemory>
    ensures { IfOk result (λ homes. AreAtHome (λ b. b.lane) homes × (length homes ≡ 1)) }
{
    let mut homes = Vec::new(alloc);
    homes.push(Baton { lane: 0 })?;
    Ok(Homes::of(homes))
}

/// The values of four lanes.
fn four_homes(alloc: Global) -> Result<Homes<Baton>, NoMemory>
    ensures { IfOk result (λ homes. AreAtHome (λ b. b.lane) homes × (length homes ≡ 4)) }
{
    let mut homes = Vec::new(alloc);
    homes.push(Baton { lane: 0 })?;
    homes.push(Baton { lane: 1 })?;
    homes.push(Baton { lane: 2 })?;
    homes.push(Baton { lane: 3 })?;
    Ok(Homes::of(homes))
}

/// A table of these values, and its seats.
fn table_of(
    homes: Homes<Baton>,
    alloc: Global,
    seats: u32,
) -> Result<(TurnTable<Baton>, TurnSeats), NoMemory>
    requires seats { 0 < seats }
    requires home { AreAtHome (λ b. b.lane) homes }
    ensures lanes { IfOk result (λ made. made.0.lanes ≡ length homes) }
    ensures seats { IfOk result
        (λ made. All (λ seat. IsSeatOf made.0 seat × (seat.turns ≡ [])) made.1) }
{
    match TurnTable::make(alloc, homes, seats) {
        Ok(made) => Ok(made),
        Err((_homes, refused)) => Err(refused),
    }
}

/// One round on so many lanes; answers how many turns were taken.
fn round<R: Threads + Clock + CpuClock + Sync>(
    rt: &R,
    alloc: Global,
    homes: Homes<Baton>,
    lanes: u32,
    threads: u32,
) -> Result<Measured, Failure>
    requires lanes { (0 < lanes) × (length homes ≡ lanes) }
    requires home { AreAtHome (λ b. b.lane) homes }
    requires threads { 0 < threads }
{
    let (table, seats) = table_of(homes, alloc, threads)?;
    let workers = workers_of(alloc, &table, seats, threads, lanes)?;
    let watch = Stopwatch::begin(rt)?;
    let taken: Vec<u64> = map_vec(
        rt,
        workers,
        &|worker: Worker| -> u64
            requires { IsSeatOf table worker.seat × (worker.seat.turns ≡ [])
                × (worker.lane < table.lanes) }
        { take_all(&table, worker) },
    )?;
    watch.end(rt, sum_of(taken.as_slice()))
}

/// `turn THREADS ROUNDS`: in each round that many threads take the turn of one lane and give it
/// back, 65,536 tries each. Answers how often it wasn't held.
pub(crate) fn one_lane<R: Threads + Clock + CpuClock + Sync>(
    rt: &R,
    alloc: Global,
    threads: u32,
    rounds: u32,
) -> Result<Measured, Failure> {
    let size = rounds_of(threads, rounds)?;
    let mut taken = Measured::none();
    for _ in 0..size.rounds {
        let homes = one_home(alloc)?;
        taken.add(round(rt, alloc, homes, 1, size.threads)?);
    }
    Ok(taken)
}

/// `turns THREADS ROUNDS`: the same on four lanes, a thread on each.
pub(crate) fn four_lanes<R: Threads + Clock + CpuClock + Sync>(
    rt: &R,
    alloc: Global,
    threads: u32,
    rounds: u32,
) -> Result<Measured, Failure> {
    let size = rounds_of(threads, rounds)?;
    let mut taken = Measured::none();
    for _ in 0..size.rounds {
        let homes = four_homes(alloc)?;
        taken.add(round(rt, alloc, homes, 4, size.threads)?);
    }
    Ok(taken)
}
