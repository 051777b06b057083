ghost use Rattle.std.specs.Prelude.{◌≡◌, ◌<◌, ◌≤◌, [], length};
ghost use Rattle.lane_clock.specs.Seats.{own};

use crate::failure::Failure;
use crate::rounds::{STEPS, rounds_of, sum_of};
use crate::seats::seats_of;
use crate::stopwatch::{Measured, Stopwatch};
use asio_types::Code;
use lane_clock::{LaneClock, LaneSeat, Note};
use std::alloc::Global;
use std::rt::Clock;
use std::thread::{Threads, map_vec};
use std::time::CpuClock;

const NOTE: Note = Note {
    op: 7,
    code: Code::Ok,
    size: 0,
};

/// Draws places of lane 0, puts a note there and looks at it, all times; answers how often the note
/// was seen.
#[tactic(auto, using(lane_clock::proofs::CountLemmas::counted_push))]
fn place_all(clock: &LaneClock, mut seat: LaneSeat) -> u64
    requires clock { seat.clock ≡ clock.now }
    requires lane { 0 < length clock.now.plan.cells }
    requires new { own seat ≡ [] }
{
    let mut seen: u64 = 0;
    for _ in 0..STEPS {
        let Some(place) = clock.place_in(&mut seat, 0) else {
            return seen;
        };
        clock.put_cell(&mut seat, 0, place, NOTE);
        if clock.look(&mut seat, 0, place).is_some() {
            seen = seen.saturating_add(1);
        }
    }
    seen
}

/// One round; answers how many notes were seen.
fn round<R: Threads + Clock + CpuClock + Sync>(
    rt: &R,
    alloc: Global,
    threads: u32,
) -> Result<Measured, Failure>
    requires few { threads ≤ 16 }
{
    let (clock, list) = LaneClock::make(alloc, &[threads * STEPS], threads, 0)?;
    let seats = seats_of(alloc, list, threads)?;
    let watch = Stopwatch::begin(rt)?;
    let seen: Vec<u64> = map_vec(
        rt,
        seats,
        &|seat: LaneSeat| -> u64
            requires { (seat.clock ≡ clock) × (own seat ≡ []) × (0 < length clock.plan.cells) }
        { place_all(&clock, seat) },
    )?;
    watch.end(rt, sum_of(seen.as_slice()))
}

/// `cells THREADS ROUNDS`: in each round that many threads draw 65,536 places each of one lane, put
/// a note there and look at it. Answers how many notes were seen.
pub(crate) fn cells<R: Threads + Clock + CpuClock + Sync>(
    rt: &R,
    alloc: Global,
    threads: u32,
    rounds: u32,
) -> Result<Measured, Failure> {
    let size = rounds_of(threads, rounds)?;
    let mut seen = Measured::none();
    for _ in 0..size.rounds {
        seen.add(round(rt, alloc, size.threads)?);
    }
    Ok(seen)
}
