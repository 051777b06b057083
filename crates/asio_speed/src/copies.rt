ghost use Rattle.std.specs.Prelude.{◌≡◌, ◌≤◌, []};
ghost use Rattle.lane_clock.specs.Seats.{own};

use crate::failure::Failure;
use crate::rounds::{STEPS, rounds_of, sum_of};
use crate::seats::seats_of;
use crate::stopwatch::{Measured, Stopwatch};
use lane_clock::{LaneClock, LaneSeat};
use std::alloc::Global;
use std::rt::Clock;
use std::thread::{Threads, map_vec};
use std::time::CpuClock;

/// Copies a seat, and takes the copy in, all times; answers how often.
fn copy_all(clock: &LaneClock, mut seat: LaneSeat) -> u64
    requires clock { seat.clock ≡ clock.now }
{
    let mut met: u64 = 0;
    for _ in 0..STEPS {
        let copy = clock.split(&mut seat);
        clock.meet(&mut seat, copy);
        met = met.saturating_add(1);
    }
    met
}

/// One round of copies; answers how many were met.
fn round<R: Threads + Clock + CpuClock + Sync>(
    rt: &R,
    alloc: Global,
    threads: u32,
) -> Result<Measured, Failure>
    requires few { threads ≤ 16 }
{
    let (clock, list) = LaneClock::make(alloc, &[0], threads, 0)?;
    let seats = seats_of(alloc, list, threads)?;
    let watch = Stopwatch::begin(rt)?;
    let met: Vec<u64> = map_vec(
        rt,
        seats,
        &|seat: LaneSeat| -> u64
            requires { (seat.clock ≡ clock) × (own seat ≡ []) }
        { copy_all(&clock, seat) },
    )?;
    watch.end(rt, sum_of(met.as_slice()))
}

/// `copies THREADS ROUNDS`: in each round that many threads copy a seat of a clock and take the
/// copy in, 65,536 times each. Answers how often.
pub(crate) fn copies<R: Threads + Clock + CpuClock + Sync>(
    rt: &R,
    alloc: Global,
    threads: u32,
    rounds: u32,
) -> Result<Measured, Failure> {
    let size = rounds_of(threads, rounds)?;
    let mut met = Measured::none();
    for _ in 0..size.rounds {
        met.add(round(rt, alloc, size.threads)?);
    }
    Ok(met)
}
