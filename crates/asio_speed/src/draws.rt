ghost use Rattle.std.specs.Prelude.{◌≡◌, ◌≤◌, []};
ghost use Rattle.lane_clock.specs.Seats.{own};

use crate::failure::Failure;
use crate::rounds::{STEPS, rounds_of};
use crate::seats::seats_of;
use crate::stopwatch::{Measured, Stopwatch};
use asio_types::Event;
use lane_clock::{Change, LaneClock, LaneSeat};
use std::alloc::Global;
use std::rt::Clock;
use std::thread::{Threads, map_vec};
use std::time::CpuClock;

/// Makes all draws of a seat.
#[tactic(auto, using(lane_clock::proofs::CountLemmas::counted_push))]
fn draw_all(clock: &LaneClock, mut seat: LaneSeat)
    requires clock { seat.clock ≡ clock.now }
    requires new { own seat ≡ [] }
{
    for _ in 0..STEPS {
        clock.draw(&mut seat, Change::Same, Event::Last);
    }
}

/// One round of draws; answers what the clock shows at its end.
fn round<R: Threads + Clock + CpuClock + Sync>(
    rt: &R,
    alloc: Global,
    threads: u32,
) -> Result<Measured, Failure>
    requires few { threads ≤ 16 }
{
    let (clock, mut list) = LaneClock::make(alloc, &[0], threads, 0)?;
    let Some(mut reader) = list.next() else {
        unreachable!()
    };
    let seats = seats_of(alloc, list, threads)?;
    let watch = Stopwatch::begin(rt)?;
    map_vec(
        rt,
        seats,
        &|seat: LaneSeat|
            requires { (seat.clock ≡ clock) × (own seat ≡ []) }
        { draw_all(&clock, seat) },
    )?;
    watch.end(rt, clock.load(&mut reader).clock)
}

/// `draws THREADS ROUNDS`: in each round that many threads draw 65,536 positions each from one
/// clock. Answers how many were drawn.
pub(crate) fn draws<R: Threads + Clock + CpuClock + Sync>(
    rt: &R,
    alloc: Global,
    threads: u32,
    rounds: u32,
) -> Result<Measured, Failure> {
    let size = rounds_of(threads, rounds)?;
    let mut drawn = Measured::none();
    for _ in 0..size.rounds {
        drawn.add(round(rt, alloc, size.threads)?);
    }
    Ok(drawn)
}
