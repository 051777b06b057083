use crate::failure::Failure;
use crate::rounds::{STEPS, rounds_of};
use crate::stopwatch::{Measured, Stopwatch};
use std::alloc::Global;
use std::rt::Clock;
use std::sync::atomic::{AtomicU64, Ordering};
use std::thread::{Threads, map_indices};
use std::time::CpuClock;

/// Makes all additions of a thread.
fn add_all(total: &AtomicU64) {
    for _ in 0..STEPS {
        total.fetch_add(1, Ordering::SeqCst);
    }
}

/// One round of additions; counts the number at its end.
fn round<R: Threads + Clock + CpuClock + Sync>(
    rt: &R,
    alloc: Global,
    threads: u32,
) -> Result<Measured, Failure> {
    let total = AtomicU64::new(0);
    let watch = Stopwatch::begin(rt)?;
    map_indices(rt, alloc, threads as usize, &|_| add_all(&total))?;
    watch.end(rt, total.load(Ordering::SeqCst))
}

/// `adds THREADS ROUNDS`: what `draws` does, by additions to one atomic number.
pub(crate) fn adds<R: Threads + Clock + CpuClock + Sync>(
    rt: &R,
    alloc: Global,
    threads: u32,
    rounds: u32,
) -> Result<Measured, Failure> {
    let size = rounds_of(threads, rounds)?;
    let mut added = Measured::none();
    for _ in 0..size.rounds {
        added.add(round(rt, alloc, size.threads)?);
    }
    Ok(added)
}
