use crate::failure::Failure;
use std::rt::Clock;
use std::time::{CpuClock, Duration, Instant};

/// How many steps a measure took, and how many nanoseconds these took together: by the clock, and
/// of processor time, that of all threads.
#[derive(Clone, Copy)]
pub(crate) struct Measured {
    pub(crate) steps: u64,
    pub(crate) elapsed: u64,
    pub(crate) worked: u64,
}

impl Measured {
    pub(crate) fn none() -> Measured {
        Measured {
            steps: 0,
            elapsed: 0,
            worked: 0,
        }
    }

    /// These steps come too.
    pub(crate) fn add(&mut self, more: Measured) {
        self.steps = self.steps.saturating_add(more.steps);
        self.elapsed = self.elapsed.saturating_add(more.elapsed);
        self.worked = self.worked.saturating_add(more.worked);
    }
}

/// A time that is being taken.
#[derive(Clone, Copy)]
pub(crate) struct Stopwatch {
    begun: Instant,
    worked: Duration,
}

fn nanos_of(time: Duration) -> u64 {
    u64::try_from(time.as_nanos()).unwrap_or(u64::MAX)
}

impl Stopwatch {
    pub(crate) fn begin<R: Clock + CpuClock>(rt: &R) -> Result<Stopwatch, Failure> {
        let Ok(worked) = rt.process_cpu_time() else {
            return Err(Failure::Clock);
        };
        match Instant::now(rt) {
            Ok(begun) => Ok(Stopwatch { begun, worked }),
            Err(_) => Err(Failure::Clock),
        }
    }

    /// So many steps were taken since it began.
    pub(crate) fn end<R: Clock + CpuClock>(self, rt: &R, steps: u64) -> Result<Measured, Failure> {
        let Ok(elapsed) = self.begun.elapsed(rt) else {
            return Err(Failure::Clock);
        };
        let Ok(worked) = rt.process_cpu_time() else {
            return Err(Failure::Clock);
        };
        Ok(Measured {
            steps,
            elapsed: nanos_of(elapsed),
            worked: nanos_of(worked).saturating_sub(nanos_of(self.worked)),
        })
    }
}
