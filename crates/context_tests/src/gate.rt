//! Where two handlers wait for each other.

use std::sync::atomic::{AtomicBool, AtomicU32, Ordering};
use std::thread::yield_now;

/// A gate for the handlers of the operations 0 and 1. Each sets a flag of its own and looks for the
/// other's, so many times at the most; one that hasn't seen the other takes its own flag back.
#[derive(Drop)]
pub(crate) struct Gate {
    looks: u32,
    first: AtomicBool,
    second: AtomicBool,
    met: AtomicU32,
    missed: AtomicU32,
}

impl Gate {
    /// Where nobody came yet.
    pub(crate) fn of_looks(looks: u32) -> Gate {
        Gate {
            looks,
            first: AtomicBool::new(false),
            second: AtomicBool::new(false),
            met: AtomicU32::new(0),
            missed: AtomicU32::new(0),
        }
    }

    /// How many handlers have seen the other, and how many have given up.
    pub(crate) fn passed(&self) -> (u32, u32) {
        (
            self.met.load(Ordering::SeqCst),
            self.missed.load(Ordering::SeqCst),
        )
    }

    /// Whether a flag is seen. Now and then another thread goes first.
    fn sees(&self, other: &AtomicBool) -> bool {
        for look in 0..self.looks {
            if other.load(Ordering::SeqCst) {
                return true;
            }
            if look % 1_024 == 0 {
                yield_now();
            }
        }
        false
    }

    /// Comes by one flag, and looks for the other.
    fn pass(&self, own: &AtomicBool, other: &AtomicBool) {
        own.store(true, Ordering::SeqCst);
        if self.sees(other) {
            self.met.fetch_add(1, Ordering::SeqCst);
        } else {
            own.store(false, Ordering::SeqCst);
            self.missed.fetch_add(1, Ordering::SeqCst);
        }
    }

    /// The handler of an operation passes.
    pub(crate) fn pass_as(&self, number: u32) {
        if number == 0 {
            self.pass(&self.first, &self.second);
        } else {
            self.pass(&self.second, &self.first);
        }
    }
}
