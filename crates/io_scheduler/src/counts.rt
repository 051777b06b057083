ghost use Rattle.std.specs.Prelude.{◌≡◌, ◌<◌};
ghost use Rattle.io_scheduler.specs.Counted.{grant_in, left_of, new_counts};
ghost use Rattle.io_scheduler.specs.Posted.{counts_called};

use io_rules::{Limits, MOST_NUMBERS};

/// The numbers of a context.
#[derive(Clone, Copy)]
pub(crate) struct Counts {
    /// What it has room for.
    pub(crate) limits: Limits,
    /// The number of the next operation.
    pub(crate) next: u64,
    /// How many numbers are kept for handlers that execute.
    pub(crate) promised: u64,
    /// How many places for operations are free.
    pub(crate) room: u32,
    /// How many work guards there are.
    pub(crate) holds: u64,
    /// Whether it is stopped.
    pub(crate) stopped: bool,
    /// Nanoseconds since it was made.
    pub(crate) clock: u64,
}

impl Counts {
    /// Before the first event.
    pub(crate) fn new(limits: Limits) -> Counts
        ensures { result ≡ new_counts limits }
    {
        Counts {
            limits,
            next: 0,
            promised: 0,
            room: limits.operations,
            holds: 0,
            stopped: false,
            clock: 0,
        }
    }

    /// The number of an operation that a handler initiates.
    pub(crate) fn take_kept(&mut self) -> u64
        requires { self.old.next < 18446744073709551615 }
        ensures number { result ≡ self.old.next }
        ensures below { self.old.next < 18446744073709551615 }
        ensures called { self.new ≡ counts_called self.old }
    {
        let number = self.next;
        self.next += 1;
        self.promised = self.promised.saturating_sub(1);
        number
    }

    /// How many numbers are neither given nor kept.
    pub(crate) fn numbers_left(&self) -> u64
        ensures { result ≡ left_of self.now }
    {
        MOST_NUMBERS.saturating_sub(self.next.saturating_add(self.promised))
    }

    /// How many operations a handler that begins is granted besides the one that has its own place.
    pub(crate) fn grant(&self) -> u32
        ensures { result ≡ grant_in self.now }
    {
        let left = self.numbers_left().saturating_sub(1);
        let most = if left < u64::from(self.room) {
            left as u32
        } else {
            self.room
        };
        if self.limits.grant < most {
            self.limits.grant
        } else {
            most
        }
    }
}
