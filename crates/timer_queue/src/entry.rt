ghost use Rattle.std.specs.Prelude.{◌≡◌, ◌+◌};
ghost use Rattle.timer_queue.specs.Entry.{is_entry_before};

use crate::steps::Tally;
use asio_types::OpNo;

/// A pending wait (Asio reference, `steady_timer::async_wait`).
#[derive(Clone, Copy, PartialEq, Eq)]
pub struct TimerEntry {
    /// When it is due.
    pub expiry: u64,
    /// Its place in the order of acceptance. No two entries of a queue share one.
    pub serial: u32,
    /// The operation that waits. No two entries of a queue share one.
    pub op: OpNo,
}

impl TimerEntry {
    /// Whether this entry comes before another: by expiry, and at one expiry by acceptance. It is
    /// the only comparison of entries, and counted as one step.
    pub(crate) fn precedes<T: Tally>(&self, other: &TimerEntry, steps: &mut T) -> bool
        ensures value { result ≡ is_entry_before self.now other.now }
        ensures counted { T.count steps.new ≡ T.count steps.old + 1 }
    {
        steps.tick();
        self.expiry < other.expiry || (self.expiry == other.expiry && self.serial < other.serial)
    }
}
