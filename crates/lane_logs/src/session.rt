ghost use Rattle.std.specs.Prelude.{ℕ};
ghost use Rattle.lane_clock.specs.Seats.{ClockId};
ghost use Rattle.lane_logs.specs.Names.{SessionNames, no_clock, no_names};

use std::marker::Brand;

/// The names of one session without a lock, for contracts alone: a type that is bound by this trait
/// stands for one session, and a caller picks its members where it passes `Brand`. What lies in a
/// slot is known by its type, so what a lane keeps is said in these names.
pub trait LaneSession {
    /// Its script, whether its reactor tells its bytes, and the marks of its handlers.
    ghost names: { SessionNames };

    /// The clock that gives its events their positions.
    ghost clock: { ClockId };

    /// How often its reactor had failed when the session began.
    ghost faults: { ℕ };
}

impl LaneSession for Brand {
    ghost names = { no_names };

    ghost clock = { no_clock };

    ghost faults = { 0 };
}
