ghost use Rattle.io_timers.specs.DueFirst.{CompleteByExpiry};

/// Of two waits that are pending together, under expiries that stay, the one that expires earlier completes
/// first, at one expiry the one that was accepted earlier; and none completes before its expiry
/// (`basic_waitable_timer::async_wait`).
pub fn waits_complete_by_expiry()
    ensures { CompleteByExpiry }
{}
