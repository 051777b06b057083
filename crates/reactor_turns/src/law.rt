ghost use Rattle.reactor_turns.specs.Ahead.{TurnsAreBounded, TurnsKeepRoom};

/// The events of a turn of the reactor are at most what was ahead before it: the take of each
/// request that wasn't taken, the completion of each operation, a tick to each expiry and to each
/// time of the world, the last time point, and a failure. So a log with room for all of these has
/// room for a turn, and keeps it for those that follow.
pub fn turns_keep_room()
    ensures { TurnsKeepRoom }
{}

/// Before the first turn no more is ahead than three events for each act, one for each line of the
/// world, and two.
pub fn turns_are_bounded()
    ensures { TurnsAreBounded }
{}
