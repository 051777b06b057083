ghost use Rattle.history_progress.specs.Bounded.{HoldsOfLegalBeginnings, WorkIsBounded};
ghost use Rattle.history_progress.specs.Ending.{HistoriesComeToAnEnd, ScriptsHaveHistories};
ghost use Rattle.history_progress.specs.Next.{NoHistoryIsStuck};

/// Each handler begins once, and the reactor turns at most twice for each act, once for each line of
/// the world and once at the last point: so a loop that is served by `poll_one` ends.
pub fn work_is_bounded()
    ensures { HoldsOfLegalBeginnings WorkIsBounded }
{}

/// A history that is legal so far is whole, or goes on by an event that neither a stop from outside
/// nor a failure of the reactor is, or all that is left waits for a guard that nothing releases any
/// more (`io_context::run`; `executor_work_guard`).
pub fn no_history_is_stuck()
    ensures { NoHistoryIsStuck }
{}

/// Wherever it has come to, a history comes to an end by such events, where bytes are told: it is whole
/// then, or waits for a guard (`io_context::run`, `::poll`).
pub fn histories_come_to_an_end()
    ensures { HistoriesComeToAnEnd }
{}

/// Each script in which `open` releases the guards has a whole history without a stop from outside
/// and without a failure of the reactor (`executor_work_guard::reset`).
pub fn scripts_have_histories()
    ensures { ScriptsHaveHistories }
{}
