ghost use Rattle.std.specs.Prelude.{List};
ghost use Rattle.run_lines.specs.declared.line.Line.{Line};
ghost use Rattle.run_rules.specs.declared.level.Level.{Level};
ghost use Rattle.run_rules.specs.Laws.{SpendOnce, SpendEach, RunOneAtATime, HoldAlone, KeepTheOrderOfCalls, NestNothing, KeepTheStrictOrder};
ghost use Rattle.run_rules.specs.Verdicts.{HasOneVerdict};

/// A handler is called or destroyed at most once (Boost.Asio reference, Overview, "Asynchronous
/// Operations").
pub fn handlers_are_spent_once()
    ensures { (level : Level) (past : List Line) → SpendOnce level past }
{}

/// In a whole run the handler of each operation that was called is called or destroyed exactly once.
pub fn whole_runs_spend_each_handler()
    ensures { (level : Level) (past : List Line) → SpendEach level past }
{}

/// Two executions of one strand that go on at the same time are on one thread, one inside the other
/// (reference, `io_context::strand`).
pub fn strands_run_one_at_a_time()
    ensures { (level : Level) (past : List Line) → RunOneAtATime level past }
{}

/// What is claimed or locked is so by one thread.
pub fn claims_are_held_by_one_thread()
    ensures { (level : Level) (past : List Line) → HoldAlone level past }
{}

/// What was placed in the queue of a strand before another operation entered it has begun or been
/// dropped when that one begins, unless that one begins inside (reference, `io_context::strand`,
/// "Order of handler invocation").
pub fn strands_keep_the_order_of_calls()
    ensures { (level : Level) (past : List Line) → KeepTheOrderOfCalls level past }
{}

/// In a strict run, what begins on a strand goes ahead of all else that is ready there: what a
/// handler of that strand dispatched to it is first, and the rest comes in the order in which it
/// became ready (reference, `io_context::strand`, "Order of handler invocation").
pub fn strict_strands_keep_one_order()
    ensures { (level : Level) (past : List Line) → KeepTheStrictOrder level past }
{}

/// In a strict run no handler is executed inside another.
pub fn strict_runs_nest_nothing()
    ensures { (level : Level) (past : List Line) → NestNothing level past }
{}

/// A run has one verdict: its first illegal line is one, and so is the rule that is named.
pub fn verdicts_are_unique()
    ensures { (level : Level) (past : List Line) → HasOneVerdict level past }
{}
