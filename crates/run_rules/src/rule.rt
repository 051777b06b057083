/// The rules of runs, in the order in which the rules of one line are asked.
#[derive(Clone, Copy, Debug, PartialEq, Eq)]
pub enum Rule {
    /// Numbers of operations rise.
    New,
    /// No other read, or no other write, of this stream is pending.
    Single,
    /// This operation is the last call of this frame, and isn't back.
    Returns,
    /// This operation was called, and has neither begun nor been dropped.
    Waiting,
    /// It is an asynchronous operation, and no posting.
    Asynchronous,
    /// It isn't done yet.
    DoneOnce,
    /// It begins with the outcome that it has.
    Outcome,
    /// Its strand runs nothing, or runs it inside an execution that dispatched it.
    Free,
    /// No other operation of its strand was placed before it.
    First,
    /// Strict: an asynchronous operation begins behind its completion.
    Ready,
    /// Strict: it is the next one of its strand.
    Order,
    /// Strict: its context isn't stopped.
    Stopped,
    /// Strict: nothing executes on its thread.
    Nested,
    /// It is the innermost execution of this thread.
    Innermost,
    /// It has given back all that it took.
    Clean,
    /// No other thread has claimed this.
    Untouched,
    /// No other thread holds this mutex.
    Unlocked,
    /// This frame has claimed this.
    Claimed,
    /// This frame has locked this mutex.
    Locked,
    /// A mark of this number stands before.
    Marked,
    /// Strict: drops come when nothing executes, by rising number, and behind a drop comes nothing
    /// else.
    Finishing,
}
