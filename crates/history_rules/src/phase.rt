use asio_types::{Class, Code};

/// How far the initiating call of an act has come. Places of events are counted without stops from
/// outside.
#[derive(Clone, Copy, PartialEq, Eq)]
pub enum CallPhase {
    /// It wasn't made.
    Uncalled,
    /// It was made at this place and hasn't returned.
    Open { called: u64 },
    /// It is a stop that has stopped the context, and hasn't returned.
    Stopping { called: u64 },
    /// It has returned.
    Back { called: u64, back: u64 },
}

/// What made an operation ready.
#[derive(Clone, Copy, PartialEq, Eq)]
pub enum Cause {
    /// It was posted.
    Posted,
    /// It completed at this place, in a turn of the reactor that began at that one.
    Completed { done: u64, turn: u64 },
}

/// How many calls of a body were made, and how many have returned.
#[derive(Clone, Copy, Debug, PartialEq, Eq)]
pub struct Progress {
    /// The calls made.
    pub made: u64,
    /// Those that have returned.
    pub back: u64,
}

/// How a body comes further.
#[derive(Clone, Copy, Debug, PartialEq, Eq)]
pub enum Step {
    /// One more call was made.
    Made,
    /// One more call is back.
    Back,
}

/// What has become of an act beyond its call.
#[derive(Clone, Copy, PartialEq, Eq)]
pub enum ActPhase {
    /// Nothing: it wasn't called, or it is a stop.
    Absent,
    /// A dispatch that executes inside its call, and hasn't begun.
    Inside,
    /// An asynchronous operation that hasn't completed.
    Requested,
    /// Its handler is ready with this code and size.
    Ready { code: Code, size: u32, cause: Cause },
    /// Its handler runs the branch of this class.
    Running { class: Class, progress: Progress },
    /// Its handler has returned.
    Ended,
    /// Its handler was destroyed without a call.
    Dropped,
    /// A control act, which asks the reactor for a change.
    Asked,
}

/// What has become of one act.
#[derive(Clone, Copy, PartialEq, Eq)]
pub struct ActState {
    /// Its initiating call.
    pub call: CallPhase,
    /// All else.
    pub phase: ActPhase,
}

/// How many more executions a lane may begin after a stop.
#[derive(Clone, Copy, Debug, PartialEq, Eq)]
pub enum Allowance {
    /// Any number.
    Free,
    /// One more.
    One,
    /// No more.
    Nothing,
}
