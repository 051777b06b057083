/// All numbers of operations lie below this one.
pub const MOST_NUMBERS: u64 = 0xFFFF_FFFF_FFFF_FFFF;

/// What a context has room for, chosen when it is made.
#[derive(Clone, Copy, Debug, PartialEq, Eq)]
pub struct Limits {
    /// Operations that are accepted and not over.
    pub operations: u32,
    /// Strands.
    pub strands: u32,
    /// Timers.
    pub timers: u32,
    /// Cancellation slots.
    pub slots: u32,
    /// Streams and listeners.
    pub streams: u32,
    /// How many operations an execution may initiate before it commits, besides the one that has its
    /// own place.
    pub grant: u32,
    /// How many calls of an execution, of any kind, wait for its end or a commit.
    pub staged: u32,
    /// The bytes that a stream holds behind a delimiter.
    pub held: u32,
}
