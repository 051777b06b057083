/// How many values a channel holds at most.
pub(crate) const MOST_CAPACITY: u32 = 4_096;

/// How many bytes one read takes.
pub(crate) const PIECE: usize = 4_096;

/// How many bytes a stream brings at most.
pub(crate) const MOST_BYTES: u32 = 65_536;

pub(crate) const MOST_STREAMS: u32 = 64;

/// After so many turns a measure of streams gives up.
pub(crate) const MOST_TURNS: u32 = 1_000_000;

/// How often a measure does its whole work at most.
pub(crate) const MOST_TIMES: u32 = 100_000;

/// How many workers a session has at most.
pub(crate) const MOST_WORKERS: u32 = 16;
