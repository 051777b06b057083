use crate::done::ChanDone;
use asio_types::{Code, OpNo};

/// What a channel beside a proactor tells.
#[derive(Clone, Copy, Debug, PartialEq, Eq)]
pub enum TimedDone {
    /// An operation of the proactor completed: its number, its code, and its size in bytes.
    Io(OpNo, Code, u32),
    /// An operation of the channel completed.
    Chan(ChanDone),
}
