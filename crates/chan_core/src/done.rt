/// An operation of a channel, by the number that its caller gave it. The number is free again once
/// the operation has completed.
pub type ChanOp = u32;

/// How an operation of a channel completed (Asio reference, `experimental::basic_channel`).
#[derive(Clone, Copy, Debug, PartialEq, Eq)]
pub enum ChanCode {
    /// The value was accepted, or received.
    Ok,
    /// It was cancelled (`experimental::error::channel_cancelled`), or its deadline came.
    Cancelled,
    /// The channel is closed (`experimental::error::channel_closed`).
    Closed,
}

/// An operation of a channel that completed.
#[derive(Clone, Copy, Debug, PartialEq, Eq)]
pub struct ChanDone {
    /// Its number.
    pub op: ChanOp,
    /// How it completed.
    pub code: ChanCode,
    /// The value that a receive got; `Some` exactly for a receive with `ChanCode::Ok`.
    pub value: Option<u64>,
}
