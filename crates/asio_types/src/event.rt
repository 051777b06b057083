use crate::code::Code;
use crate::number::{ActNo, OpNo};

/// One event of a history: what one io_context did, in order.
#[derive(Clone, Copy, Debug, PartialEq, Eq)]
pub enum Event {
    /// An act is initiated.
    Call { act: ActNo },
    /// The initiating call has returned.
    Back { act: ActNo },
    /// `io_context::stop`, by a `stop` act, or by none from outside of every handler.
    Stop { act: Option<ActNo> },
    /// A handler begins with this code and size.
    Begin { op: OpNo, code: Code, size: u32 },
    /// A handler has returned its mark.
    End { op: OpNo, mark: u64 },
    /// The reactor takes a request.
    Take { act: ActNo },
    /// An asynchronous operation completes; its handler is ready.
    Done { op: OpNo, code: Code, size: u32 },
    /// Scripted time moves to this moment.
    Tick { now: u64 },
    /// No further time point exists.
    Last,
    /// The reactor failed for good.
    Fault,
    /// A round closes: no work is left.
    Ended,
    /// A round closes: the context is stopped.
    Stopped,
    /// A round of `poll` closes: nothing is ready.
    Polled,
    /// `io_context::restart`.
    Restart,
    /// A handler that never ran is destroyed with the context, and has returned its mark.
    Dropped { op: OpNo, mark: u64 },
}
