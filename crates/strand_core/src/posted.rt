use asio_types::{ActNo, Code, OpNo};
use op_handlers::Ran;

/// One call of a poster. The call of an act that stops the context is also its stop.
#[derive(Clone, Copy, Debug, PartialEq, Eq)]
pub enum Posted {
    /// A handler begins with this code and size, at this position.
    Begin {
        op: OpNo,
        code: Code,
        size: u32,
        begun: u64,
    },
    /// An act is initiated.
    Call {
        act: ActNo,
    },
    /// The initiating call has returned.
    Back {
        act: ActNo,
    },
    /// A handler has answered.
    End {
        op: OpNo,
        ran: Ran,
    },
}
