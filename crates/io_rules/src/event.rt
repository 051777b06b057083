use crate::control::Control;
use crate::gave::Gave;
use crate::name::Name;
use crate::operation::Side;
use crate::request::{Gone, Request};
use crate::spares::Spares;
use asio_types::Code;

/// What happens on an io_context. Operations go by their numbers, from 0 in the order of their calls.
#[derive(Clone, Copy)]
pub enum Event {
    /// An operation is initiated: by the handler of this operation, or from outside of all handlers.
    Called {
        op: u64,
        by: Option<u64>,
        request: Request,
        gone: Gone,
    },
    /// The context is changed, likewise.
    Changed {
        by: Option<u64>,
        change: Control,
    },
    /// The clock has come to this time, in nanoseconds since the context was made.
    Passed {
        now: u64,
    },
    /// A handler that executes may initiate more, and gets these names.
    Granted {
        op: u64,
        spares: Spares,
    },
    /// A system call for the head of a side begins, for an accept with a place for what it makes.
    Tried {
        stream: Name,
        side: Side,
        reserved: Option<Name>,
    },
    /// It has returned this.
    Back {
        stream: Name,
        side: Side,
        gave: Gave,
    },
    /// What a stream holds was searched for the delimiter of the first read; it ends behind so many
    /// bytes.
    Searched {
        stream: Name,
        end: Option<u64>,
    },
    /// An operation completes: its handler is ready.
    Done {
        op: u64,
        code: Code,
        size: u64,
    },
    /// Its handler begins, with these names for what it may make.
    Begun {
        op: u64,
        spares: Spares,
    },
    /// It has returned its mark.
    Ended {
        op: u64,
        mark: u64,
    },
    /// A call of `run` returns.
    Returned,
    /// `io_context::restart`.
    Restarted,
    /// The context is being destroyed.
    Finishing,
    /// A handler that never executed is destroyed with the context, and has returned its mark.
    Dropped {
        op: u64,
        mark: u64,
    },
}
