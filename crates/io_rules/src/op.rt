use crate::name::{Lane, Name};
use crate::operation::{Binding, Operation};
use crate::request::Marks;
use crate::spares::Spares;
use asio_types::Code;

/// How far an operation has come.
#[derive(Clone, Copy)]
pub enum Phase {
    /// It waits for the outside: the bytes that it moved so far, and whether it was cancelled during
    /// a system call.
    Pending {
        moved: u64,
        cancelled: bool,
    },
    /// How it completes is known.
    Settled {
        code: Code,
        size: u64,
    },
    /// It has completed, and its handler waits to execute.
    Ready {
        code: Code,
        size: u64,
    },
    /// Its handler executes: whether it keeps its own place, how many more are granted to it, and the
    /// names that are.
    Running {
        own: bool,
        grant: u32,
        spares: Spares,
    },
}

/// An operation that was accepted, and whose handler was neither executed to its end nor discarded.
#[derive(Clone, Copy)]
pub struct Op {
    /// Its number.
    pub number: u64,
    /// Where its handler executes.
    pub lane: Lane,
    /// Its cancellation slot, if any.
    pub binding: Option<Binding>,
    /// What it does.
    pub kind: Operation,
    /// What its handler returns.
    pub marks: Marks,
    /// How far it has come.
    pub phase: Phase,
}

/// A wait that is pending.
#[derive(Clone, Copy)]
pub struct Wait {
    /// The number of its operation.
    pub op: u64,
    /// Its timer.
    pub timer: Name,
}
