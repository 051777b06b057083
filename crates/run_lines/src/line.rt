use crate::code::Code;
use crate::word::Word;

/// What happened, in the terms of Boost.Asio. Numbers are below 2^64, and each kind of thing that
/// is numbered (operations, contexts, strands, things, locks and marks) has numbers of its own.
#[derive(Clone, Copy, PartialEq, Eq)]
pub enum Doing {
    /// An operation of a context is initiated, with a strand or none, on a socket or timer or none.
    Call {
        op: u64,
        word: Word,
        context: u64,
        strand: Option<u64>,
        thing: Option<u64>,
    },
    /// The call that initiated this operation has returned.
    Back {
        op: u64,
    },
    /// An asynchronous operation has completed: its handler is submitted.
    Done {
        op: u64,
        code: Code,
        size: u64,
    },
    /// The handler of an operation begins.
    Begin {
        op: u64,
        code: Code,
        size: u64,
    },
    /// It has returned.
    End {
        op: u64,
    },
    /// It was left by an exception.
    Throw {
        op: u64,
    },
    /// It is destroyed without a call.
    Drop {
        op: u64,
    },
    /// The innermost execution of the thread begins to touch what one thread at a time may touch.
    Claim {
        thing: u64,
    },
    /// It touches it no more.
    Release {
        thing: u64,
    },
    /// It has got a mutex.
    Lock {
        lock: u64,
    },
    /// It is about to give a mutex back.
    Unlock {
        lock: u64,
    },
    /// A point that others may wait for, as the end of a thread or the setting of a future.
    Mark {
        mark: u64,
    },
    /// What follows comes after all marks of this number so far.
    After {
        mark: u64,
    },
    /// What is pending on a socket or timer may be aborted by this: `cancel`, `close`.
    Cancel {
        thing: u64,
    },
    /// The thread executes handlers of a context from here on: `io_context::run`.
    Work {
        context: u64,
    },
    /// `io_context::stop`
    Stop {
        context: u64,
    },
    /// `io_context::restart`
    Restart {
        context: u64,
    },
}

/// A line of a run: what happened, and the thread on which.
#[derive(Clone, Copy, PartialEq, Eq)]
pub struct Line {
    pub thread: u64,
    pub does: Doing,
}
