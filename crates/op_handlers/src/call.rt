use asio_types::{Class, Code, OpNo};

/// How an operation completed: the arguments of its handler (Asio reference, "Requirements on
/// asynchronous operations", the completion signature).
#[derive(Clone, Copy, Debug, PartialEq, Eq)]
pub struct Call {
    /// The operation that completed.
    pub op: OpNo,
    /// Its `error_code`.
    pub code: Code,
    /// Its `bytes_transferred`, 0 where it moves none.
    pub size: u32,
    /// The position of the execution's begin in the history.
    pub begun: u64,
}

/// How a handler is spent.
#[derive(Clone, Copy, Debug, PartialEq, Eq)]
pub enum Spend {
    /// It is called.
    Execute(Call),
    /// It is destroyed without a call, as at the destruction of an `execution_context`.
    Discard,
}

/// What a spent handler answers.
#[derive(Clone, Copy, Debug, PartialEq, Eq)]
pub struct Ran {
    /// The run mark where it was executed, the drop mark where it was discarded.
    pub mark: u64,
    /// The branch that the code chose; `Ok` where it was discarded.
    pub class: Class,
    /// The position of the begin that it was called with; 0 where it was discarded.
    pub begun: u64,
}
