use crate::name::Lane;
use crate::operation::{Binding, Operation};

/// What a handler returns when it is called, and when it is discarded: two numbers of the program's.
#[derive(Clone, Copy)]
pub struct Marks {
    /// When it is called.
    pub run: u64,
    /// When it is discarded.
    pub drop: u64,
}

/// A call of an initiating function.
#[derive(Clone, Copy)]
pub struct Request {
    /// Where its handler is to execute.
    pub lane: Lane,
    /// Its cancellation slot, if any.
    pub binding: Option<Binding>,
    /// What it does.
    pub kind: Operation,
    /// What its handler returns.
    pub marks: Marks,
}

/// Whether a name of a request is gone.
#[derive(Clone, Copy)]
pub enum Gone {
    /// None is.
    Nothing,
    /// Its strand: its handler executes on none.
    Strand,
    /// Its strand isn't, and another one is.
    Other,
}
