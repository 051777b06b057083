use io_rules::{Event, Limits, Op};
use std::collections::LinkedList;

/// An operation that executes, as the history so far leaves it.
pub struct Held {
    /// Its number.
    pub op: u64,
    /// The operation.
    pub is: Op,
}

/// What a seat of a history knows. No value of it is made.
pub struct View {
    /// Whether it is the keeper's.
    pub keeps: bool,
    /// What the context has room for.
    pub limits: Limits,
    /// The keeper's history, newest first.
    pub events: LinkedList<Event>,
    /// What a claim or a witness was told of it.
    pub told: LinkedList<Event>,
    /// The operation that it claims.
    pub held: Option<Held>,
}
