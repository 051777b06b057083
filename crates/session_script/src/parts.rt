use crate::act::Act;
use crate::limits::Limits;
use crate::round::Round;
use asio_types::{Class, OpNo, World};

/// An act, and where it stands: in `open`, or in the branch of an operation for a class.
#[derive(Drop)]
pub struct PlacedAct {
    /// What is done.
    pub act: Act,
    /// The operation and the class; none in `open` itself.
    pub parent: Option<(OpNo, Class)>,
}

/// What stands before the world lines: a version with its limits, and how many objects of each kind
/// there are.
#[derive(Clone, Copy)]
pub(crate) struct Header {
    pub(crate) version: u8,
    pub(crate) limits: Limits,
    pub(crate) strands: u8,
    pub(crate) timers: u8,
    pub(crate) slots: u8,
    pub(crate) streams: u8,
    pub(crate) guards: u8,
}

/// What a script says. A program that builds a script puts these together (see `Script::make`).
#[derive(Drop)]
pub struct ScriptParts {
    /// The version, 1 or 2.
    pub version: u8,
    /// How many strands there are; their numbers are below it.
    pub strands: u8,
    /// How many timers there are.
    pub timers: u8,
    /// How many cancellation slots there are.
    pub slots: u8,
    /// How many work guards there are.
    pub guards: u8,
    /// The acts in text order; an act's number is its place in this list.
    pub acts: Vec<PlacedAct>,
    /// What happens outside, and when.
    pub world: World,
    /// The rounds in text order.
    pub rounds: Vec<Round>,
}
