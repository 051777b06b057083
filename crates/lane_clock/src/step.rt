use crate::found::{Change, Found};
use crate::note::Note;
use crate::plan::ClockPlan;
use asio_types::Event;
use std::collections::LinkedList;

/// One step of a seat, with what it found. No value of it is made: contracts list what a seat did.
pub enum ClockStep {
    /// The position of this event was drawn, which is the clock found. Which event it is was told to
    /// the draw: so all that the event says, as the run mark of an end, was had before.
    Draw(Event, Change, Found),
    /// The clock word was read.
    Load(Found),
    /// A place of this lane was drawn.
    Place(u32, u64),
    /// A note was put into the cell at this place of this lane.
    Put(u32, u32, Note),
    /// The cell at this place of this lane was looked at, and what it held.
    Look(u32, u32, Option<Note>),
    /// Another seat's steps were taken in: of each number so many as were known there.
    Join(LinkedList<u64>),
}

/// What is known of the steps under one number. No value of it is made.
pub struct Known {
    /// Whether they are all there are, and only who knows this goes on with them.
    pub mine: bool,
    /// The steps, the oldest first.
    pub steps: LinkedList<ClockStep>,
}

/// What a seat of the table knows. No value of it is made.
pub struct View {
    pub plan: ClockPlan,
    /// The number under which the seat steps.
    pub number: u64,
    /// What is known of each number.
    pub known: LinkedList<Known>,
    /// What was known before another seat was last taken in, and what that seat knew.
    pub knew: LinkedList<Known>,
    pub heard: LinkedList<Known>,
}
