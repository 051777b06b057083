//! The proactor: what waits for the outside, and what completes. It promises that each call does to
//! its tables exactly what the definitions of a history say of the reactor's half, and that nothing
//! takes memory once they are made. The contexts stand on it.
#![tactic(auto)]

mod aborting;
mod counts;
mod due;
mod held;
mod law;
mod pending;
mod proactor;
mod reach;
mod reading;
mod rooms;
mod round;
mod stream_law;
mod stream_rooms;
mod stream_work;
mod streams;
mod tables;
mod taking;
mod uncounted;
mod untold_law;
mod waits;
mod writing;

pub use proactor::{Fault, Proactor, TickFault};
pub use untold_law::{
    streams_give_in_order, untold_answers, untold_begins, untold_performs, untold_rests,
    untold_settles, untold_tells, untold_ticks, untold_turns,
};
