//! What comes before what in each order of a run, by turns of strands too. It promises that no order
//! of the run overlaps the things that it gives: each claim is given back before the next one. The
//! report on overlaps stands on it.
#![tactic(auto)]

mod chains;
mod claims;
mod clock;
mod event;
mod finding;
mod known;
mod past;
mod sources;
mod turns;

pub use event::Event;
pub use finding::find_ordered;
