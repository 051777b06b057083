//! What the turns of the reactor make of its half of a history's state: how many operations are
//! pending, what stands to be completed, where time stands, and how many events may still come. Its
//! laws say that each event of a turn leaves one less of these, so that room for all turns can be
//! made before the first. The contexts stand on it.
#![tactic(auto)]

mod law;

pub use law::{turns_are_bounded, turns_keep_room};
