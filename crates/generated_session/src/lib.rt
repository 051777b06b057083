//! Sessions made from a number: the script that a number and a size make, and the summary of a
//! history, which of such a session says the same at each run. It promises which script is made and
//! which eight lines are written, and that the script alone tells these lines. The session call
//! stands on it.
#![tactic(auto)]

mod generator;
mod law;
mod line;
mod summary;
mod tally;

pub use generator::{MOST_SIZE, MOST_START, generate};
pub use law::summaries_are_plain;
pub use summary::write_summary;
