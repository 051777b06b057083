//! The names that a run gives to strands, things, operations, threads, contexts, locks and marks. It
//! promises that the latest name of each is found, and that all names of a text are read. Who writes
//! of runs in their names stands on it.
#![tactic(auto)]

mod names;
mod reading;
mod table;

pub use names::Names;
pub use reading::{NotNamed, read_names};
