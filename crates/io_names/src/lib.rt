//! Names of an io_context's strands, timers, slots and streams: which are free, kept for a handler, in use
//! and gone. It promises that each step is the step of the rules, that a name is given as long as one is
//! free, and that nothing takes memory once a table is made. The scheduler of a context stands on it.
#![tactic(auto)]

mod names;
mod table;

pub use names::NameTables;
pub use table::NameTable;
