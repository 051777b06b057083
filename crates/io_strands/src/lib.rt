//! One strand of an io_context: what is ready on it with its handlers and in which order, what executes,
//! how many operations are tied to it, and the program's state, which is here exactly where nothing
//! executes. It promises that each of its steps is the step of the rules, and that none takes memory once
//! its room is made. The scheduler of a context stands on it.
#![tactic(auto)]

mod law;
mod ready;
mod strand;

pub use law::strands_step_alike;
pub use ready::ReadyOp;
pub use strand::Strand;
