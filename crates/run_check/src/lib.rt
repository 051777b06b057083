//! The checker of runs: line by line, with memory for what is under way. It promises that it takes
//! exactly the lines that the rules of runs allow. Programs that judge runs stand on it.
#![tactic(auto)]

mod checker;
mod counts;
mod entered;
mod judging;
mod last_calls;
mod marks;
mod queues;
mod ready;
mod refusal;
mod stacks;
mod strands;
mod strict;
mod tables;
mod takings;
mod waiting;

pub use checker::Checker;
pub use refusal::{NoRoom, Refusal};
pub use strict::Strict;
pub use waiting::{CallKind, Outcome, Waiter};
