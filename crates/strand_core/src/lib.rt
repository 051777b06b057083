//! One execution of a handler with those that execute inside it. It promises that the calls made
//! are those of one whole execution: begin, then for each act of the branch that the handler chose
//! its call, its own execution where it is inline, and its back, and last the end; and that the
//! handlers that weren't spent stay. The contexts stand on it.
#![tactic(auto)]

mod answered;
mod execution;
mod hands;
mod lane;
mod law;
mod placing;
mod plain_lanes;
mod posted;
mod poster;
mod racks;

pub use answered::Answered;
pub use execution::{Execution, execute};
pub use hands::Hands;
pub use law::executions_keep_room;
pub use plain_lanes::PlainLanes;
pub use posted::Posted;
pub use poster::Poster;
