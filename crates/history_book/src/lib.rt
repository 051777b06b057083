//! Histories of one io_context as they are kept: their events, their trace as text, and their replay.
//! It promises that a replay takes exactly the legal events and that a trace fixes its history. The
//! context, the program and the trace checker stand on it.
#![tactic(auto)]

mod asking;
mod calls;
mod context;
mod executions;
mod history;
mod performing;
mod played;
mod questions;
mod queue_room;
mod queues;
mod reactor_half;
mod reactor_replay;
mod replay;
mod requests;
mod rounds;
mod settling;
mod shown;
mod stopping;
mod time;
mod time_points;
mod trace;
mod trace_line;
mod turns;
mod untold;
mod waiting;

pub use history::History;
pub use replay::Replay;
pub use trace::{one_to_one, write_trace};
