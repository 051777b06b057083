//! The context without a lock: lanes that execute handlers side by side, each with a log of its own
//! (Asio reference, io_context; Overview, "Strands: Use Threads Without Explicit Locking"). These are
//! the calls that hand the turns of lanes out; what is done with a turn stands in `lane_turns`. It
//! promises that what it leaves are the logs of a session (`AreLogs` there), with the reactor as they
//! say, however many workers ran it and in whatever order; and that no call takes memory once it is
//! made, but for hints at lanes where work is. `op_future` and `session_run` stand on it.
#![tactic(auto)]

mod at_rest;
mod beginning;
mod call_rooms;
mod context;
mod context_making;
mod ending;
mod first_batons;
mod first_seats;
mod gathering;
mod making;
mod new_pens;
mod opener_calls;
mod own_runs;
mod parts;
mod poll_one;
mod results;
mod round_closing;
mod round_end;
mod running;
mod seating;
mod session_room;
mod setting_out;
mod side_by_side;
mod stopping;
mod worker;
mod worker_attendee;
mod workers;
mod workers_apart;

pub use at_rest::AtRest;
pub use context::Context;
// What its calls answer and take, by the names that its callers need.
pub use lane_logs::{Logs, Receipt};
pub use lane_turns::{Baton, One, RunEnd};
pub use parts::Parts;
pub use round_end::RoundEnd;
pub use side_by_side::{Runner, run_each, run_side_by_side};
pub use worker::Worker;
pub use workers::Workers;
pub use workers_apart::{OpenerApart, WorkersApart};
