//! An `io_context` whose handlers initiate operations while they execute. Any number of threads run it; one
//! lock protects what it keeps, and handlers execute with the lock free. It promises one history, legal
//! whenever the lock is free and whole at its end, in which the laws of the rules hold. Programs stand on it.
#![tactic(auto)]

mod calls;
mod context;
mod entering;
mod executing;
mod finishing;
mod guard;
mod history;
mod initiating;
mod invocation;
mod new_context;
mod poller;
mod refused;
mod running;
mod shared;
mod sleepers;
mod sockets;
mod strands;
mod streams;
mod system_call;
mod timers;
mod worker;

pub use context::Context;
pub use guard::WorkGuard;
pub use history::History;
pub use io_handlers::{Completion, Full, FullTransfer, Handler, Initiator, Marks};
pub use io_history::Named;
pub use io_reactor::{ClockPoll, ClockReactor, Reactor};
pub use io_rules::{Lane, Limits, Name};
pub use io_scheduler::{Receipt, Section};
pub use new_context::NewContext;
pub use refused::{Refusal, Refused};
pub use running::run_on_threads;
pub use streams::Listening;
pub use worker::Worker;
