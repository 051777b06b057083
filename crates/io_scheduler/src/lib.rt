//! What lies under the lock of an io_context: which operations are ready with which handlers, on which
//! strands, and which names are used. It promises that each of its methods is a step of the rules, so that
//! the history of the context is a legal one. The context stands on it.
#![tactic(auto)]

mod aborting;
mod accepting;
mod asking;
mod asking_streams;
mod attempt;
mod back;
mod beginning;
mod brought;
mod calling;
mod changing;
mod closed;
mod closing;
mod closing_by;
mod committing;
mod completing;
mod counts;
mod ending;
mod entering;
mod expiring;
mod finishing;
mod holding;
mod initiating;
mod leaving;
mod making;
mod noting;
mod opening;
mod outside;
mod passing;
mod receipt;
mod remains;
mod restarting;
mod returning;
mod running;
mod scheduler;
mod section;
mod settling;
mod states;
mod stopping;
mod stranding;
mod stranding_by;
mod streaming;
mod taking;
mod tally;
mod target;
mod timing;
mod transferring;
mod transferring_by;
mod trying;
mod waiting;

pub use attempt::Attempt;
pub use beginning::Begun;
pub use receipt::Receipt;
pub use remains::Remains;
pub use running::Running;
pub use scheduler::Scheduler;
pub use section::Section;
pub use states::States;
pub use streaming::Streaming;
pub use timing::TimerChange;
pub use transferring::Transfer;
pub use waiting::Waiting;
