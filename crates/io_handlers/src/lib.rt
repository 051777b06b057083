//! Handlers of an io_context, and what they initiate while they execute: how a handler is spent, what it
//! is told, and where it puts what it initiates. It promises that nothing beyond the grant is staged, that
//! a handler which isn't accepted comes back, and that no handler is lost. The scheduler stands on it.
#![tactic(auto)]

mod completion;
mod handler;
mod initiator;
mod spares;
mod staged;
mod staging;
mod touched;
mod transfers;

pub use completion::Completion;
pub use handler::Handler;
pub use initiator::Initiator;
pub use io_rules::Marks;
pub use spares::without_spare;
pub use staged::{Full, FullTransfer, Initiating, Staged};
pub use staging::Staging;
pub use touched::Touched;
