//! Completion handlers that are spent once: executed, or discarded. A handler is seen as its marks,
//! the numbers that it answers: a drop mark, and for each call a run mark, which is had only by
//! executing it so. A rack keeps the handler of each act by its number. The executions of strands
//! and of the reactor stand on it.
#![tactic(auto)]

mod call;
mod completion;
mod handler;
mod rack;

pub use call::{Call, Ran, Spend};
pub use completion::CompletionHandler;
pub use handler::Handler;
pub use rack::Rack;
