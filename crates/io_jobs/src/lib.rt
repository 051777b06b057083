//! What may begin on an io_context, in the order in which it came: strands, each at most once, and
//! operations without a strand. It promises this order, that none is lost, and that nothing takes memory
//! once it is made. The scheduler of a context stands on it.
#![tactic(auto)]

mod job;
mod jobs;

pub use job::Job;
pub use jobs::Jobs;
