//! The outside of an io_context for programs as a trait: a clock, sockets whose calls never wait, and
//! one right to wait for them. It promises of every reactor what a call may answer, and that waiting
//! fails only where a count of faults rose; and of one that tells its bytes, each answer exactly. The
//! least reactor stands beside it. The context for programs stands on it.
#![tactic(auto)]

mod answer;
mod clock_reactor;
mod edges;
mod idle_reactor;
mod reactor;

pub use answer::{Accepted, Linked, Transferred};
pub use clock_reactor::{ClockPoll, ClockReactor, NoSocket};
pub use edges::{Edge, Edges, MOST_EDGES, Readiness};
pub use idle_reactor::{IdlePoll, IdleReactor, IdleSocket};
pub use reactor::Reactor;
