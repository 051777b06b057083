//! The outside of an io_context as a trait. It promises of every reactor when time moves and where
//! to, what a read and a write may answer, and that a call fails only where the reactor's count of
//! faults rose; and of a reactor that tells its bytes, each answer exactly. The least reactor
//! stands beside it. The proactor stands on it.
#![tactic(auto)]

mod reactor;
mod silent_reactor;

pub use reactor::Reactor;
pub use silent_reactor::SilentReactor;
