//! The sockets of a context, by place: whether one is here or with a worker, what its edges and its
//! system calls say of its readiness, and which of them are to be looked at next. It promises that
//! one worker at most has a socket, that no readiness is lost, and that nothing takes memory once
//! it is made. The scheduler of a context stands on it.
#![tactic(auto)]

mod law;
mod readiness;
mod sockets;
mod stand;
mod turn;
mod turns;

pub use law::no_readiness_is_lost;
pub use readiness::{Outcome, Readiness};
pub use sockets::Sockets;
pub use stand::{Held, Stand};
pub use turn::{Listed, Turn, WaitType};
pub use turns::Turns;
