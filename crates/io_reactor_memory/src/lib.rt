//! A reactor in memory: it plays a script of what peers send and take, of connections, of the clock and
//! of failures. It promises the reactor's trait with every byte told, and that what is accepted does
//! what its script says. Tests of the context for programs stand on it.
#![tactic(auto)]

mod ahead;
mod memory_reactor;
mod memory_socket;
mod place_edges;
mod reads;
mod room;
mod script;
mod writes;

pub use memory_reactor::{MemoryPoll, MemoryReactor};
pub use memory_socket::MemorySocket;
pub use script::{ConnectScript, LinkEnd, PeerScript, PollTurn, ReadEnd, Script, Visit, WriteEnd};
