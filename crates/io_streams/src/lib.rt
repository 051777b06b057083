//! Streams and listeners of an io_context (Asio reference, `basic_stream_socket`,
//! `basic_socket_acceptor`): what is known of each, and the operations that are pending on its sides.
//! It promises that the operations of a side stay in order of acceptance, that one that is taken out is
//! gone and all others stay, that a cancellation comes to them in order of acceptance and leaves the one
//! whose system call is under way, and that nothing takes memory once it is made. The scheduler of a
//! context stands on it.
#![tactic(auto)]

mod first;
mod law;
mod pending;
mod stream;
mod streams;

pub use law::operations_are_cancelled_in_order;
pub use pending::PendingOp;
pub use streams::Streams;
