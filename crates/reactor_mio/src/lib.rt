//! The outside over sockets: a reactor whose streams are TCP pairs over 127.0.0.1, with scripted
//! time. It promises the reactor's trait with its bytes untold; that it opens a socket or moves a
//! byte is tested alone. The near end of a stream is public, for programs that serve other peers.
//! The program and the tests over sockets stand on it.
#![tactic(auto)]

mod far_end;
mod mio_reactor;
mod opening;
mod pauses;
mod playing;
mod stream_socket;
mod transfer;
mod wire;
mod wires;

pub use mio_reactor::MioReactor;
pub use stream_socket::StreamSocket;
pub use transfer::{Transfer, moved_of_read, moved_of_write, transfer_failed, transfer_of};
