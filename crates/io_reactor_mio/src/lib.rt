//! A reactor over the system's sockets and clock. It promises the reactor's trait with its bytes untold;
//! that a socket is opened, a byte moved or an edge reported is tested alone. Programs on the context
//! for programs stand on it.
#![tactic(auto)]

mod event_edge;
mod gave;
mod law;
mod mio_poll;
mod mio_reactor;
mod mio_socket;
mod token;

pub use law::a_token_carries_its_name;
pub use mio_poll::MioPoll;
pub use mio_reactor::MioReactor;
pub use mio_socket::MioSocket;
