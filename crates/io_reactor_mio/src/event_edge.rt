ghost use Rattle.std.specs.Prelude.{◌≡◌};
ghost use Rattle.io_reactor_mio.specs.EventEdge.{edge_of, readiness_of};

use crate::token::name_at;
use io_reactor::{Edge, Readiness};
use mio::event::Event;

fn readiness(closed: bool, ready: bool) -> Readiness
    ensures { result ≡ readiness_of closed ready }
{
    if closed {
        Readiness::Closed
    } else if ready {
        Readiness::Ready
    } else {
        Readiness::Same
    }
}

/// What an event says of both sides of its socket.
pub(crate) fn edge_of(event: &Event) -> Edge
    ensures { result ≡ edge_of event.now }
{
    let name = name_at(event.token());
    let read = readiness(
        event.is_read_closed() || event.is_error(),
        event.is_readable(),
    );
    let write = readiness(
        event.is_write_closed() || event.is_error(),
        event.is_writable(),
    );
    Edge { name, read, write }
}
