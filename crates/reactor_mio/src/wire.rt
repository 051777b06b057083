ghost use Rattle.std.specs.Prelude.{◌≡◌, ◌<◌, IfOk, length};
ghost use Rattle.reactor_trait.specs.Reactor.{IsMoveWithin};
ghost use Rattle.reactor_mio.specs.Wires.{KeepsPlan};

use crate::far_end::FarEnd;
use crate::stream_socket::StreamSocket;
use asio_types::{Failed, Moved};
use mio::net::TcpStream;
use stream_rules::Pipe;

/// The two ends of a stream.
#[derive(Drop)]
pub(crate) struct Wire {
    near: StreamSocket,
    far: FarEnd,
    /// How many bytes the near end gave, and how many it took.
    given: u64,
    sent: u64,
}

impl Wire {
    pub(crate) fn of(near: TcpStream, far: TcpStream) -> Wire {
        Wire {
            near: StreamSocket::of(near),
            far: FarEnd::of(far),
            given: 0,
            sent: 0,
        }
    }

    /// The far end goes on with its plan: it writes what the socket takes, reads what it has room
    /// for, and does what the marks say once all before them was written.
    pub(crate) fn pump(&mut self, pipe: &mut Pipe) -> Result<(), Failed>
        ensures { KeepsPlan pipe.old pipe.new }
    {
        self.far.offer(&mut pipe.inbound)?;
        self.far.take(&mut pipe.outbound)?;
        if pipe.inbound.there().is_empty() {
            let read = pipe.inbound.mark();
            let write = pipe.outbound.mark();
            self.far.mark(&mut self.near, self.sent, read, write)?;
        }
        Ok(())
    }

    /// Whether bytes of the far end, or its end, are still to come.
    fn is_under_way(&self, pipe: &Pipe) -> bool {
        self.given < self.far.written
            || !pipe.inbound.there().is_empty()
            || pipe.inbound.mark().is_some()
    }

    /// What a read gives, and whether it is to be tried again.
    pub(crate) fn read(&mut self, pipe: &Pipe, buf: &mut [u8]) -> Result<(Moved, bool), Failed>
        requires { 0 < length buf.old }
        ensures { IfOk result (λ answer. IsMoveWithin (length buf.old) answer.0) }
    {
        let moved = self.near.read(buf)?;
        match moved {
            Moved::Took(count) => {
                self.given = self.given.saturating_add(count as u64);
                Ok((moved, false))
            }
            Moved::NotYet => Ok((moved, self.is_under_way(pipe))),
            Moved::End | Moved::Reset => Ok((moved, false)),
        }
    }

    pub(crate) fn write(&mut self, bytes: &[u8]) -> Result<Moved, Failed>
        requires { 0 < length bytes.now }
        ensures { IfOk result (IsMoveWithin (length bytes.now)) }
    {
        let moved = self.near.write(bytes)?;
        if let Moved::Took(count) = moved {
            self.sent = self.sent.saturating_add(count as u64);
        }
        Ok(moved)
    }
}
