ghost use Rattle.std.specs.Prelude.{◌≡◌, length, slice_get};
ghost use Rattle.io_handlers.specs.Touched.{closed_by, touched_by, touched_in};

use crate::staged::Staged;
use crate::staging::Staging;
use io_rules::{Control, Kind, Name, Operation};

/// What a call that a handler staged does with the socket of a stream or a listener.
#[derive(Clone, Copy, Debug, PartialEq, Eq)]
pub enum Touched {
    /// It reads, or accepts.
    Read(Name),
    /// It writes, or connects.
    Write(Name),
    /// It closes it.
    Closed(Name),
}

/// What an operation does with a socket.
fn touched_by(kind: Operation) -> Option<Touched>
    ensures { result ≡ touched_by kind }
{
    match kind {
        Operation::ReadSome { stream, size: _ }
        | Operation::ReadAll { stream, size: _ }
        | Operation::ReadUntil { stream, max: _ } => Some(Touched::Read(stream)),
        Operation::Accept { listener } => Some(Touched::Read(listener)),
        Operation::WriteSome { stream, size: _ } | Operation::WriteAll { stream, size: _ } => {
            Some(Touched::Write(stream))
        }
        Operation::Connect { stream } => Some(Touched::Write(stream)),
        _ => None,
    }
}

/// Which socket a change closes.
fn closed_by(change: Control) -> Option<Touched>
    ensures { result ≡ closed_by change }
{
    match change {
        Control::Free {
            kind: Kind::Stream | Kind::Listener,
            name,
        } => Some(Touched::Closed(name)),
        _ => None,
    }
}

impl<H, S> Staging<H, S> {
    /// How many calls are staged.
    pub fn calls(&self) -> usize
        ensures { result ≡ length self.now.staged }
    {
        self.staged.len()
    }

    /// What the call at this index does with a socket; none where it does nothing with one, or there is no
    /// such call.
    pub fn touched(&self, index: usize) -> Option<Touched>
        ensures { result ≡ touched_in (slice_get self.now.staged index) }
    {
        match self.staged.get(index) {
            None => None,
            Some(Staged::Called(call)) => touched_by(call.kind),
            Some(Staged::Changed(change)) => closed_by(*change),
            Some(Staged::ExpiresAfter { timer: _, after: _ }) => None,
            Some(Staged::MadeStrand { name: _, state: _ }) => None,
        }
    }
}
