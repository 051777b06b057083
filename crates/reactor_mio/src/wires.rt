ghost use Rattle.std.specs.Prelude.{◌≡◌, ◌<◌, IfOk, None, length, slice_set};
ghost use Rattle.reactor_trait.specs.Reactor.{IsMoveWithin};
ghost use Rattle.reactor_mio.specs.Wires.{KeepsPlan};

use crate::pauses::Pauses;
use crate::wire::Wire;
use asio_types::{Failed, Moved, StreamNo};
use stream_rules::Pipe;

/// The pairs of sockets of a world's streams. A stream that was closed has none.
#[derive(Drop)]
pub(crate) struct Wires {
    pub(crate) each: Vec<Option<Wire>>,
    /// Pauses until a near end is readable; none where the world has no stream.
    pub(crate) pauses: Option<Pauses>,
}

impl Wires {
    /// The far end of a stream goes on with its plan.
    pub(crate) fn pump(&mut self, stream: StreamNo, pipe: &mut Pipe) -> Result<(), Failed>
        ensures { KeepsPlan pipe.old pipe.new }
    {
        match self.each.get_mut(stream as usize) {
            Some(Some(wire)) => wire.pump(pipe),
            _ => Ok(()),
        }
    }

    /// What a read of a stream gives, and whether it is to be tried again.
    pub(crate) fn read(
        &mut self,
        stream: StreamNo,
        pipe: &Pipe,
        buf: &mut [u8],
    ) -> Result<(Moved, bool), Failed>
        requires { 0 < length buf.old }
        ensures { IfOk result (λ answer. IsMoveWithin (length buf.old) answer.0) }
    {
        match self.each.get_mut(stream as usize) {
            Some(Some(wire)) => wire.read(pipe, buf),
            _ => Ok((Moved::End, false)),
        }
    }

    pub(crate) fn write(&mut self, stream: StreamNo, bytes: &[u8]) -> Result<Moved, Failed>
        requires { 0 < length bytes.now }
        ensures { IfOk result (IsMoveWithin (length bytes.now)) }
    {
        match self.each.get_mut(stream as usize) {
            Some(Some(wire)) => wire.write(bytes),
            _ => Ok(Moved::End),
        }
    }

    pub(crate) fn pause(&mut self) -> Result<(), Failed> {
        match &mut self.pauses {
            Some(pauses) => pauses.pause(),
            None => Ok(()),
        }
    }

    /// Drops both ends of a stream, which closes their sockets.
    pub(crate) fn close(&mut self, stream: StreamNo)
        ensures { self.new.each.items ≡ slice_set self.old.each.items stream None }
    {
        if let Some(wire) = self.each.get_mut(stream as usize) {
            *wire = None;
        }
    }
}
