ghost use Rattle.std.specs.Prelude.{◌≡◌, length};
ghost use Rattle.reactor_mio.specs.Transfer.{IsTransferWithin};

use crate::stream_socket::{StreamSocket, receive, send};
use crate::transfer::{Transfer, transfer_failed, transfer_of};
use asio_types::{Failed, Moved, ReadMark, WriteMark};
use mio::net::TcpStream;
use std::net::Shutdown;
use stream_rules::{Inbound, Outbound};

/// How many bytes one call reads.
const PIECE: usize = 4096;

/// The far end of a stream: it does what the lines of the world say. It is gone once it was reset or
/// dropped.
#[derive(Drop)]
pub(crate) struct FarEnd {
    socket: Option<TcpStream>,
    /// How many bytes it wrote, and how many it read.
    pub(crate) written: u64,
    taken: u64,
    /// Whether its sending side is shut.
    ended: bool,
    /// Whether the byte was sent to it that makes its drop a reset.
    knocked: bool,
}

impl FarEnd {
    pub(crate) fn of(socket: TcpStream) -> FarEnd {
        FarEnd {
            socket: Some(socket),
            written: 0,
            taken: 0,
            ended: false,
            knocked: false,
        }
    }

    fn send(&mut self, bytes: &[u8]) -> Transfer
        ensures { IsTransferWithin (length bytes.now) result }
    {
        match &mut self.socket {
            Some(socket) => send(socket, bytes),
            None => Transfer::NotConnected,
        }
    }

    fn receive(&mut self, buf: &mut [u8]) -> Transfer
        ensures { IsTransferWithin (length buf.old) result }
    {
        match &mut self.socket {
            Some(socket) => receive(socket, buf),
            None => Transfer::NotConnected,
        }
    }

    /// Writes what it has still to write, as far as the socket takes it. Where nobody is there, what
    /// is left is dropped.
    pub(crate) fn offer(&mut self, inbound: &mut Inbound) -> Result<(), Failed>
        ensures mark { inbound.new.mark ≡ inbound.old.mark }
        ensures left { inbound.new.left ≡ inbound.old.left }
    {
        while !inbound.there().is_empty() {
            match self.send(inbound.there()) {
                Transfer::Bytes(count) => {
                    inbound.consume(count as usize);
                    self.written = self.written.saturating_add(count as u64);
                }
                Transfer::Nothing | Transfer::WouldBlock | Transfer::Interrupted => return Ok(()),
                Transfer::Reset | Transfer::BrokenPipe | Transfer::NotConnected => {
                    inbound.consume(inbound.there().len());
                    self.socket = None;
                    return Ok(());
                }
                Transfer::Failed => return Err(Failed),
            }
        }
        Ok(())
    }

    /// Reads what the near end sent, as far as there is room for it.
    fn read(&mut self, outbound: &mut Outbound) -> Result<(), Failed>
        ensures mark { outbound.new.mark ≡ outbound.old.mark }
        ensures left { outbound.new.left ≡ outbound.old.left }
    {
        let mut buf = [0; PIECE];
        while outbound.room() > 0 {
            let most = PIECE.min(outbound.room() as usize);
            match self.receive(&mut buf[..most]) {
                Transfer::Bytes(count) => {
                    outbound.send(&buf[..count as usize], count);
                    self.taken = self.taken.saturating_add(count as u64);
                }
                Transfer::Nothing | Transfer::WouldBlock | Transfer::Interrupted => return Ok(()),
                Transfer::Reset | Transfer::BrokenPipe | Transfer::NotConnected => {
                    self.socket = None;
                    return Ok(());
                }
                Transfer::Failed => return Err(Failed),
            }
        }
        Ok(())
    }

    /// Reads what the near end sent, as far as there is room for it; from the byte on that makes its
    /// drop a reset it reads no more.
    pub(crate) fn take(&mut self, outbound: &mut Outbound) -> Result<(), Failed>
        ensures mark { outbound.new.mark ≡ outbound.old.mark }
        ensures left { outbound.new.left ≡ outbound.old.left }
    {
        if self.knocked {
            Ok(())
        } else {
            self.read(outbound)
        }
    }

    /// Shuts its sending side, once.
    fn end(&mut self) -> Result<(), Failed> {
        if self.ended {
            return Ok(());
        }
        let Some(socket) = &self.socket else {
            return Ok(());
        };
        if let Err(error) = socket.shutdown(Shutdown::Write) {
            let Transfer::NotConnected = transfer_failed(error.kind()) else {
                return Err(Failed);
            };
        }
        self.ended = true;
        Ok(())
    }

    /// Reads and drops all that the near end sent, and leaves once so many bytes were read in all. A
    /// socket that is dropped with bytes unread would be a reset.
    fn leave(&mut self, sent: u64) -> Result<(), Failed> {
        let mut buf = [0; PIECE];
        // Each turn reads a byte at least, so there are enough of them.
        for _ in self.taken..sent {
            if self.taken >= sent {
                break;
            }
            match self.receive(&mut buf) {
                Transfer::Bytes(count) => self.taken = self.taken.saturating_add(count as u64),
                Transfer::WouldBlock | Transfer::Interrupted => return Ok(()),
                Transfer::Failed => return Err(Failed),
                _ => self.taken = sent,
            }
        }
        self.socket = None;
        Ok(())
    }

    /// Whether a byte is unread here, or none can come any more.
    fn is_knocked_at(&self) -> Result<bool, Failed> {
        let Some(socket) = &self.socket else {
            return Ok(true);
        };
        let mut byte = [0; 1];
        match transfer_of(socket.peek(&mut byte), 1) {
            Transfer::WouldBlock | Transfer::Interrupted => Ok(false),
            Transfer::Failed => Err(Failed),
            _ => Ok(true),
        }
    }

    /// Leaves with a byte unread, which is a reset; the near end sends it where none is there.
    fn reset(&mut self, near: &mut StreamSocket) -> Result<(), Failed> {
        if !self.knocked && !self.is_knocked_at()? {
            match near.write(&[0])? {
                Moved::Took(_) => self.knocked = true,
                Moved::NotYet => {}
                Moved::End | Moved::Reset => self.socket = None,
            }
        }
        if self.is_knocked_at()? {
            self.socket = None;
        }
        Ok(())
    }

    /// Does what the marks say, once all before them was written: it ends its sending side, leaves
    /// as at the last point, where the near end has sent so many bytes, or resets the connection.
    pub(crate) fn mark(
        &mut self,
        near: &mut StreamSocket,
        sent: u64,
        read: Option<ReadMark>,
        write: Option<WriteMark>,
    ) -> Result<(), Failed> {
        if let Some(ReadMark::Eof) = read {
            self.end()?;
        }
        match write {
            None => Ok(()),
            Some(WriteMark::Broken) => self.leave(sent),
            Some(WriteMark::Reset) => self.reset(near),
        }
    }
}
