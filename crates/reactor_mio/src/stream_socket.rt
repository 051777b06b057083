ghost use Rattle.std.specs.Prelude.{◌≡◌, ◌≢◌, ◌<◌, false, IfOk, IsTrue, Ok, length};
ghost use Rattle.reactor_trait.specs.Reactor.{IsMoveWithin};
ghost use Rattle.reactor_mio.specs.Transfer.{saw_reset, IsTransferWithin};

use crate::transfer::{Transfer, moved_of_read, moved_of_write, transfer_of};
use asio_types::{Failed, Moved};
use mio::net::TcpStream;
use std::io::{Read, Write};
use std::marker::Model;

/// The most bytes that one call moves.
const MOST_AT_ONCE: usize = 65536;

/// How often a call that a signal interrupted is made again.
const MOST_INTERRUPTIONS: u32 = 16;

/// The near end of a TCP connection, whose calls never wait (Asio reference,
/// `basic_stream_socket`). The system tells a reset once; this end keeps it, and answers `Reset`
/// for each later end of file and broken pipe. Contracts see whether a reset was told.
#[derive(Drop)]
pub struct StreamSocket {
    socket: TcpStream,
    was_reset: bool,
}

impl Model for StreamSocket {
    ghost use Rattle.std.specs.Prelude.{Bool};

    ghost Value = { Bool };

    ghost view = { λ s. s.was_reset };
}

/// Reads what is there, up to `MOST_AT_ONCE` bytes of the buffer.
pub(crate) fn receive(socket: &mut TcpStream, buf: &mut [u8]) -> Transfer
    ensures { IsTransferWithin (length buf.old) result }
{
    let most = buf.len().min(MOST_AT_ONCE);
    for _ in 0..MOST_INTERRUPTIONS {
        let transfer = transfer_of(socket.read(&mut buf[..most]), most);
        if transfer != Transfer::Interrupted {
            return transfer;
        }
    }
    Transfer::Interrupted
}

/// Writes what is taken, up to the first `MOST_AT_ONCE` bytes.
pub(crate) fn send(socket: &mut TcpStream, bytes: &[u8]) -> Transfer
    ensures { IsTransferWithin (length bytes.now) result }
{
    let most = bytes.len().min(MOST_AT_ONCE);
    for _ in 0..MOST_INTERRUPTIONS {
        let transfer = transfer_of(socket.write(&bytes[..most]), most);
        if transfer != Transfer::Interrupted {
            return transfer;
        }
    }
    Transfer::Interrupted
}

impl StreamSocket {
    /// This end of a connection, on which no reset was seen.
    pub fn of(socket: TcpStream) -> StreamSocket
        ensures { result ≡ false }
    {
        StreamSocket {
            socket,
            was_reset: false,
        }
    }

    /// Keeps that an answer tells a reset.
    fn keep(&mut self, answer: Result<Moved, Failed>) -> Result<Moved, Failed>
        ensures same { result ≡ answer }
        ensures reset { self.new ≡ saw_reset self.old answer }
    {
        if let Ok(Moved::Reset) = answer {
            self.was_reset = true;
        }
        answer
    }

    /// Gives the bytes that are there, at most as many as the buffer has; what the buffer has
    /// behind them is left open. Where none is there, the answer is `End` at end of file, `Reset`
    /// where a reset was told, now or before, and else `NotYet`.
    pub fn read(&mut self, buf: &mut [u8]) -> Result<Moved, Failed>
        requires { 0 < length buf.old }
        ensures within { IfOk result (IsMoveWithin (length buf.old)) }
        ensures reset { self.new ≡ saw_reset self.old result }
        ensures after_reset { IsTrue self.old → result ≢ Ok Moved.End }
    {
        let transfer = receive(&mut self.socket, buf);
        self.keep(moved_of_read(transfer, self.was_reset))
    }

    /// Takes the first bytes, as many as the socket takes. Where it takes none, the answer is `End`
    /// for a broken pipe, `Reset` where a reset was told, now or before, and else `NotYet`.
    pub fn write(&mut self, bytes: &[u8]) -> Result<Moved, Failed>
        requires { 0 < length bytes.now }
        ensures within { IfOk result (IsMoveWithin (length bytes.now)) }
        ensures reset { self.new ≡ saw_reset self.old result }
        ensures after_reset { IsTrue self.old → result ≢ Ok Moved.End }
    {
        let transfer = send(&mut self.socket, bytes);
        self.keep(moved_of_write(transfer, self.was_reset))
    }
}
