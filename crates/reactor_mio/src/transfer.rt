ghost use Rattle.std.specs.Prelude.{◌≡◌, ◌≤◌, ◌<◌, ◌^◌, IfOk};
ghost use Rattle.reactor_mio.specs.Transfer.{read_moved, write_moved, failed_transfer, given_transfer, IsTransferWithin};

use asio_types::{Failed, Moved};
use std::io;
use std::io::ErrorKind;

/// What one call on a socket that never waits came to.
#[derive(Clone, Copy, Debug, PartialEq, Eq)]
pub enum Transfer {
    /// So many bytes went over, at least one.
    Bytes(u32),
    /// No byte went over: a read at end of file, or a write of which nothing was taken.
    Nothing,
    /// The call would have waited.
    WouldBlock,
    /// A signal came between.
    Interrupted,
    /// The peer reset the connection.
    Reset,
    /// The peer takes no more bytes.
    BrokenPipe,
    /// The socket has no peer.
    NotConnected,
    /// The call failed otherwise.
    Failed,
}

/// What a call came to that failed so.
pub fn transfer_failed(kind: ErrorKind) -> Transfer
    ensures { result ≡ failed_transfer kind }
{
    match kind {
        ErrorKind::WouldBlock => Transfer::WouldBlock,
        ErrorKind::Interrupted => Transfer::Interrupted,
        ErrorKind::ConnectionReset => Transfer::Reset,
        ErrorKind::BrokenPipe => Transfer::BrokenPipe,
        ErrorKind::NotConnected => Transfer::NotConnected,
        _ => Transfer::Failed,
    }
}

/// What a call came to that was to move so many bytes at most, and gave this.
pub fn transfer_of(gave: io::Result<usize>, most: usize) -> Transfer
    requires within { IfOk gave (λ count. count ≤ most) }
    requires countable { most < 2 ^ 32 }
    ensures within { IsTransferWithin most result }
    ensures told { result ≡ given_transfer gave }
{
    match gave {
        Ok(0) => Transfer::Nothing,
        Ok(count) => Transfer::Bytes(count as u32),
        Err(error) => transfer_failed(error.kind()),
    }
}

/// What a read answers whose call on the socket came to this, where a reset was seen before or
/// wasn't. A reset is told once by the system, and by this at each later end of file.
pub fn moved_of_read(transfer: Transfer, was_reset: bool) -> Result<Moved, Failed>
    ensures { result ≡ read_moved transfer was_reset }
{
    match transfer {
        Transfer::Bytes(count) => Ok(Moved::Took(count)),
        Transfer::Nothing if was_reset => Ok(Moved::Reset),
        Transfer::Nothing => Ok(Moved::End),
        Transfer::WouldBlock | Transfer::Interrupted => Ok(Moved::NotYet),
        Transfer::Reset => Ok(Moved::Reset),
        Transfer::BrokenPipe | Transfer::NotConnected | Transfer::Failed => Err(Failed),
    }
}

/// What a write answers whose call on the socket came to this, where a reset was seen before or
/// wasn't. A reset is told once by the system, and by this at each later broken pipe.
pub fn moved_of_write(transfer: Transfer, was_reset: bool) -> Result<Moved, Failed>
    ensures { result ≡ write_moved transfer was_reset }
{
    match transfer {
        Transfer::Bytes(count) => Ok(Moved::Took(count)),
        Transfer::Nothing | Transfer::WouldBlock | Transfer::Interrupted => Ok(Moved::NotYet),
        Transfer::Reset => Ok(Moved::Reset),
        Transfer::BrokenPipe if was_reset => Ok(Moved::Reset),
        Transfer::BrokenPipe => Ok(Moved::End),
        Transfer::NotConnected | Transfer::Failed => Err(Failed),
    }
}
