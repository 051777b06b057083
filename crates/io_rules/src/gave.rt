use asio_types::Code;

/// What a system call on a socket gave.
#[derive(Clone, Copy)]
pub enum Gave {
    /// It would block.
    WouldBlock,
    /// It read or wrote so many bytes, at least one.
    Moved { size: u64 },
    /// It read so many bytes for a read up to a delimiter, and of all that the stream holds then, the
    /// first delimiter ends behind so many.
    Found { came: u64, end: Option<u64> },
    /// The end of the stream, or an error.
    Failed { code: Code },
    /// It accepted a connection.
    Made,
    /// It is connected.
    Linked,
}
