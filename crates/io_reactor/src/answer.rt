use asio_types::Code;

/// What a read or a write of a socket answered (Asio reference, `basic_stream_socket::read_some`,
/// `write_some`).
#[derive(Clone, Copy, Debug, PartialEq, Eq)]
pub enum Transferred {
    /// It would have to wait: `error::would_block`.
    WouldBlock,
    /// `bytes_transferred`, at least one.
    Bytes(usize),
    /// The end of the stream, or an error.
    Failed(Code),
}

/// How a connect went so far (`basic_stream_socket::async_connect`).
#[derive(Clone, Copy, Debug, PartialEq, Eq)]
pub enum Linked {
    /// It isn't known yet.
    WouldBlock,
    /// The socket is connected.
    Linked,
    /// It can't be connected.
    Failed(Code),
}

/// What an accept of a listener gave (`basic_socket_acceptor::async_accept`).
pub enum Accepted<S> {
    /// No connection waits.
    WouldBlock,
    /// The socket of a connection.
    Made(S),
    /// An error.
    Failed(Code),
}
