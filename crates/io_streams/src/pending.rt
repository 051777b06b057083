use io_rules::{Name, Side};

/// An operation that is pending on a side of a stream, or of a listener (Asio reference,
/// `basic_stream_socket::async_read_some` and its kin).
pub struct PendingOp<T> {
    /// Its number.
    pub op: u64,
    /// Its stream.
    pub stream: Name,
    /// The side on which it waits for its turn.
    pub side: Side,
    /// What goes with it, as its handler and its buffer.
    pub item: T,
}
