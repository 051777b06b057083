use asio_types::Code;
use io_rules::Name;

/// How an operation completed: the arguments of its handler (Asio reference, "Requirements on
/// asynchronous operations", the completion signature).
#[derive(Drop)]
pub struct Completion {
    /// Its `error_code`.
    pub code: Code,
    /// Its `bytes_transferred`, 0 where it moves none.
    pub size: u64,
    /// The buffer that was given with it (`mutable_buffer`, `const_buffer`): of a read, its first `size` bytes
    /// are what came.
    pub buffer: Option<Vec<u8>>,
    /// The stream of the connection that an accept made (`basic_socket_acceptor::async_accept`).
    pub made: Option<Name>,
    /// The context's clock when its handler begins, in nanoseconds since the context was made.
    pub now: u64,
}
