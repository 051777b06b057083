use io_rules::{Lane, Operation};

/// What goes with an operation that is pending on a stream or a listener.
pub struct Streaming<H> {
    /// Where its handler is to execute.
    pub lane: Lane,
    /// What it does.
    pub kind: Operation,
    /// How many bytes it has moved so far.
    pub moved: u64,
    /// Whether it was cancelled during a system call.
    pub cancelled: bool,
    /// The buffer that was given with it, but during a system call.
    pub buffer: Option<Vec<u8>>,
    /// The handler.
    pub handler: H,
}
