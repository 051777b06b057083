use io_rules::{Name, Operation, Side};

/// A system call on a socket that is under way (Asio reference, Overview, "The Proactor Design Pattern"): it
/// goes with the socket, outside of the lock.
#[derive(Drop)]
pub struct Attempt {
    /// The stream, or the listener.
    pub stream: Name,
    /// For the first operation of this side.
    pub side: Side,
    /// What this operation does.
    pub kind: Operation,
    /// How many bytes it has moved so far.
    pub moved: u64,
    /// Its buffer.
    pub buffer: Option<Vec<u8>>,
    /// The name for what an accept makes.
    pub reserved: Option<Name>,
}
