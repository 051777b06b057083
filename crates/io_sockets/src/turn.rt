/// What a system call on a socket waits for (Asio reference, `basic_socket::wait_type`).
#[derive(Clone, Copy)]
pub enum WaitType {
    /// Reads, and a listener's accepts.
    Read,
    /// Writes, and a connect.
    Write,
}

/// A socket that is to be looked at.
#[derive(Clone, Copy)]
pub struct Turn {
    /// The place of its stream.
    pub place: u32,
    /// What may be tried on it.
    pub wait: WaitType,
}

/// Which turns of a place are in the list.
#[derive(Clone, Copy)]
pub struct Listed {
    /// Its reads.
    pub read: bool,
    /// Its writes.
    pub write: bool,
}
