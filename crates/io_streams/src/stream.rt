use io_rules::{Name, Side};

/// What is known of a stream beside its operations.
#[derive(Clone, Copy)]
pub(crate) struct Stream {
    pub(crate) listener: bool,
    pub(crate) linked: bool,
    // how many bytes came that no read got yet
    pub(crate) held: u64,
    // in how many of these the delimiter of the first read doesn't end
    pub(crate) searched: u64,
    // for which side its socket is in a system call
    pub(crate) out: Option<Side>,
    // the name that is kept for what an accept makes
    pub(crate) reserved: Option<Name>,
}
