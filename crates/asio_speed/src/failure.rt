use asio_types::NoMemory;
use std::alloc::AllocError;

/// Why the program ended early.
#[derive(Drop)]
pub(crate) enum Failure {
    Usage,
    /// A script was refused, its history wasn't taken as a whole one, a call had no room, or the
    /// proactor failed.
    Refused,
    Clock,
    Write,
    Network,
    NoMemory,
}

impl From<NoMemory> for Failure {
    fn from(_e: NoMemory) -> Failure {
        Failure::NoMemory
    }
}

impl From<AllocError> for Failure {
    fn from(_e: AllocError) -> Failure {
        Failure::NoMemory
    }
}

impl Failure {
    pub(crate) fn status(&self) -> u8 {
        match self {
            Failure::Usage => 1,
            Failure::Refused => 2,
            Failure::Clock => 3,
            Failure::Write => 4,
            Failure::Network => 5,
            Failure::NoMemory => 6,
        }
    }
}
