use crate::frame::Frame;

/// What a frame takes and gives back.
#[derive(Clone, Copy, Debug, PartialEq, Eq, Hash)]
pub enum Resource {
    /// Data that one thread at a time may touch: claimed and released.
    Thing { thing: u64 },
    /// A mutex: locked and unlocked.
    Lock { lock: u64 },
}

/// What is taken: by which frame, on which thread.
#[derive(Clone, Copy, Debug, PartialEq, Eq, Hash)]
pub struct Taking {
    pub thread: u64,
    pub frame: Frame,
    pub resource: Resource,
}
