/// What is at a place.
#[derive(Clone, Copy)]
pub enum Life {
    /// Nothing: its next name is free.
    Free,
    /// Nothing yet: its next name is kept for what this operation may make.
    Kept { op: u64 },
    /// What its name names.
    Alive,
    /// Its name is gone, and what it named isn't yet: a strand with operations, or a stream whose
    /// socket is in a system call.
    Closing,
    /// Nothing, for ever: all its names were used.
    Spent,
}

/// A place for strands, timers, slots or streams, one after another.
#[derive(Clone, Copy)]
pub struct Place {
    /// How many names of it are gone.
    pub generation: u32,
    /// What is there.
    pub life: Life,
}
