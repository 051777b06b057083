/// What a read or a write of a stream moved.
#[derive(Clone, Copy, Debug, PartialEq, Eq)]
pub enum Moved {
    /// So many bytes, at least one.
    Took(u32),
    /// Nothing, and nothing will come: end of file for a read, a broken pipe for a write.
    End,
    /// Nothing yet.
    NotYet,
    /// Nothing: the connection was reset.
    Reset,
}

/// Where an advance of scripted time led.
#[derive(Clone, Copy, Debug, PartialEq, Eq)]
pub enum Point {
    /// To this time.
    Time(u64),
    /// There is no further time point.
    Last,
}

/// Why a reactor couldn't be set up.
#[derive(Clone, Copy, Debug, PartialEq, Eq)]
pub enum SetupFault {
    /// The outside refused.
    Failed,
    /// Memory was asked for and not given.
    NoMemory,
}
