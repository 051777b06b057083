/// Why reading or writing was given up.
#[derive(Clone, Copy, Debug, PartialEq, Eq)]
pub enum Unfinished {
    /// The source or the sink failed.
    Failed,
    /// Memory was asked for and not given.
    NoMemory,
}
