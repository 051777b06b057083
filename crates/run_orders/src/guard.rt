/// What keeps claims of one thing apart in each order of a run.
#[derive(Clone, Copy, Debug, PartialEq, Eq)]
pub enum Guard {
    /// The executions that claim are of one strand.
    Strand { strand: u64 },
    /// A mutex is held throughout each claim.
    Lock { lock: u64 },
    /// One thread alone can make the claims.
    Thread { thread: u64 },
}
