/// A handler that a thread runs. An end that lies outside of the window isn't there.
#[derive(Clone, Copy)]
pub(crate) struct Bar {
    pub row: usize,
    /// How many handlers run round it on its thread.
    pub depth: u64,
    pub op: u64,
    pub strand: Option<u64>,
    pub begun: Option<u64>,
    pub ended: Option<u64>,
}

/// What is claimed or locked.
#[derive(Clone, Copy, PartialEq, Eq)]
pub(crate) enum Held {
    Thing { thing: u64 },
    Lock { lock: u64 },
}

/// What a thread claims or locks, from line to line.
#[derive(Clone, Copy)]
pub(crate) struct Bracket {
    pub row: usize,
    /// How much is claimed or locked on its thread since before.
    pub depth: u64,
    pub held: Held,
    pub taken: Option<u64>,
    pub given: Option<u64>,
}

/// What a sign stands for.
#[derive(Clone, Copy)]
pub(crate) enum Sign {
    Call { op: u64 },
    Done { op: u64 },
    Drop { op: u64 },
    Mark { mark: u64 },
    After { mark: u64 },
    Cancel { thing: u64 },
    Stop { context: u64 },
    Restart { context: u64 },
}

/// What happens at one line.
#[derive(Clone, Copy)]
pub(crate) struct Spot {
    pub row: usize,
    pub line: u64,
    pub sign: Sign,
}

/// A handler that runs at the line that was read last.
#[derive(Clone, Copy)]
pub(crate) struct Running {
    pub row: usize,
    pub depth: u64,
    pub op: u64,
    pub strand: Option<u64>,
    pub begun: u64,
}

/// What is claimed or locked there.
#[derive(Clone, Copy)]
pub(crate) struct Holding {
    pub row: usize,
    pub depth: u64,
    pub held: Held,
    pub taken: u64,
}
