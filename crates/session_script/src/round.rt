/// How a round calls the context.
#[derive(Clone, Copy, Debug, PartialEq, Eq)]
pub enum Pace {
    /// `io_context::run`.
    Run,
    /// `io_context::poll`.
    Poll,
}

/// One round of a session: some workers call the context until it has nothing more for them.
#[derive(Clone, Copy, Debug, PartialEq, Eq)]
pub struct Round {
    /// Whether `io_context::restart` comes first.
    pub restart: bool,
    /// What the workers call.
    pub pace: Pace,
    /// How many workers there are, from 1 to 16.
    pub workers: u8,
}
