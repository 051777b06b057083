/// What a turn of a book came to.
#[derive(Clone, Copy, Debug, PartialEq, Eq)]
pub enum BookTurn {
    /// One whole execution, or one whole turn of the reactor.
    Did,
    /// Nothing is left to do in the round, and nothing holds the context.
    Ended,
    /// The context is stopped.
    Stopped,
    /// There is nothing to do now.
    Idle,
    /// The reactor failed in it.
    Fault,
}
