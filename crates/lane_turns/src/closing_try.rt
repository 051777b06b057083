/// What one try to close a round came to.
#[derive(Clone, Copy, Debug, PartialEq, Eq)]
pub enum ClosingTry {
    /// The round is closed.
    Closed,
    /// A load or a look refuted the closing.
    Refuted,
    /// The reactor had failed.
    Failed,
}
