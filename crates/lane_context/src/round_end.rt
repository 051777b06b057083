/// How a round ended (Asio reference, io_context::run, ::poll, ::stopped).
#[derive(Clone, Copy, Debug, PartialEq, Eq)]
pub enum RoundEnd {
    /// No work was left.
    Ended,
    /// The context is stopped.
    Stopped,
    /// Nothing was ready, in a round in which that ends a call of `run`.
    Polled,
    /// The reactor failed: no event closes the round.
    Fault,
}
