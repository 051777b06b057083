/// How a call of `run` ended (Asio reference, io_context::run, ::poll).
#[derive(Clone, Copy, Debug, PartialEq, Eq)]
pub enum RunEnd {
    /// No work was left.
    Ended,
    /// The context is stopped.
    Stopped,
    /// Nothing was ready, and in this round that ends a call.
    Idle,
    /// The reactor failed.
    Fault,
}
