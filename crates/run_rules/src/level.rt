/// How much is asked of the order in which handlers begin and are dropped.
#[derive(Clone, Copy, Debug, PartialEq, Eq)]
pub enum Strictness {
    /// Nothing.
    Loose,
    /// What strands of Boost.Asio keep: of two calls that don't overlap, the handler of the earlier
    /// one begins first (reference, `io_context::strand`, "Order of handler invocation").
    Plain,
    /// What a context keeps whose calls take effect in one order, and on which no handler is executed
    /// inside another: what a handler dispatches to its own strand goes before all that is ready
    /// there, once that handler has returned.
    Strict,
}

/// How much is asked of a run.
#[derive(Clone, Copy, Debug, PartialEq, Eq)]
pub struct Level {
    /// Also that no two reads, and no two writes, of one stream are pending (Boost.Asio reference,
    /// `async_read`, `async_write`: the program must see to it that the stream performs no other
    /// such operation until this one completes).
    pub streams: bool,
    pub strictness: Strictness,
}
