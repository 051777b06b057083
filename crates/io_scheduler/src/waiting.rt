use io_rules::Lane;

/// What goes with a wait that is pending.
pub struct Waiting<H> {
    /// Where its handler is to execute.
    pub lane: Lane,
    /// The handler.
    pub handler: H,
}
