use io_rules::Name;

/// A wait that is pending (Asio reference, `basic_waitable_timer::async_wait`).
pub struct PendingWait<T> {
    /// The number of its operation.
    pub op: u64,
    /// Its timer.
    pub timer: Name,
    /// What goes with it, as its handler.
    pub item: T,
}
