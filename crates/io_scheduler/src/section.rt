use io_history::{Named, Witness};

/// A critical section of a context: the history when its lock was taken, and when it was given back. What
/// stands between the two was noted in it. Both are what each later history ends with.
#[derive(Drop)]
pub struct Section<C: Named> {
    /// The history before it.
    pub before: Witness<C>,
    /// The history behind it.
    pub after: Witness<C>,
}
