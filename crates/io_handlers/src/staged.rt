use io_rules::{Binding, Control, Lane, Name, Operation};

/// A call of an initiating function, with its handler.
pub struct Initiating<H> {
    /// Where the handler is to execute.
    pub lane: Lane,
    /// Its cancellation slot, if any.
    pub binding: Option<Binding>,
    /// What the operation does.
    pub kind: Operation,
    /// The buffer of a read or a write.
    pub buffer: Option<Vec<u8>>,
    /// What is called when it has completed.
    pub handler: H,
}

/// What a handler has called while it executes; it takes effect when the handler has returned.
pub enum Staged<H, S> {
    /// An initiating function.
    Called(Initiating<H>),
    /// A function that changes the context at once, and has no handler.
    Changed(Control),
    /// `basic_waitable_timer::expires_after`: the timer expires so many nanoseconds after its handler has
    /// returned.
    ExpiresAfter { timer: Name, after: u64 },
    /// `make_strand`: a strand under a name that is kept for the handler, with its state.
    MadeStrand { name: Name, state: S },
}

/// No place is left for one more operation, or no name for one more strand: its handler, or its state, comes
/// back.
pub struct Full<T>(pub T);

/// Likewise of a read or a write: its buffer comes back too.
pub struct FullTransfer<H> {
    /// What was to be read into, or to be written.
    pub buffer: Vec<u8>,
    /// What was to be called when it has completed.
    pub handler: H,
}
