/// What a name can name.
#[derive(Clone, Copy, Debug, PartialEq, Eq)]
pub enum Kind {
    /// A strand (Asio reference, `strand`).
    Strand,
    /// A timer (`basic_waitable_timer`).
    Timer,
    /// A cancellation slot (`cancellation_slot`).
    Slot,
    /// A connection (`basic_stream_socket`).
    Stream,
    /// What accepts connections (`basic_socket_acceptor`); it has a stream's place.
    Listener,
}

/// The name of a strand, a timer, a slot, a stream or a listener: its place, and the how manieth at
/// this place it is. So no name comes twice.
#[derive(Clone, Copy, Debug, PartialEq, Eq)]
pub struct Name {
    /// From 0 to below the limit of its kind.
    pub place: u32,
    /// From 0.
    pub generation: u32,
}

/// Where a handler executes.
#[derive(Clone, Copy, Debug, PartialEq, Eq)]
pub enum Lane {
    /// On no strand: beside any other handler.
    Own,
    /// On this strand: beside no other handler of it.
    Strand(Name),
}
