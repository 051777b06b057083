use crate::name::Name;

/// The names that the handler of an operation may make something under, one of each kind.
#[derive(Clone, Copy)]
pub struct Spares {
    /// For a strand.
    pub strand: Option<Name>,
    /// For a timer.
    pub timer: Option<Name>,
    /// For a slot.
    pub slot: Option<Name>,
    /// For a stream or a listener.
    pub stream: Option<Name>,
}
