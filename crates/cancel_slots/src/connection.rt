use asio_types::{OpNo, Types};

/// What is connected to a slot: an operation, and the cancellation types that reach it. These are
/// the types that the operation supports; where it has a filter, those that the filter has too.
#[derive(Clone, Copy, PartialEq, Eq)]
pub struct Connection {
    /// The operation.
    pub op: OpNo,
    /// The types that cancel it.
    pub supported: Types,
}
