use run_rules::Rule;
use std::alloc::{AllocError, AllocFailed};

/// Memory was refused, or a count would pass 2^64.
#[derive(Clone, Copy, Debug, PartialEq, Eq)]
pub struct NoRoom;

impl From<AllocError> for NoRoom {
    fn from(_error: AllocError) -> Self {
        NoRoom
    }
}

impl<T: Drop> From<AllocFailed<T>> for NoRoom {
    fn from(_error: AllocFailed<T>) -> Self {
        NoRoom
    }
}

/// Why a line isn't followed.
#[derive(Clone, Copy, Debug, PartialEq, Eq)]
pub enum Refusal {
    /// It breaks this rule.
    Broken { rule: Rule },
    /// Memory was refused, or a count would pass 2^64.
    NoRoom,
}
