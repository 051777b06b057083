//! Cancellation slots (Asio reference, `cancellation_slot` and `cancellation_signal`): which
//! operation an emit of cancellation types reaches. It promises that a slot holds at most one
//! operation, that no call touches another slot, and that an emit chooses the connected operation
//! exactly where it supports a type that is emitted. The proactor stands on it.
#![tactic(auto)]

mod connection;
mod slots;

pub use connection::Connection;
pub use slots::CancelSlots;
