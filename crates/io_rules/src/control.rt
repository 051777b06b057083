use crate::name::{Kind, Name};
use asio_types::Types;

/// A call that changes the context at once, and has no handler.
#[derive(Clone, Copy)]
pub enum Control {
    /// Makes a strand, a timer, a slot, a stream or a listener.
    Make { kind: Kind, name: Name },
    /// Destroys a strand, a timer or a slot, or closes a stream or a listener
    /// (`basic_socket::close`).
    Free { kind: Kind, name: Name },
    /// `basic_waitable_timer::expires_at`, and `expires_after` once the clock was read: the expiry in
    /// nanoseconds since the context was made.
    Expires { timer: Name, at: u64 },
    /// `basic_waitable_timer::cancel`.
    Cancel { timer: Name },
    /// `basic_waitable_timer::cancel_one`.
    CancelOne { timer: Name },
    /// `cancellation_signal::emit`.
    Emit { slot: Name, types: Types },
    /// `basic_socket::cancel`.
    CancelAll { stream: Name },
    /// `basic_socket::shutdown` of the sending side.
    Shutdown { stream: Name },
    /// The option `tcp::no_delay`.
    NoDelay { stream: Name, on: bool },
    /// One more `executor_work_guard`.
    Hold,
    /// One is reset.
    Release,
    /// `io_context::stop`.
    Stop,
}
