use crate::name::Name;
use asio_types::Types;

/// What an operation does.
#[derive(Clone, Copy)]
pub enum Operation {
    /// `post`.
    Post,
    /// `defer`.
    Defer,
    /// `dispatch`.
    Dispatch,
    /// `basic_waitable_timer::async_wait`.
    Wait { timer: Name },
    /// `basic_stream_socket::async_read_some`, into a buffer of this size in bytes.
    ReadSome { stream: Name, size: u64 },
    /// `async_read`, which fills a buffer of this size.
    ReadAll { stream: Name, size: u64 },
    /// `async_read_until`, with at most so many bytes up to the end of the delimiter.
    ReadUntil { stream: Name, max: u64 },
    /// `basic_stream_socket::async_write_some`, of a buffer of this size.
    WriteSome { stream: Name, size: u64 },
    /// `async_write`, of a buffer of this size.
    WriteAll { stream: Name, size: u64 },
    /// `basic_socket_acceptor::async_accept`.
    Accept { listener: Name },
    /// `basic_stream_socket::async_connect`.
    Connect { stream: Name },
}

/// A part of a stream whose operations are served one after another.
#[derive(Clone, Copy)]
pub enum Side {
    /// Reads, and a listener's accepts.
    Read,
    /// Writes.
    Write,
    /// Connects.
    Connect,
}

/// What `bind_cancellation_slot` binds to an operation.
#[derive(Clone, Copy)]
pub struct Binding {
    /// The slot.
    pub slot: Name,
    /// The types that are let through (Asio reference, `enable_total_cancellation` and its kin).
    pub filter: Types,
}
