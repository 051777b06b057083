ghost use Rattle.std.specs.Prelude.{◌≡◌};
ghost use Rattle.session_script.specs.Script.{is_operation, is_stop};
ghost use Rattle.session_script.specs.Acts.{bodies_of};

use asio_types::{Bytes, GuardNo, SlotNo, StrandNo, StreamNo, TimerNo, Types};

/// One act of a script: a posting, an asynchronous operation, a control act, or a stop. Postings
/// and asynchronous operations have a handler, whose body is the script's (see `Script::branch`).
#[derive(Clone, Drop)]
pub enum Act {
    /// `asio::post`, to a strand or to the context.
    Post {
        strand: Option<StrandNo>,
    },
    /// `asio::defer`.
    Defer {
        strand: Option<StrandNo>,
    },
    /// `asio::dispatch`.
    Dispatch {
        strand: Option<StrandNo>,
    },
    /// `steady_timer::expires_after`.
    Expires {
        timer: TimerNo,
        after: u64,
    },
    /// `steady_timer::expires_at`, in scripted time.
    ExpiresAt {
        timer: TimerNo,
        at: u64,
    },
    /// `steady_timer::async_wait`.
    Wait {
        timer: TimerNo,
        strand: Option<StrandNo>,
        slot: Option<SlotNo>,
        filter: Types,
    },
    /// `steady_timer::cancel`.
    Cancel {
        timer: TimerNo,
    },
    /// `steady_timer::cancel_one`.
    CancelOne {
        timer: TimerNo,
    },
    /// `cancellation_signal::emit`.
    Emit {
        slot: SlotNo,
        types: Types,
    },
    /// `async_read_some` of a stream.
    ReadSome {
        stream: StreamNo,
        size: u32,
        strand: Option<StrandNo>,
        slot: Option<SlotNo>,
        filter: Types,
    },
    /// `asio::async_read` of exactly `size` bytes.
    ReadAll {
        stream: StreamNo,
        size: u32,
        strand: Option<StrandNo>,
        slot: Option<SlotNo>,
        filter: Types,
    },
    /// `asio::async_read_until` with a limit of `max` bytes.
    Until {
        stream: StreamNo,
        delimiter: Bytes,
        max: u32,
        strand: Option<StrandNo>,
        slot: Option<SlotNo>,
        filter: Types,
    },
    /// `async_write_some` of a stream.
    WriteSome {
        stream: StreamNo,
        bytes: Bytes,
        strand: Option<StrandNo>,
        slot: Option<SlotNo>,
        filter: Types,
    },
    /// `asio::async_write` of all bytes.
    WriteAll {
        stream: StreamNo,
        bytes: Bytes,
        strand: Option<StrandNo>,
        slot: Option<SlotNo>,
        filter: Types,
    },
    /// `close` of a stream.
    Close {
        stream: StreamNo,
    },
    /// Release of an `executor_work_guard`.
    Release {
        guard: GuardNo,
    },
    /// `io_context::stop`.
    Stop,
}

/// Whether an act has a handler: a posting or an asynchronous operation.
pub fn is_operation(act: &Act) -> bool
    ensures { result ≡ is_operation act.now }
{
    match act {
        Act::Post { .. } | Act::Defer { .. } | Act::Dispatch { .. } | Act::Wait { .. } => true,
        Act::ReadSome { .. } | Act::ReadAll { .. } | Act::Until { .. } => true,
        Act::WriteSome { .. } | Act::WriteAll { .. } => true,
        Act::Expires { .. } | Act::ExpiresAt { .. } | Act::Cancel { .. } => false,
        Act::CancelOne { .. } | Act::Emit { .. } | Act::Close { .. } => false,
        Act::Release { .. } | Act::Stop => false,
    }
}

/// Whether an act stops the context.
pub(crate) fn is_stop(act: &Act) -> bool
    ensures { result ≡ is_stop act.now }
{
    matches!(act, Act::Stop)
}

/// Which bodies follow an act.
#[derive(Clone, Copy)]
pub(crate) enum Bodies {
    /// None: the act has no handler.
    Nothing,
    /// The one of a posting, which never fails.
    Posting,
    /// One, and one for each other class of an asynchronous operation.
    Operation,
}

/// Which bodies follow an act.
pub(crate) fn bodies_of(act: &Act) -> Bodies
    ensures { result ≡ bodies_of act.now }
{
    match act {
        Act::Post { .. } | Act::Defer { .. } | Act::Dispatch { .. } => Bodies::Posting,
        Act::Wait { .. } | Act::ReadSome { .. } | Act::ReadAll { .. } => Bodies::Operation,
        Act::Until { .. } | Act::WriteSome { .. } | Act::WriteAll { .. } => Bodies::Operation,
        Act::Expires { .. } | Act::ExpiresAt { .. } | Act::Cancel { .. } => Bodies::Nothing,
        Act::CancelOne { .. } | Act::Emit { .. } | Act::Close { .. } => Bodies::Nothing,
        Act::Release { .. } | Act::Stop => Bodies::Nothing,
    }
}
