/// The number of an act of a script, from 0 in text order.
pub type ActNo = u32;

/// An operation (a posting or an asynchronous operation) by the number of its act.
pub type OpNo = u32;

/// The number of a strand, from 0.
pub type StrandNo = u8;

/// The number of a stream, from 0.
pub type StreamNo = u8;

/// The number of a `steady_timer`, from 0.
pub type TimerNo = u8;

/// The number of a `cancellation_slot`, from 0.
pub type SlotNo = u8;

/// The number of an `executor_work_guard`, from 0.
pub type GuardNo = u8;

/// Where handlers run one at a time (Asio reference, Overview, "Strands: Use Threads Without
/// Explicit Locking").
#[derive(Clone, Copy, Debug, PartialEq, Eq)]
pub enum Lane {
    /// An explicit strand.
    Strand(StrandNo),
    /// The private place of one operation that names no strand.
    Own(OpNo),
    /// The reactor, which takes requests and moves time.
    Reactor,
}
