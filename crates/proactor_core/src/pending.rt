ghost use Rattle.std.specs.Prelude.{◌≡◌, ◌≤◌, [], IfSome, IsTrue, List, OnOk, length, map, ℕ};
ghost use Rattle.asio_types.specs.Faults.{CountsFaults};
ghost use Rattle.std.specs.VecDeque.{deque_capacity, deque_len};
ghost use Rattle.stream_rules.specs.Queue.{reading_side, writing_side};
ghost use Rattle.history_rules.specs.Untold.{may_give_read, may_give_write};
ghost use Rattle.proactor_core.specs.Pending.{pending_read, pending_write, AreReads, AreWrites, GivesDue, IsServedBy};
ghost use Rattle.proactor_core.specs.Reactor.{tells, whole_told, ChangesOne, IsServable};

use crate::due::DueList;
use crate::held::HeldBytes;
use crate::reading::serve_read;
use crate::writing::serve_write;
use asio_types::{Failed, OpNo, StreamNo};
use composed_ops::Machine;
use reactor_trait::Reactor;
use std::collections::VecDeque;
use stream_rules::Completion;

/// An operation on a stream that hasn't completed.
#[derive(Clone, Copy)]
pub(crate) struct PendingOp<'a> {
    /// Its number.
    pub(crate) op: OpNo,
    /// Its place in the order of acceptance.
    pub(crate) accepted: u32,
    /// What it asks for, and how far it is.
    pub(crate) machine: Machine<'a>,
}

/// Serves the reads of a stream from the head, as long as the head completes, and lists what
/// completed. A head that stays keeps what it consumed.
pub(crate) fn serve_reads<'a, X: Reactor>(
    queue: &mut VecDeque<PendingOp<'a>>,
    held: &mut HeldBytes,
    buffer: &mut [u8],
    stream: StreamNo,
    reactor: &mut X,
    due: &mut DueList,
) -> Result<(), Failed>
    requires servable { IsServable (X.state reactor.old) (X.told reactor.old) stream }
    requires reads { AreReads (length buffer.old) held.old queue.old.items }
    requires room { deque_len queue.old ≤ due.old.spare }
    ensures keeps { X.state reactor.new ≡ X.state reactor.old }
    ensures counts { CountsFaults result (X.faults reactor.old) (X.faults reactor.new) }
    ensures later { X.faults reactor.old ≤ X.faults reactor.new }
    ensures tells { tells (X.told reactor.new) ≡ tells (X.told reactor.old) }
    ensures room { held.new.room ≡ held.old.room }
    ensures told { OnOk result (ChangesOne stream (X.told reactor.old) (X.told reactor.new)) }
    ensures queue_room { deque_capacity queue.new ≡ deque_capacity queue.old }
    ensures reads { AreReads (length buffer.old) held.new queue.new.items }
    ensures gives { OnOk result (GivesDue may_give_read (map pending_read queue.old.items)
        (map pending_read queue.new.items) due.old due.new) }
    ensures served { OnOk result (IfSome (X.told reactor.old) (λ _.
        IsServedBy reading_side (map pending_read queue.old.items)
        (map pending_read queue.new.items)
        (whole_told held.old.bytes (X.told reactor.old) stream)
        (whole_told held.new.bytes (X.told reactor.new) stream) due.old due.new)) }
    ensures after_last { IsTrue (X.state reactor.old).last → OnOk result (queue.new.items ≡ []) }
{
    while let Some(mut head) = queue.pop_front() {
        match serve_read(&mut head.machine, held, buffer, stream, reactor)? {
            None => {
                queue.push_front_reserved(head);
                return Ok(());
            }
            Some(outcome) => due.push_reserved(Completion {
                op: head.op,
                outcome,
            }),
        }
    }
    Ok(())
}

/// Serves the writes of a stream, as `serve_reads` its reads.
pub(crate) fn serve_writes<'a, X: Reactor>(
    queue: &mut VecDeque<PendingOp<'a>>,
    stream: StreamNo,
    reactor: &mut X,
    due: &mut DueList,
) -> Result<(), Failed>
    requires servable { IsServable (X.state reactor.old) (X.told reactor.old) stream }
    requires writes { AreWrites queue.old.items }
    requires room { deque_len queue.old ≤ due.old.spare }
    ensures keeps { X.state reactor.new ≡ X.state reactor.old }
    ensures counts { CountsFaults result (X.faults reactor.old) (X.faults reactor.new) }
    ensures later { X.faults reactor.old ≤ X.faults reactor.new }
    ensures tells { tells (X.told reactor.new) ≡ tells (X.told reactor.old) }
    ensures told { OnOk result (ChangesOne stream (X.told reactor.old) (X.told reactor.new)) }
    ensures queue_room { deque_capacity queue.new ≡ deque_capacity queue.old }
    ensures writes { AreWrites queue.new.items }
    ensures gives { OnOk result (GivesDue may_give_write (map pending_write queue.old.items)
        (map pending_write queue.new.items) due.old due.new) }
    ensures served { OnOk result ((held : List ℕ) →
        IfSome (X.told reactor.old) (λ _.
        IsServedBy writing_side (map pending_write queue.old.items)
        (map pending_write queue.new.items) (whole_told held (X.told reactor.old) stream)
        (whole_told held (X.told reactor.new) stream) due.old due.new)) }
    ensures after_last { IsTrue (X.state reactor.old).last → OnOk result (queue.new.items ≡ []) }
{
    while let Some(mut head) = queue.pop_front() {
        match serve_write(&mut head.machine, stream, reactor)? {
            None => {
                queue.push_front_reserved(head);
                return Ok(());
            }
            Some(outcome) => due.push_reserved(Completion {
                op: head.op,
                outcome,
            }),
        }
    }
    Ok(())
}
