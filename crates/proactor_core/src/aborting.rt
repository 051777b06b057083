ghost use Rattle.std.specs.Prelude.{◌≡◌, ◌+◌, ◌≤◌, ◌++◌, IfNone, IfSome, [], filter, length, map, not};
ghost use Rattle.std.specs.VecDeque.{deque_capacity, deque_len};
ghost use Rattle.history_rules.specs.Performing.{all_of_stream};
ghost use Rattle.proactor_core.specs.Aborting.{abort_of_pending, is_pending_op, pending_reads_go_first, IsFirstPending};
ghost use Rattle.proactor_core.specs.Pending.{pending_read, pending_write};

use crate::due::DueList;
use crate::pending::PendingOp;
use asio_types::{Code, OpNo};
use std::collections::VecDeque;
use stream_rules::Completion;

/// An operation that is cancelled, which reports the bytes that it moved so far.
fn abort_of(pending: &PendingOp) -> Completion
    ensures { result ≡ abort_of_pending pending.now }
{
    Completion {
        op: pending.op,
        outcome: (Code::Aborted, pending.machine.abort()),
    }
}

/// Lists an operation where it is in the queue.
fn list_abort<'a>(op: OpNo, queue: &VecDeque<PendingOp<'a>>, due: &mut DueList)
    requires { deque_len queue.now ≤ due.old.spare }
    ensures coming { due.new.coming
        ≡ due.old.coming ++ map abort_of_pending (filter (is_pending_op op) queue.now.items) }
    ensures room { due.new.spare + length due.new.coming ≡ due.old.spare + length due.old.coming }
{
    for pending in queue.iter() {
        if pending.op == op {
            due.push_reserved(abort_of(pending));
        }
    }
}

/// An operation of a queue is cancelled. Costs the length of the queue.
pub(crate) fn abort_in<'a>(op: OpNo, queue: &mut VecDeque<PendingOp<'a>>, due: &mut DueList)
    requires { deque_len queue.old ≤ due.old.spare }
    ensures queue { queue.new.items
        ≡ filter (λ pending. not (is_pending_op op pending)) queue.old.items }
    ensures coming { due.new.coming
        ≡ due.old.coming ++ map abort_of_pending (filter (is_pending_op op) queue.old.items) }
    ensures room { due.new.spare + length due.new.coming ≡ due.old.spare + length due.old.coming }
    ensures queue_room { deque_capacity queue.new ≡ deque_capacity queue.old }
{
    list_abort(op, queue, due);
    queue.retain(|pending| pending.op != op);
}

/// Whether the operation that was accepted first is a read.
fn reads_go_first<'a>(reads: &VecDeque<PendingOp<'a>>, writes: &VecDeque<PendingOp<'a>>) -> bool
    ensures { result ≡ pending_reads_go_first reads.now.items writes.now.items }
{
    match (reads.front(), writes.front()) {
        (Some(read), Some(write)) => read.accepted < write.accepted,
        (Some(_), None) => true,
        (None, _) => false,
    }
}

/// Takes the operation that was accepted first out of its queue.
fn pop_first<'a>(
    reads: &mut VecDeque<PendingOp<'a>>,
    writes: &mut VecDeque<PendingOp<'a>>,
) -> Option<PendingOp<'a>>
    ensures none { IfNone result ((reads.old.items ≡ []) × (writes.old.items ≡ [])) }
    ensures none_left { IfNone result ((reads.new.items ≡ []) × (writes.new.items ≡ [])) }
    ensures first { IfSome result (λ first.
        IsFirstPending first reads.old.items writes.old.items reads.new.items writes.new.items) }
    ensures count { IfSome result (λ _.
        deque_len reads.new + deque_len writes.new + 1
        ≡ deque_len reads.old + deque_len writes.old) }
    ensures reads_room { deque_capacity reads.new ≡ deque_capacity reads.old }
    ensures writes_room { deque_capacity writes.new ≡ deque_capacity writes.old }
{
    if reads_go_first(reads, writes) {
        reads.pop_front()
    } else {
        writes.pop_front()
    }
}

/// All operations of a stream are cancelled, in order of acceptance.
pub(crate) fn abort_all<'a>(
    reads: &mut VecDeque<PendingOp<'a>>,
    writes: &mut VecDeque<PendingOp<'a>>,
    due: &mut DueList,
)
    requires { deque_len reads.old + deque_len writes.old ≤ due.old.spare }
    ensures coming { due.new.coming
        ≡ due.old.coming
        ++ all_of_stream (map pending_read reads.old.items) (map pending_write writes.old.items) }
    ensures room { due.new.spare + length due.new.coming ≡ due.old.spare + length due.old.coming }
    ensures reads { reads.new.items ≡ [] }
    ensures writes { writes.new.items ≡ [] }
    ensures reads_room { deque_capacity reads.new ≡ deque_capacity reads.old }
    ensures writes_room { deque_capacity writes.new ≡ deque_capacity writes.old }
{
    while let Some(first) = pop_first(reads, writes) {
        due.push_reserved(abort_of(&first));
    }
}
