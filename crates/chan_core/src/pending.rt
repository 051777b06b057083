ghost use Rattle.std.specs.Prelude.{◌≡◌, ◌≤◌, ◌+◌, ◌++◌, [], filter, length, map, not};
ghost use Rattle.std.specs.List.{list_any};
ghost use Rattle.std.specs.VecDeque.{deque_capacity, deque_len};
ghost use Rattle.chan_core.specs.Done.{ended};
ghost use Rattle.chan_core.specs.Pending.{ends_with, has_deadline, has_number};

use crate::done::{ChanCode, ChanDone, ChanOp};
use asio_types::OpNo;
use std::collections::VecDeque;

/// An operation of a channel that hasn't completed.
#[derive(Clone, Copy, Debug, PartialEq, Eq)]
pub struct PendingOp<V> {
    /// Its number.
    pub op: ChanOp,
    /// The wait of a timer whose completion cancels it, if there is one.
    pub deadline: Option<OpNo>,
    /// What it sends; nothing for a receive.
    pub value: V,
}

/// An operation that completes without a value.
pub(crate) fn ended(op: ChanOp, code: ChanCode) -> ChanDone
    ensures { result ≡ ended op code }
{
    ChanDone {
        op,
        code,
        value: None,
    }
}

/// Whether an operation has this number.
pub(crate) fn has_number<V: Copy>(queue: &VecDeque<PendingOp<V>>, op: ChanOp) -> bool
    ensures { result ≡ list_any (has_number op) queue.now.items }
{
    queue.iter().any(|pending| pending.op == op)
}

/// Whether the deadline of an operation is this wait.
fn has_deadline<V: Copy>(pending: &PendingOp<V>, wait: OpNo) -> bool
    ensures { result ≡ has_deadline wait pending.now }
{
    match pending.deadline {
        Some(deadline) => deadline == wait,
        None => false,
    }
}

/// All these complete with this code, in their order.
pub(crate) fn end_all<V: Copy>(
    queue: &mut VecDeque<PendingOp<V>>,
    code: ChanCode,
    due: &mut VecDeque<ChanDone>,
)
    requires room { deque_len due.old + deque_len queue.old ≤ deque_capacity due.old }
    ensures left { queue.new.items ≡ [] }
    ensures due { due.new.items ≡ due.old.items ++ map (ends_with code) queue.old.items }
    ensures capacity { deque_capacity queue.new ≡ deque_capacity queue.old }
    ensures due_capacity { deque_capacity due.new ≡ deque_capacity due.old }
{
    while let Some(pending) = queue.pop_front() {
        due.push_back_reserved(ended(pending.op, code));
    }
}

/// Those with this deadline are cancelled, in their order; the others stay in theirs.
pub(crate) fn end_expired<V: Copy>(
    queue: &mut VecDeque<PendingOp<V>>,
    wait: OpNo,
    due: &mut VecDeque<ChanDone>,
)
    requires room { deque_len due.old + deque_len queue.old ≤ deque_capacity due.old }
    ensures left { queue.new.items
        ≡ filter (λ pending. not (has_deadline wait pending)) queue.old.items }
    ensures due { due.new.items ≡ due.old.items
        ++ map (ends_with ChanCode.Cancelled) (filter (has_deadline wait) queue.old.items) }
    ensures count { deque_len due.new + deque_len queue.new
        ≡ deque_len due.old + deque_len queue.old }
    ensures capacity { deque_capacity queue.new ≡ deque_capacity queue.old }
    ensures due_capacity { deque_capacity due.new ≡ deque_capacity due.old }
{
    for at in 0..queue.len() {
        let pending = queue[at];
        if has_deadline(&pending, wait) {
            due.push_back_reserved(ended(pending.op, ChanCode::Cancelled));
        }
    }
    queue.retain(|pending| !has_deadline(pending, wait));
}
