ghost use Rattle.std.specs.Prelude.{◌≡◌, ◌+◌, ◌≤◌, ◌<◌, ◌++◌, ℕ, IfNone, IfSome, [], filter, map, not};
ghost use Rattle.std.specs.Vec.{vec_capacity, vec_len};
ghost use Rattle.std.specs.VecDeque.{deque_capacity, deque_len};
ghost use Rattle.stream_rules.specs.Queue.{asked};
ghost use Rattle.stream_rules.specs.Serving.{Reading as reading, Writing as writing};
ghost use Rattle.history_rules.specs.Performing.{all_of_stream};
ghost use Rattle.history_book.specs.Queues.{abort_of, aborts_of, is_queued, reads_go_first, IsFirstOf};

use asio_types::{Code, OpNo};
use std::collections::VecDeque;
use stream_rules::{Completion, Queued};

/// An operation that was cancelled, which reports the bytes that it moved so far.
fn abort_of(queued: &Queued) -> Completion
    ensures { result ≡ abort_of queued.now }
{
    Completion {
        op: queued.op,
        outcome: (Code::Aborted, queued.moved),
    }
}

/// Lists an operation where it is in the queue.
fn list_abort(op: OpNo, queue: &VecDeque<Queued>, due: &mut Vec<Completion>)
    requires { vec_len due.old + deque_len queue.now ≤ vec_capacity due.old }
    ensures due { due.new.items ≡ due.old.items ++ aborts_of (is_queued op) queue.now.items }
    ensures room { vec_capacity due.new ≡ vec_capacity due.old }
{
    for queued in queue.iter() {
        if queued.op == op {
            due.push_reserved(abort_of(queued));
        }
    }
}

/// An operation of a queue is cancelled.
pub(crate) fn abort_in(op: OpNo, queue: &mut VecDeque<Queued>, due: &mut Vec<Completion>)
    requires { vec_len due.old + deque_len queue.old ≤ vec_capacity due.old }
    ensures queue { queue.new.items ≡ filter (λ queued. not (is_queued op queued)) queue.old.items }
    ensures due { due.new.items ≡ due.old.items ++ aborts_of (is_queued op) queue.old.items }
    ensures queue_room { deque_capacity queue.new ≡ deque_capacity queue.old }
    ensures due_room { vec_capacity due.new ≡ vec_capacity due.old }
{
    list_abort(op, queue, due);
    queue.retain(|queued| queued.op != op);
}

/// Whether the operation that was accepted first is a read.
fn reads_go_first(reads: &VecDeque<Queued>, writes: &VecDeque<Queued>) -> bool
    ensures { result ≡ reads_go_first reads.now.items writes.now.items }
{
    match (reads.front(), writes.front()) {
        (Some(read), Some(write)) => read.accepted < write.accepted,
        (Some(_), None) => true,
        (None, _) => false,
    }
}

/// Takes the operation that was accepted first out of its queue.
fn pop_first(reads: &mut VecDeque<Queued>, writes: &mut VecDeque<Queued>) -> Option<Queued>
    ensures none { IfNone result ((reads.old.items ≡ []) × (writes.old.items ≡ [])) }
    ensures none_left { IfNone result ((reads.new.items ≡ []) × (writes.new.items ≡ [])) }
    ensures first { IfSome result (λ first.
        IsFirstOf first reads.old.items writes.old.items reads.new.items writes.new.items) }
    ensures count { IfSome result (λ _.
        deque_len reads.new + deque_len writes.new + 1
        ≡ deque_len reads.old + deque_len writes.old) }
    ensures reads_room { deque_capacity reads.new ≡ deque_capacity reads.old }
    ensures writes_room { deque_capacity writes.new ≡ deque_capacity writes.old }
{
    if reads_go_first(reads, writes) {
        reads.pop_front()
    } else {
        writes.pop_front()
    }
}

/// All operations of a stream are cancelled, in order of acceptance.
pub(crate) fn abort_all(
    reads: &mut VecDeque<Queued>,
    writes: &mut VecDeque<Queued>,
    due: &mut Vec<Completion>,
)
    requires { vec_len due.old + deque_len reads.old + deque_len writes.old ≤ vec_capacity due.old }
    ensures due { (f : ℕ → reading) (g : ℕ → writing) →
        due.new.items
        ≡ due.old.items
        ++ all_of_stream (map (asked f) reads.old.items) (map (asked g) writes.old.items) }
    ensures reads { reads.new.items ≡ [] }
    ensures writes { writes.new.items ≡ [] }
    ensures reads_room { deque_capacity reads.new ≡ deque_capacity reads.old }
    ensures writes_room { deque_capacity writes.new ≡ deque_capacity writes.old }
    ensures due_room { vec_capacity due.new ≡ vec_capacity due.old }
{
    while let Some(first) = pop_first(reads, writes) {
        due.push_reserved(abort_of(&first));
    }
}
