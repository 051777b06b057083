ghost use Rattle.std.specs.Prelude.{◌≡◌, ◌↔◌, ℕ, ◌+◌, ◌^◌, ◌<◌, ◌≤◌, [], ◌∷◌, ◌++◌, All, IfNone, IfSome, IsNone, IsTrue, map};
ghost use Rattle.std.specs.Vec.{vec_len, vec_capacity};
ghost use Rattle.std.specs.VecDeque.{deque_len, deque_capacity};
ghost use Rattle.stream_rules.specs.Asked.{reading_view, writing_view, IsCountable};
ghost use Rattle.stream_rules.specs.Pipes.{pipe_stream};
ghost use Rattle.stream_rules.specs.Queue.{asked, reading_side, served_queue, writing_side};
ghost use Rattle.stream_rules.specs.Serving.{Reading as reading, Writing as writing};

use crate::pipe::Pipe;
use crate::serving::{Reading, Served, Writing};
use asio_types::{Code, OpNo};
use std::collections::VecDeque;

/// An operation in the queue of one side of a stream.
#[derive(Clone, Copy, Debug, PartialEq, Eq)]
pub struct Queued {
    /// Its number.
    pub op: OpNo,
    /// Its place in the order of acceptance.
    pub accepted: u32,
    /// The bytes that it moved so far.
    pub moved: u32,
}

/// An operation that completed.
#[derive(Clone, Copy, Debug, PartialEq, Eq)]
pub struct Completion {
    /// Its number.
    pub op: OpNo,
    /// Its code, and its size in bytes.
    pub outcome: (Code, u32),
}

/// What operations ask for, by their numbers.
pub trait Asks {
    /// An operation that reads.
    ghost IsReading: { Self → ℕ → Type 0 };

    /// An operation that writes.
    ghost IsWriting: { Self → ℕ → Type 0 };

    /// What an operation that reads asks for.
    ghost reads: { Self → ℕ → reading };

    /// What an operation that writes has to write.
    ghost writes: { Self → ℕ → writing };

    /// What an operation that reads asks for.
    fn reading(&self, op: OpNo) -> Reading<'_>
        requires { IsReading self.now op }
        ensures { reading_view result ≡ reads self.now op };

    /// What an operation that writes has to write.
    fn writing(&self, op: OpNo) -> Writing<'_>
        requires { IsWriting self.now op }
        ensures bytes { writing_view result ≡ writes self.now op }
        ensures countable { IsCountable (writing_view result) };
}

/// Puts a head that was served back where it stays, and else lists it. Answers whether it stays.
fn stays(
    head: Queued,
    served: Served,
    queue: &mut VecDeque<Queued>,
    completed: &mut Vec<Completion>,
) -> bool
    requires countable { IsNone served.outcome → head.moved + served.used < 2 ^ 32 }
    requires queue_room { deque_len queue.old < deque_capacity queue.old }
    requires list_room { vec_len completed.old < vec_capacity completed.old }
    ensures stays { IsTrue result ↔ IsNone served.outcome }
    ensures put_back { IfNone served.outcome
        (queue.new.items ≡ record head { moved = head.moved + served.used } ∷ queue.old.items) }
    ensures unlisted { IfNone served.outcome (completed.new.items ≡ completed.old.items) }
    ensures listed { IfSome served.outcome (λ outcome.
        completed.new.items
        ≡ completed.old.items ++ record { op = head.op; outcome = outcome } ∷ []) }
    ensures gone { IfSome served.outcome (λ outcome. queue.new.items ≡ queue.old.items) }
    ensures count { IfSome served.outcome (λ outcome. deque_len queue.new ≡ deque_len queue.old) }
    ensures lengths { vec_len completed.new + deque_len queue.new
        ≡ vec_len completed.old + deque_len queue.old + 1 }
    ensures kept_queue_room { deque_capacity queue.new ≡ deque_capacity queue.old }
    ensures kept_list_room { vec_capacity completed.new ≡ vec_capacity completed.old }
{
    match served.outcome {
        None => {
            let moved = head.moved + served.used;
            queue.push_front_reserved(Queued { moved, ..head });
            true
        }
        Some(outcome) => {
            completed.push_reserved(Completion {
                op: head.op,
                outcome,
            });
            false
        }
    }
}

/// Serves the reads of a stream from the head, as long as the head completes, and lists what
/// completed. A head that stays keeps what it consumed. Takes no memory.
pub fn serve_reads<A: Asks>(
    asks: &A,
    queue: &mut VecDeque<Queued>,
    pipe: &mut Pipe,
    completed: &mut Vec<Completion>,
)
    requires reads { All (λ queued. A.IsReading asks.now queued.op) queue.old.items }
    requires room { vec_len completed.old + deque_len queue.old ≤ vec_capacity completed.old }
    ensures completed { completed.new.items
        ≡ completed.old.items
        ++ (served_queue reading_side (map (asked (A.reads asks.now)) queue.old.items)
        (pipe_stream pipe.old)).completed }
    ensures staying { map (asked (A.reads asks.now)) queue.new.items
        ≡ (served_queue reading_side (map (asked (A.reads asks.now)) queue.old.items)
        (pipe_stream pipe.old)).staying }
    ensures stream { pipe_stream pipe.new
        ≡ (served_queue reading_side (map (asked (A.reads asks.now)) queue.old.items)
        (pipe_stream pipe.old)).stream }
    ensures reads { All (λ queued. A.IsReading asks.now queued.op) queue.new.items }
    ensures each_once { vec_len completed.new + deque_len queue.new
        ≡ vec_len completed.old + deque_len queue.old }
    ensures bytes_left { pipe.new.inbound.left ≡ pipe.old.inbound.left }
    ensures room_left { pipe.new.outbound.left ≡ pipe.old.outbound.left }
    ensures list_room { vec_capacity completed.new ≡ vec_capacity completed.old }
    ensures queue_room { deque_capacity queue.new ≡ deque_capacity queue.old }
{
    while let Some(head) = queue.pop_front() {
        let served = pipe.serve_read(asks.reading(head.op), head.moved);
        if stays(head, served, queue, completed) {
            return;
        }
    }
}

/// Serves the writes of a stream, as `serve_reads` its reads.
pub fn serve_writes<A: Asks>(
    asks: &A,
    queue: &mut VecDeque<Queued>,
    pipe: &mut Pipe,
    completed: &mut Vec<Completion>,
)
    requires writes { All (λ queued. A.IsWriting asks.now queued.op) queue.old.items }
    requires room { vec_len completed.old + deque_len queue.old ≤ vec_capacity completed.old }
    ensures completed { completed.new.items
        ≡ completed.old.items
        ++ (served_queue writing_side (map (asked (A.writes asks.now)) queue.old.items)
        (pipe_stream pipe.old)).completed }
    ensures staying { map (asked (A.writes asks.now)) queue.new.items
        ≡ (served_queue writing_side (map (asked (A.writes asks.now)) queue.old.items)
        (pipe_stream pipe.old)).staying }
    ensures stream { pipe_stream pipe.new
        ≡ (served_queue writing_side (map (asked (A.writes asks.now)) queue.old.items)
        (pipe_stream pipe.old)).stream }
    ensures writes { All (λ queued. A.IsWriting asks.now queued.op) queue.new.items }
    ensures each_once { vec_len completed.new + deque_len queue.new
        ≡ vec_len completed.old + deque_len queue.old }
    ensures bytes_left { pipe.new.inbound.left ≡ pipe.old.inbound.left }
    ensures room_left { pipe.new.outbound.left ≡ pipe.old.outbound.left }
    ensures list_room { vec_capacity completed.new ≡ vec_capacity completed.old }
    ensures queue_room { deque_capacity queue.new ≡ deque_capacity queue.old }
{
    while let Some(head) = queue.pop_front() {
        let served = pipe.serve_write(asks.writing(head.op), head.moved);
        if stays(head, served, queue, completed) {
            return;
        }
    }
}
