ghost use Rattle.std.specs.Prelude.{◌≡◌, ◌≢◌, ◌↔◌, ◌<◌, ◌≤◌, ◌*◌, ◌+◌, ◌^◌, ℕ, [], drop, false, not, true, length, IfNone, IfOk, IfSome, IsTrue, None, Some};
ghost use Rattle.std.specs.Borrow.{Lends, sem};
ghost use Rattle.std.specs.Option.{is_some};
ghost use Rattle.io_rules.specs.Cancelling.{is_out_for};
ghost use Rattle.io_rules.specs.Completing.{search_left};
ghost use Rattle.io_rules.specs.Serving.{first_of, is_none_of};
ghost use Rattle.io_rules.specs.State.{stream_at};
ghost use Rattle.io_queues.specs.Ordered.{Each};
ghost use Rattle.io_queues.specs.Queued.{found_in, place_first, queue_at};
ghost use Rattle.io_streams.specs.Kept.{IsWhole, earlier_of, first_op, first_untried, queue_number, untried_at};
ghost use Rattle.io_streams.specs.Pending.{Entry, IsHead, IsIdle, IsOnly, back_in, connected, first_in, forgotten, item_of, no_streams, number_of, numbered_in, opened, out_for, untried_on, with_item, with_op, without_op};

use crate::first::First;
use crate::pending::PendingOp;
use crate::stream::Stream;
use asio_types::NoMemory;
use io_queues::Queues;
use io_rules::{Name, Side};
use std::alloc::Global;
use std::marker::Model;

/// Streams and listeners by their places, and the operations that are pending on their sides (Asio
/// reference, `basic_stream_socket`, `basic_socket_acceptor`). Contracts see the streams as the rules have
/// them, the operations of all of them in order of acceptance, and for how many more there is room.
pub struct Streams<T> {
    // by place
    streams: Vec<Stream>,
    // three for each stream, by its sides, each in order of acceptance
    queues: Queues<PendingOp<T>>,
    // the queue in which `take_any` looks first
    next: u32,
}

impl<T> Model for Streams<T> {
    ghost use Rattle.io_queues.specs.Ordered.{in_order};
    ghost use Rattle.io_streams.specs.Kept.{IsStreams, states_of};
    ghost use Rattle.io_streams.specs.Pending.{StreamList, op_of};

    ghost Value = { StreamList T };

    ghost view = { λ s. record {
      streams = states_of s.streams.items s.queues.queues;
      ops = in_order op_of s.queues.queues;
      room = s.queues.room;
    } };

    ghost invariant = { λ s. IsStreams s.streams.items s.queues.queues };
}

impl<T> Streams<T> {
    ghost use Rattle.io_streams.specs.contracts.streams.Streams.{the_row};

    /// So many places for streams, where none is, and room for so many operations. Takes memory for all of
    /// them, and nothing takes memory later; `NoMemory` where it is refused.
    pub fn make(alloc: Global, streams: u32, room: u32) -> Result<Streams<T>, NoMemory>
        ensures { IfOk result (λ made. made ≡ no_streams streams room) }
    {
        let Some(queues) = streams.checked_mul(3) else {
            return Err(NoMemory);
        };
        let stream = Stream {
            listener: false,
            linked: false,
            held: 0,
            searched: 0,
            out: None,
            reserved: None,
        };
        let streams = vec![in alloc; stream; streams as usize]?;
        let queues = Queues::make(alloc, queues, room)?;
        Ok(Streams {
            streams,
            queues,
            next: 0,
        })
    }

    /// Gives its memory back. No operation is pending.
    pub fn destroy(self)
        requires { self.ops ≡ [] }
    {
        let Streams {
            streams: _,
            queues,
            next: _,
        } = self;
        queues.destroy();
    }

    /// What holds of all streams at every time. Runs nothing.
    pub fn holds(&self)
        ensures { IsWhole self.now }
    {
        let _streams = &self.streams;
    }

    /// A stream (`basic_stream_socket`), connected or not, or a listener (`basic_socket_acceptor`) is at this
    /// place now, on which nothing is pending.
    pub fn open(&mut self, name: Name, listener: bool, linked: bool)
        requires within { name.place < length self.old.streams }
        requires idle { IsIdle (stream_at self.old.streams name) }
        ensures { self.new ≡ opened name listener linked self.old }
    {
        self.streams[name.place as usize] = Stream {
            listener,
            linked,
            held: 0,
            searched: 0,
            out: None,
            reserved: None,
        };
    }

    /// A stream or listener is gone (`basic_socket::close`), on which nothing is pending.
    pub fn forget(&mut self, name: Name)
        requires within { name.place < length self.old.streams }
        requires idle { IsIdle (stream_at self.old.streams name) }
        ensures { self.new ≡ forgotten name self.old }
    {
        self.open(name, false, false);
    }

    /// Whether it accepts connections.
    pub fn is_listener(&self, name: Name) -> bool
        requires { name.place < length self.now.streams }
        ensures { result ≡ (stream_at self.now.streams name).listener }
    {
        self.streams[name.place as usize].listener
    }

    /// Whether it is connected.
    pub fn is_linked(&self, name: Name) -> bool
        requires { name.place < length self.now.streams }
        ensures { result ≡ (stream_at self.now.streams name).linked }
    {
        self.streams[name.place as usize].linked
    }

    /// For which side its socket is in a system call, if for one.
    pub fn out(&self, name: Name) -> Option<Side>
        requires { name.place < length self.now.streams }
        ensures { result ≡ (stream_at self.now.streams name).out }
    {
        self.streams[name.place as usize].out
    }

    /// The name that is kept for what an accept makes, while its system call is under way.
    pub fn reserved(&self, name: Name) -> Option<Name>
        requires { name.place < length self.now.streams }
        ensures { result ≡ (stream_at self.now.streams name).reserved }
    {
        self.streams[name.place as usize].reserved
    }

    /// Whether a connect is pending (`basic_stream_socket::async_connect`), for which reads and writes wait.
    pub fn is_connecting(&self, name: Name) -> bool
        requires { name.place < length self.now.streams }
        ensures { result ≡ not (is_none_of (stream_at self.now.streams name).connects) }
    {
        self.queues.first(queue_of(name, Side::Connect)).is_some()
    }

    /// Its socket goes into a system call for the first operation of this side; for an accept a name is kept
    /// for what it makes.
    pub fn set_out(&mut self, name: Name, side: Side, reserved: Option<Name>)
        requires { name.place < length self.old.streams }
        ensures { self.new ≡ out_for name side reserved self.old }
    {
        let stream = &mut self.streams[name.place as usize];
        stream.out = Some(side);
        stream.reserved = reserved;
    }

    /// Its socket is back from the system call.
    pub fn set_back(&mut self, name: Name)
        requires { name.place < length self.old.streams }
        ensures { self.new ≡ back_in name self.old }
    {
        let stream = &mut self.streams[name.place as usize];
        stream.out = None;
        stream.reserved = None;
    }

    /// It is connected now.
    pub fn set_linked(&mut self, name: Name)
        requires { name.place < length self.old.streams }
        ensures { self.new ≡ connected name self.old }
    {
        self.streams[name.place as usize].linked = true;
    }

    /// Accepts an operation on a side of a stream, whose number is above those of all that are pending: it
    /// goes last on its side. Answers the place by which it can be found.
    pub fn accept(&mut self, op: u64, name: Name, side: Side, item: T) -> u32
        requires within { name.place < length self.old.streams }
        requires room { 0 < self.old.room }
        requires last { Each (λ (other : Entry (PendingOp T)). number_of other < op) self.old.ops }
        ensures free { found_in result self.old.ops ≡ None }
        ensures accepted { self.new ≡ with_op (record {
          place = result;
          item = record { op = op; stream = name; side = side; item = item };
        }) self.old }
    {
        let pending = PendingOp {
            op,
            stream: name,
            side,
            item,
        };
        self.queues.push_back(queue_of(name, side), pending)
    }

    /// The place of the first operation of a side, which alone may have a system call; `None` exactly where
    /// none is pending there.
    pub fn first(&self, name: Name, side: Side) -> Option<u32>
        requires { name.place < length self.now.streams }
        ensures there { IfSome result (λ place. is_some (found_in place self.now.ops) ≡ true) }
        ensures head { IfSome result (λ place. (op : PendingOp T) →
            found_in place self.now.ops ≡ Some op → IsHead name side self.now op) }
        ensures none { IfNone result (first_of side (stream_at self.now.streams name) ≡ None) }
    {
        self.queues.first(queue_of(name, side))
    }

    /// The operation at this place.
    pub fn get(&self, place: u32) -> &PendingOp<T>
        requires { is_some (found_in place self.now.ops) ≡ true }
        ensures { found_in place self.now.ops ≡ Some result.now }
    {
        self.queues.get(place)
    }

    /// What goes with the operation at this place, to be changed where it lies.
    pub fn item_mut(&mut self, place: u32) -> &mut T
        requires { is_some (found_in place self.old.ops) ≡ true }
        ensures* writes_back { sem 𝓛
            (Lends (the_row T.row) T.row self.entry result (λ item. with_item place item self.old)) }
        ensures value { item_of (found_in place self.old.ops) ≡ Some result.now }
    {
        let pending = self.queues.get_mut(place);
        &mut pending.item
    }

    /// Takes the operation at this place out, as where it completes, or where a cancellation reaches it by
    /// its slot (`cancellation_signal::emit`).
    pub fn take(&mut self, place: u32) -> PendingOp<T>
        requires { is_some (found_in place self.old.ops) ≡ true }
        ensures found { found_in place self.old.ops ≡ Some result }
        ensures numbered { numbered_in result.op self.old.ops ≡ Some result }
        ensures taken { self.new ≡ without_op result self.old }
    {
        let searched = self.searched_behind(place);
        let pending = self.queues.remove(place);
        self.streams[pending.stream.place as usize].searched = searched;
        pending
    }

    /// Takes the first operation of a side out, as where it completes; `None` exactly where none is pending
    /// there.
    pub fn take_first(&mut self, name: Name, side: Side) -> Option<PendingOp<T>>
        requires { name.place < length self.old.streams }
        ensures head { IfSome result (λ op. IsHead name side self.old op) }
        ensures taken { IfSome result (λ op. self.new ≡ without_op op self.old) }
        ensures none { IfNone result (first_of side (stream_at self.old.streams name) ≡ None) }
        ensures same { IfNone result (self.new ≡ self.old) }
    {
        match self.first(name, side) {
            Some(place) => Some(self.take(place)),
            None => None,
        }
    }

    /// Takes the first accepted operation of a stream out whose system call isn't under way
    /// (`basic_socket::cancel`, again for each further one); `None` exactly where there is none. Takes constant
    /// time.
    pub fn cancel_first(&mut self, name: Name) -> Option<PendingOp<T>>
        requires within { name.place < length self.old.streams }
        requires only { IsOnly name self.old.ops }
        ensures first { first_in (untried_on name self.old) ≡ result }
        ensures numbered { IfSome result (λ op. numbered_in op.op self.old.ops ≡ Some op) }
        ensures taken { IfSome result (λ op. self.new ≡ without_op op self.old) }
        ensures same { IfNone result (self.new ≡ self.old) }
    {
        match self.untried(name) {
            Some(place) => Some(self.take(place)),
            None => None,
        }
    }

    /// Takes an operation of any stream out, as where the context is destroyed; `None` exactly where none is
    /// pending. To take all of them out takes time linear in their number and that of the streams.
    pub fn take_any(&mut self) -> Option<PendingOp<T>>
        ensures numbered { IfSome result (λ op. numbered_in op.op self.old.ops ≡ Some op) }
        ensures taken { IfSome result (λ op. self.new ≡ without_op op self.old) }
        ensures none { IfNone result (self.old.ops ≡ []) }
        ensures same { IfNone result (self.new ≡ self.old) }
    {
        match self.any() {
            Some(place) => Some(self.take(place)),
            None => None,
        }
    }

    /// The place of any operation.
    fn any(&mut self) -> Option<u32>
        ensures there { IfSome result (λ place. is_some (found_in place self.old.ops) ≡ true) }
        ensures none { IfNone result (self.old.ops ≡ []) }
        ensures same { self.new ≡ self.old }
    {
        let count = self.streams.len() as u32 * 3;
        let queue = match busy_queue(&self.queues, self.next, count) {
            Some(queue) => queue,
            None => busy_queue(&self.queues, 0, count)?,
        };
        self.next = queue;
        self.queues.first(queue)
    }

    /// In how many bytes of a stream the next read needs no search, once the operation at this place has left.
    fn searched_behind(&self, place: u32) -> u64
        requires { is_some (found_in place self.now.ops) ≡ true }
        ensures { (op : PendingOp T) → found_in place self.now.ops ≡ Some op →
            result ≡ (search_left op.side op.op (stream_at self.now.streams op.stream)).searched }
    {
        let pending = self.get(place);
        let searched = self.streams[pending.stream.place as usize].searched;
        match pending.side {
            Side::Read => match self.first(pending.stream, Side::Read) {
                Some(first) => if self.get(first).op == pending.op {
                    0
                } else {
                    searched
                },
                None => searched,
            },
            Side::Write => searched,
            Side::Connect => searched,
        }
    }

    /// The place of the first accepted operation of a stream whose system call isn't under way.
    fn untried(&self, name: Name) -> Option<u32>
        requires within { name.place < length self.now.streams }
        requires only { IsOnly name self.now.ops }
        ensures there { IfSome result (λ place. is_some (found_in place self.now.ops) ≡ true) }
        ensures first { IfSome result (λ place. (op : PendingOp T) →
            found_in place self.now.ops ≡ Some op → first_in (untried_on name self.now) ≡ Some op) }
        ensures none { IfNone result (first_in (untried_on name self.now) ≡ None) }
    {
        let _streams = &self.streams;
        match self.first_untried(name) {
            Some(first) => Some(first.place),
            None => None,
        }
    }

    /// The first accepted operation of a stream whose system call isn't under way.
    fn first_untried(&self, name: Name) -> Option<First>
        requires { name.place < length self.now.streams }
        ensures { result ≡ first_untried name self.now }
    {
        let read = self.first_untried_of(name, Side::Read);
        let write = self.first_untried_of(name, Side::Write);
        let connect = self.first_untried_of(name, Side::Connect);
        earlier(earlier(read, write), connect)
    }

    /// The first of a side.
    fn first_untried_of(&self, name: Name, side: Side) -> Option<First>
        requires { name.place < length self.now.streams }
        ensures { result ≡ first_op (untried_at name side self.now) }
    {
        match self.untried_place(name, side) {
            Some(place) => {
                let op = self.queues.get(place).op;
                Some(First { op, place })
            }
            None => None,
        }
    }

    /// Its place.
    fn untried_place(&self, name: Name, side: Side) -> Option<u32>
        requires { name.place < length self.now.streams }
        ensures { result ≡ place_first (untried_at name side self.now) }
    {
        let out = self.streams[name.place as usize].out;
        let queue = queue_of(name, side);
        if is_out_for(side, out) {
            self.queues.second(queue)
        } else {
            self.queues.first(queue)
        }
    }
}

/// A queue with an operation, from this one on.
fn busy_queue<T>(queues: &Queues<PendingOp<T>>, from: u32, count: u32) -> Option<u32>
    requires { count ≡ length queues.now.queues }
    ensures within { IfSome result (λ queue. queue < count) }
    ensures busy { IfSome result (λ queue. queue_at queues.now queue ≢ []) }
    ensures none { IfNone result ((k : ℕ) → from ≤ k → queue_at queues.now k ≡ []) }
{
    for queue in from..count {
        if !queues.is_empty(queue) {
            return Some(queue);
        }
    }
    None
}

/// The one of two that was accepted earlier.
fn earlier(one: Option<First>, other: Option<First>) -> Option<First>
    ensures { result ≡ earlier_of one other }
{
    match (one, other) {
        (None, other) => other,
        (one, None) => one,
        (Some(a), Some(b)) => { if b.op < a.op { Some(b) } else { Some(a) } }
    }
}

/// The number of the queue of a side.
fn queue_of(name: Name, side: Side) -> u32
    requires { name.place * 3 + 3 ≤ 2 ^ 32 }
    ensures { result ≡ queue_number name.place side }
{
    let first = name.place * 3;
    match side {
        Side::Read => first,
        Side::Write => first + 1,
        Side::Connect => first + 2,
    }
}

/// Whether a socket is in a system call for this side.
fn is_out_for(side: Side, out: Option<Side>) -> bool
    ensures { result ≡ is_out_for side out }
{
    match (side, out) {
        (Side::Read, Some(Side::Read)) => true,
        (Side::Write, Some(Side::Write)) => true,
        (Side::Connect, Some(Side::Connect)) => true,
        _ => false,
    }
}
