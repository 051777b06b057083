ghost use Rattle.std.specs.Prelude.{◌≡◌, ◌<◌, ◌≤◌, [], ◌∷◌, false, length, true, IfNone, IfOk, IfSome};
ghost use Rattle.chan_core.specs.Channel.{cancelled, closed, is_pending, lapsed, new_channel, received, refilled, sent, spare_in};
ghost use Rattle.chan_core.specs.Done.{got};

use crate::done::{ChanCode, ChanDone, ChanOp};
use crate::pending::{PendingOp, end_all, end_expired, ended, has_number};
use asio_types::{NoMemory, OpNo};
use std::alloc::Global;
use std::collections::VecDeque;
use std::marker::Model;

/// A bounded channel (Asio reference, `experimental::basic_channel`), in memory that is reserved
/// once. What completes is listed, and told by `next_due`. No call but `make` takes memory; `send`,
/// `receive` and `next_due` take constant time.
#[derive(Drop)]
pub struct ChanCore {
    capacity: u32,
    room: u32,
    buffer: VecDeque<u64>,
    sends: VecDeque<PendingOp<u64>>,
    receives: VecDeque<PendingOp<()>>,
    closed: bool,
    due: VecDeque<ChanDone>,
}

impl Model for ChanCore {
    ghost use Rattle.std.specs.Prelude.{◌≡◌};
    ghost use Rattle.std.specs.VecDeque.{deque_capacity};
    ghost use Rattle.chan_core.specs.Channel.{Channel, IsChannel};

    ghost Value = { Channel };

    ghost view = { λ c. record {
      capacity = c.capacity;
      room = c.room;
      buffer = c.buffer.items;
      sends = c.sends.items;
      receives = c.receives.items;
      closed = c.closed;
      due = c.due.items;
    } };

    ghost invariant = { λ c.
        (deque_capacity c.buffer ≡ c.capacity)
        × (deque_capacity c.sends ≡ c.room)
        × (deque_capacity c.receives ≡ c.room)
        × (deque_capacity c.due ≡ c.room)
        × IsChannel (record {
          capacity = c.capacity;
          room = c.room;
          buffer = c.buffer.items;
          sends = c.sends.items;
          receives = c.receives.items;
          closed = c.closed;
          due = c.due.items;
        }) };
}

impl ChanCore {
    /// An open channel with nothing in it, whose buffer holds `capacity` values, up to 4,096, and
    /// in which `room` operations may be pending, from 1 to 4,096. Takes all memory that the
    /// channel needs; `NoMemory` where it is refused.
    pub fn make(alloc: Global, capacity: u32, room: u32) -> Result<ChanCore, NoMemory>
        requires capacity { capacity ≤ 4096 }
        requires room { 1 ≤ room }
        requires most { room ≤ 4096 }
        ensures { IfOk result (λ made. made ≡ new_channel capacity room) }
    {
        let buffer = VecDeque::with_capacity(alloc, capacity as usize)?;
        let sends = VecDeque::with_capacity(alloc, room as usize)?;
        let receives = VecDeque::with_capacity(alloc, room as usize)?;
        let due = VecDeque::with_capacity(alloc, room as usize)?;
        Ok(ChanCore {
            capacity,
            room,
            buffer,
            sends,
            receives,
            closed: false,
            due,
        })
    }

    /// Sends a value (`async_send`): it goes to the first pending receive, else into the buffer if
    /// that isn't full, else the send is pending. A closed channel refuses it. Where the wait that
    /// is its deadline completes first, the send is cancelled.
    pub fn send(&mut self, op: ChanOp, value: u64, deadline: Option<OpNo>)
        requires told { self.old.due ≡ [] }
        requires room { 1 ≤ spare_in self.old }
        requires free { is_pending op self.old ≡ false }
        ensures { self.new ≡ sent op value deadline self.old }
    {
        if self.closed {
            self.due.push_back_reserved(ended(op, ChanCode::Closed));
            return;
        }
        if let Some(first) = self.receives.pop_front() {
            self.due.push_back_reserved(ended(op, ChanCode::Ok));
            self.due.push_back_reserved(got(first.op, value));
            return;
        }
        if self.buffer.len() < self.capacity as usize {
            self.buffer.push_back_reserved(value);
            self.due.push_back_reserved(ended(op, ChanCode::Ok));
            return;
        }
        self.sends.push_back_reserved(PendingOp {
            op,
            deadline,
            value,
        });
    }

    /// Receives a value (`async_receive`): the first of the buffer, and then the first pending send
    /// has its place there; else that of the first pending send. Where there is none, a closed
    /// channel refuses it, and else it is pending. Where the wait that is its deadline completes
    /// first, the receive is cancelled.
    pub fn receive(&mut self, op: ChanOp, deadline: Option<OpNo>)
        requires told { self.old.due ≡ [] }
        requires room { 1 ≤ spare_in self.old }
        requires free { is_pending op self.old ≡ false }
        ensures { self.new ≡ received op deadline self.old }
    {
        if let Some(value) = self.buffer.pop_front() {
            self.due.push_back_reserved(got(op, value));
            self.refill();
            return;
        }
        if let Some(first) = self.sends.pop_front() {
            self.due.push_back_reserved(ended(first.op, ChanCode::Ok));
            self.due.push_back_reserved(got(op, first.value));
            return;
        }
        if self.closed {
            self.due.push_back_reserved(ended(op, ChanCode::Closed));
            return;
        }
        self.receives.push_back_reserved(PendingOp {
            op,
            deadline,
            value: (),
        });
    }

    /// The first pending send, if there is one, goes into the buffer.
    fn refill(&mut self)
        requires { length self.old.buffer < self.old.capacity }
        ensures { self.new ≡ refilled self.old.sends self.old }
    {
        if let Some(first) = self.sends.pop_front() {
            self.buffer.push_back_reserved(first.value);
            self.due.push_back_reserved(ended(first.op, ChanCode::Ok));
        }
    }

    /// Takes the completion out that is told next; `None` exactly where none is due.
    pub fn next_due(&mut self) -> Option<ChanDone>
        ensures first { IfSome result (λ done. self.old.due ≡ done ∷ self.new.due) }
        ensures others { self.new ≡ record self.old { due = self.new.due } }
        ensures none { IfNone result (self.old.due ≡ []) }
        ensures unchanged { IfNone result (self.new ≡ self.old) }
    {
        self.due.pop_front()
    }

    /// Closes the channel (`close`): the pending sends are refused, and then the pending receives.
    /// What is buffered can still be received. Takes time in proportion to the pending operations.
    pub fn close(&mut self)
        requires { self.old.due ≡ [] }
        ensures closed { self.new ≡ closed self.old }
        ensures again { self.old.closed ≡ true → self.new ≡ self.old }
    {
        end_all(&mut self.sends, ChanCode::Closed, &mut self.due);
        end_all(&mut self.receives, ChanCode::Closed, &mut self.due);
        self.closed = true;
    }

    /// Cancels the pending sends, and then the pending receives (`cancel`). Takes time in
    /// proportion to them.
    pub fn cancel(&mut self)
        requires { self.old.due ≡ [] }
        ensures { self.new ≡ cancelled self.old }
    {
        end_all(&mut self.sends, ChanCode::Cancelled, &mut self.due);
        end_all(&mut self.receives, ChanCode::Cancelled, &mut self.due);
    }

    /// The wait of a timer has completed: the pending sends whose deadline it is are cancelled, and
    /// then such receives. Takes time in proportion to the pending operations.
    pub fn lapse(&mut self, wait: OpNo)
        requires { self.old.due ≡ [] }
        ensures { self.new ≡ lapsed wait self.old }
    {
        end_expired(&mut self.sends, wait, &mut self.due);
        end_expired(&mut self.receives, wait, &mut self.due);
    }

    /// Whether an operation of this number is pending. Takes time in proportion to those that are.
    pub fn is_pending(&self, op: ChanOp) -> bool
        ensures { result ≡ is_pending op self.now }
    {
        has_number(&self.sends, op) || has_number(&self.receives, op)
    }

    /// How many more operations may be pending.
    pub fn spare(&self) -> u32
        ensures { result ≡ spare_in self.now }
    {
        self.room - (self.sends.len() + self.receives.len()) as u32
    }

    /// Whether the channel is closed.
    pub fn is_closed(&self) -> bool
        ensures { result ≡ self.now.closed }
    {
        self.closed
    }
}

/// A receive that gets a value.
fn got(op: ChanOp, value: u64) -> ChanDone
    ensures { result ≡ got op value }
{
    ChanDone {
        op,
        code: ChanCode::Ok,
        value: Some(value),
    }
}
