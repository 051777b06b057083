ghost use Rattle.std.specs.Prelude.{◌≡◌, ◌+◌, ◌<◌, ◌^◌, Some, None, find, length, slice_index_or, slice_set};
ghost use Rattle.session_script.specs.Script.{act_of};
ghost use Rattle.history_book.specs.Asking.{IsReading, IsWriting, asked_reading, asked_writing};
ghost use Rattle.history_rules.specs.Kinds.{filter_of, supported_by};
ghost use Rattle.history_rules.specs.Performing.{bad, closed_at, queues_at, shut_at, connected, emitted, emitted_to, expiry_set, guard_released, is_reached, is_wait_for, is_wait_of, one_of_stream_cancelled, one_wait_cancelled, operation_cancelled, performed_by, read_accepted, wait_accepted, waits_cancelled, write_accepted};
ghost use Rattle.history_book.specs.QueueRoom.{HasPlace};
ghost use Rattle.history_rules.specs.Bounds.{stream_asked};
ghost use Rattle.history_rules.specs.Time.{pending_count};

use crate::queues::{abort_all, abort_in};
use crate::reactor_half::ReactorWorks;
use crate::waiting::{Which, complete_waits};
use asio_types::{ActNo, Code, GuardNo, OpNo, SlotNo, StreamNo, TimerNo, Types};
use history_rules::Wait;
use session_script::{Act, acts_fit};
use stream_rules::{Completion, Queued};

/// An operation on a closed stream completes at once.
fn bad(op: OpNo) -> Completion
    ensures { result ≡ bad op }
{
    Completion {
        op,
        outcome: (Code::Bad, 0),
    }
}

/// An operation that has moved nothing.
fn new_queued(op: OpNo, accepted: u32) -> Queued
    ensures { result ≡ record { op = op; accepted = accepted; moved = 0 } }
{
    Queued {
        op,
        accepted,
        moved: 0,
    }
}

/// The first wait of a timer.
fn first_wait(timer: TimerNo, waits: &[Wait]) -> Option<Wait>
    ensures { result ≡ find (is_wait_of timer) waits.now }
{
    waits.iter().copied().find(|wait| wait.timer == timer)
}

/// The cancellation types that an operation supports, as bits.
fn supported_by(act: &Act) -> u8
    ensures { result ≡ supported_by act.now }
{
    match act {
        Act::Wait { .. } | Act::ReadSome { .. } | Act::WriteSome { .. } => 7,
        Act::ReadAll { .. } | Act::Until { .. } | Act::WriteAll { .. } => 3,
        _ => 0,
    }
}

/// The cancellation types that an operation lets through, as bits.
fn filter_of(act: &Act) -> u8
    ensures { result ≡ filter_of act.now }
{
    match act {
        Act::Wait { filter, .. } => filter.bits(),
        Act::ReadSome { filter, .. } => filter.bits(),
        Act::ReadAll { filter, .. } => filter.bits(),
        Act::Until { filter, .. } => filter.bits(),
        Act::WriteSome { filter, .. } => filter.bits(),
        Act::WriteAll { filter, .. } => filter.bits(),
        _ => 0,
    }
}

/// Whether an emit of these types reaches an operation.
fn is_reached(act: &Act, types: Types) -> bool
    ensures { result ≡ is_reached act.now types }
{
    types.bits() & (supported_by(act) & filter_of(act)) != 0
}

impl<'a> ReactorWorks<'a> {
    /// An operation is connected to its slot, and replaces what was there.
    fn connect(&mut self, slot: Option<SlotNo>, op: OpNo)
        ensures { self.new ≡ record self.old { half = connected slot op self.old.half } }
    {
        let Some(slot) = slot else {
            return;
        };
        let Some(connected) = self.slots.get_mut(slot as usize) else {
            return;
        };
        *connected = Some(op);
    }

    /// A wait is pending.
    fn accept_wait(&mut self, op: OpNo, timer: TimerNo)
        requires { pending_count self.old.half < length self.old.script.acts }
        ensures { self.new ≡ record self.old { half = wait_accepted op timer self.old.half } }
    {
        self.waits.push_reserved(Wait { op, timer });
    }

    /// A reading operation is pending, unless its stream is closed.
    fn accept_read(&mut self, op: OpNo, stream: StreamNo)
        requires reads { IsReading self.old.script op }
        requires place { HasPlace self.old.script self.old.half (Some stream) }
        requires room { pending_count self.old.half < length self.old.script.acts }
        ensures { self.new
            ≡ record self.old
            { half = read_accepted op stream (asked_reading self.old.script op) self.old.half } }
    {
        let new = new_queued(op, self.accepted);
        let Some(queues) = self.queues.get_mut(stream as usize) else {
            return;
        };
        if queues.closed {
            self.due.push_reserved(bad(op));
            return;
        }
        queues.reads.push_back_reserved(new);
    }

    /// A writing operation likewise.
    fn accept_write(&mut self, op: OpNo, stream: StreamNo)
        requires writes { IsWriting self.old.script op }
        requires place { HasPlace self.old.script self.old.half (Some stream) }
        requires room { pending_count self.old.half < length self.old.script.acts }
        ensures { self.new
            ≡ record self.old
            { half = write_accepted op stream (asked_writing self.old.script op) self.old.half } }
    {
        let new = new_queued(op, self.accepted);
        let Some(queues) = self.queues.get_mut(stream as usize) else {
            return;
        };
        if queues.closed {
            self.due.push_reserved(bad(op));
            return;
        }
        queues.writes.push_back_reserved(new);
    }

    /// The waits of a timer are cancelled.
    fn cancel(&mut self, timer: TimerNo)
        ensures { self.new
            ≡ record self.old { half = waits_cancelled (is_wait_of timer) self.old.half } }
    {
        let which = Which::OfTimer { timer };
        complete_waits(&which, Code::Aborted, &mut self.waits, &mut self.due);
    }

    /// The wait of an operation is cancelled.
    fn cancel_wait(&mut self, op: OpNo)
        ensures { self.new
            ≡ record self.old { half = waits_cancelled (is_wait_for op) self.old.half } }
    {
        let which = Which::OfOperation { op };
        complete_waits(&which, Code::Aborted, &mut self.waits, &mut self.due);
    }

    /// The wait of a timer that was accepted first is cancelled.
    fn cancel_one(&mut self, timer: TimerNo)
        ensures { self.new
            ≡ record self.old {
              half =
                  one_wait_cancelled (find (is_wait_of timer) self.old.half.waits) self.old.half;
            } }
    {
        let Some(wait) = first_wait(timer, self.waits.as_slice()) else {
            return;
        };
        self.cancel_wait(wait.op);
    }

    fn set_expiry(&mut self, timer: TimerNo, expiry: u64)
        ensures { self.new
            ≡ record self.old {
              half =
                  record self.old.half { expiries = slice_set self.old.half.expiries timer expiry };
            } }
    {
        let Some(old) = self.expiries.get_mut(timer as usize) else {
            return;
        };
        *old = expiry;
    }

    /// A timer gets this expiry, and its waits are cancelled.
    fn expire(&mut self, timer: TimerNo, expiry: u64)
        ensures { self.new ≡ record self.old { half = expiry_set timer expiry self.old.half } }
    {
        self.set_expiry(timer, expiry);
        self.cancel(timer);
    }

    /// One operation of a stream is cancelled, and reports the bytes that it moved so far.
    fn cancel_in_stream(&mut self, op: OpNo, stream: StreamNo)
        ensures { self.new
            ≡ record self.old { half = one_of_stream_cancelled op stream self.old.half } }
    {
        let Some(queues) = self.queues.get_mut(stream as usize) else {
            return;
        };
        abort_in(op, &mut queues.reads, &mut self.due);
        abort_in(op, &mut queues.writes, &mut self.due);
    }

    /// An operation is cancelled, by what its act is.
    fn cancel_operation(&mut self, act: &Act, op: OpNo)
        ensures { self.new
            ≡ record self.old { half = operation_cancelled act.now op self.old.half } }
    {
        match act {
            Act::Wait { .. } => self.cancel_wait(op),
            Act::ReadSome { stream, .. } => self.cancel_in_stream(op, *stream),
            Act::ReadAll { stream, .. } => self.cancel_in_stream(op, *stream),
            Act::Until { stream, .. } => self.cancel_in_stream(op, *stream),
            Act::WriteSome { stream, .. } => self.cancel_in_stream(op, *stream),
            Act::WriteAll { stream, .. } => self.cancel_in_stream(op, *stream),
            _ => {}
        }
    }

    /// An emit of these types meets the operation that its slot is connected to.
    fn emit_to(&mut self, op: OpNo, types: Types)
        ensures { self.new
            ≡ record self.old
            { half = emitted_to (act_of self.old.script op) types op self.old.half } }
    {
        let script = self.script;
        if op >= script.acts() {
            return;
        }
        let act = script.act(op);
        if is_reached(act, types) {
            self.cancel_operation(act, op);
        }
    }

    fn connected_to(&self, slot: SlotNo) -> Option<OpNo>
        ensures { result ≡ slice_index_or self.now.half.slots slot None }
    {
        self.slots.get(slot as usize).copied().unwrap_or(None)
    }

    fn emit(&mut self, slot: SlotNo, types: Types)
        ensures { self.new
            ≡ record self.old {
              half =
                  emitted self.old.script (slice_index_or self.old.half.slots slot None) types
                  self.old.half;
            } }
    {
        let Some(op) = self.connected_to(slot) else {
            return;
        };
        self.emit_to(op, types);
    }

    /// Whether a stream was closed.
    fn is_closed(&self, stream: StreamNo) -> bool
        ensures { result ≡ (queues_at self.now.half stream).closed }
    {
        match self.queues.get(stream as usize) {
            Some(queues) => queues.closed,
            None => false,
        }
    }

    /// A stream is closed; a second close changes nothing.
    fn close(&mut self, stream: StreamNo)
        ensures { self.new ≡ record self.old { half = closed_at stream self.old.half } }
    {
        if !self.is_closed(stream) {
            self.shut(stream);
        }
    }

    /// An open stream is closed: its operations are cancelled, and its bytes there and its room are
    /// dropped.
    fn shut(&mut self, stream: StreamNo)
        ensures { self.new ≡ record self.old { half = shut_at stream self.old.half } }
    {
        self.world.close(stream);
        let Some(queues) = self.queues.get_mut(stream as usize) else {
            return;
        };
        queues.closed = true;
        abort_all(&mut queues.reads, &mut queues.writes, &mut self.due);
    }

    /// A guard holds the context no more.
    fn release(&mut self, guard: GuardNo)
        ensures { self.new ≡ record self.old { half = guard_released guard self.old.half } }
    {
        let Some(held) = self.guards.get_mut(guard as usize) else {
            return;
        };
        *held = false;
    }

    /// Performs the act with this number.
    pub(crate) fn perform(&mut self, a: ActNo)
        requires there { a < length self.old.script.acts }
        requires place { HasPlace self.old.script self.old.half
            (stream_asked (act_of self.old.script a)) }
        requires room { pending_count self.old.half < length self.old.script.acts }
        requires soon { self.old.half.now < 2 ^ 63 }
        ensures { self.new
            ≡ record self.old
            { half = performed_by self.old.script a (act_of self.old.script a) self.old.half } }
    {
        let script = self.script;
        match script.act(a) {
            Act::Wait { timer, slot, .. } => {
                self.accept_wait(a, *timer);
                self.connect(*slot, a);
            }
            Act::ReadSome { stream, slot, .. }
            | Act::ReadAll { stream, slot, .. }
            | Act::Until { stream, slot, .. } => {
                self.accept_read(a, *stream);
                self.connect(*slot, a);
            }
            Act::WriteSome { stream, slot, .. } | Act::WriteAll { stream, slot, .. } => {
                self.accept_write(a, *stream);
                self.connect(*slot, a);
            }
            Act::Expires { timer, after } => {
                acts_fit(script);
                let now = self.world.now();
                self.expire(*timer, now + after);
            }
            Act::ExpiresAt { timer, at } => self.expire(*timer, *at),
            Act::Cancel { timer } => self.cancel(*timer),
            Act::CancelOne { timer } => self.cancel_one(*timer),
            Act::Emit { slot, types } => self.emit(*slot, *types),
            Act::Close { stream } => self.close(*stream),
            Act::Release { guard } => self.release(*guard),
            _ => {}
        }
    }
}
