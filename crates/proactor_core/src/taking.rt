ghost use Rattle.std.specs.Prelude.{◌≡◌, ◌<◌, ◌≤◌, ◌+◌, Some, None, find, length, slice_index_or, slice_set, true};
ghost use Rattle.history_rules.specs.Kinds.{reading_of, slot_of, writing_of};
ghost use Rattle.history_rules.specs.Performing.{closed_at, connected, emitted, expiry_set, guard_released, is_wait_of, one_of_stream_cancelled, one_wait_cancelled, performed, read_accepted, wait_accepted, waits_cancelled, with_taken, write_accepted};
ghost use Rattle.history_rules.specs.State.{ReactorHalf};
ghost use Rattle.history_rules.specs.Bounds.{latest};
ghost use Rattle.proactor_core.specs.Following.{chosen_cancelled};
ghost use Rattle.proactor_core.specs.Proactor.{IsAt, IsTurning, MayConnect, MayPerform, MayTakeAct, TakesAct, IsSound, tells};
ghost use Rattle.proactor_core.specs.Room.{IsUntaken};
ghost use Rattle.session_script.specs.WellFormed.{IsWellFormed};
ghost use Rattle.proactor_core.specs.Rooms.{waits_for};
ghost use Rattle.proactor_core.specs.StreamRooms.{stream_read, stream_written};
ghost use Rattle.stream_rules.specs.Serving.{Reading, Writing};

use crate::proactor::Proactor;
use crate::reach::{reached_by, slot_of};
use asio_types::{ActNo, GuardNo, OpNo, SlotNo, StreamNo, TimerNo, Types};
use composed_ops::{Machine, acts_are_sized};
use reactor_trait::Reactor;
use session_script::{Act, acts_fit, scripts_are_well_formed};

impl<'a, X: Reactor> Proactor<'a, X> {
    /// An operation is connected to its slot, if it has one (`cancellation_slot::assign`).
    fn connect(&mut self, op: ActNo, act: &Act)
        requires may { MayConnect X.state X.told op act.now self.old }
        ensures turning { IsTurning X.state X.told self.new }
        ensures others { self.new ≡ record self.old { tables = self.new.tables } }
        ensures taken { self.new.tables.taken ≡ self.old.tables.taken }
        ensures follows { (half : ReactorHalf) → IsAt X.told self.old half →
            IsAt X.told self.new (connected (slot_of act.now) op half) }
    {
        acts_fit(self.script);
        self.tables.connect(slot_of(act), op, reached_by(act));
    }

    /// A wait is taken (`steady_timer::async_wait`).
    pub(crate) fn take_wait(&mut self, a: ActNo, timer: TimerNo, act: &Act)
        requires may { MayPerform X.state X.told a act.now self.old }
        requires wait { waits_for timer act.now ≡ true }
        ensures turning { IsTurning X.state X.told self.new }
        ensures takes { TakesAct a self.old self.new }
        ensures follows { (half : ReactorHalf) → IsAt X.told self.old half →
            IsAt X.told self.new
            (connected (slot_of act.now) a (with_taken a (wait_accepted a timer half))) }
    {
        acts_fit(self.script);
        self.tables.begin_wait(a, timer);
        self.tables.take(a);
        self.connect(a, act);
    }

    /// A timer is given a new expiry (`steady_timer::expires_at`).
    pub(crate) fn take_expiry(&mut self, a: ActNo, timer: TimerNo, expiry: u64)
        requires may { MayTakeAct X.state X.told a self.old }
        requires timer { timer < length self.old.tables.waiting.expiries }
        requires within { expiry ≤ latest (self.old.tables.accepted + 1) }
        ensures turning { IsTurning X.state X.told self.new }
        ensures takes { TakesAct a self.old self.new }
        ensures follows { (half : ReactorHalf) → IsAt X.told self.old half →
            IsAt X.told self.new (with_taken a (expiry_set timer expiry half)) }
    {
        self.tables.set_timer(timer, expiry);
        self.tables.take(a);
    }

    /// The waits of a timer are cancelled (`steady_timer::cancel`).
    pub(crate) fn take_cancel(&mut self, a: ActNo, timer: TimerNo)
        requires may { MayTakeAct X.state X.told a self.old }
        requires timer { timer < length self.old.tables.waiting.expiries }
        ensures turning { IsTurning X.state X.told self.new }
        ensures takes { TakesAct a self.old self.new }
        ensures follows { (half : ReactorHalf) → IsAt X.told self.old half →
            IsAt X.told self.new (with_taken a (waits_cancelled (is_wait_of timer) half)) }
    {
        self.tables.cancel_timer(timer);
        self.tables.take(a);
    }

    /// The first wait of a timer is cancelled (`steady_timer::cancel_one`).
    pub(crate) fn take_cancel_one(&mut self, a: ActNo, timer: TimerNo)
        requires may { MayTakeAct X.state X.told a self.old }
        requires timer { timer < length self.old.tables.waiting.expiries }
        ensures turning { IsTurning X.state X.told self.new }
        ensures takes { TakesAct a self.old self.new }
        ensures follows { (half : ReactorHalf) → IsAt X.told self.old half →
            IsAt X.told self.new
            (with_taken a (one_wait_cancelled (find (is_wait_of timer) half.waits) half)) }
    {
        self.tables.cancel_first(timer);
        self.tables.take(a);
    }

    /// A guard is released (`executor_work_guard::reset`).
    pub(crate) fn take_release(&mut self, a: ActNo, guard: GuardNo)
        requires may { MayTakeAct X.state X.told a self.old }
        requires guard { guard < length self.old.tables.guards }
        ensures turning { IsTurning X.state X.told self.new }
        ensures takes { TakesAct a self.old self.new }
        ensures follows { (half : ReactorHalf) → IsAt X.told self.old half →
            IsAt X.told self.new (with_taken a (guard_released guard half)) }
    {
        self.tables.release(guard);
        self.tables.take(a);
    }

    /// An act that asks the reactor for nothing is taken.
    pub(crate) fn take_other(&mut self, a: ActNo)
        requires may { MayTakeAct X.state X.told a self.old }
        ensures turning { IsTurning X.state X.told self.new }
        ensures takes { TakesAct a self.old self.new }
        ensures follows { (half : ReactorHalf) → IsAt X.told self.old half →
            IsAt X.told self.new (with_taken a half) }
    {
        self.tables.take(a);
    }

    /// A read is taken (`async_read_some`, `async_read`, `async_read_until`).
    pub(crate) fn take_read(&mut self, a: ActNo, stream: StreamNo, act: &'a Act)
        requires may { MayPerform X.state X.told a act.now self.old }
        requires reads { stream_read act.now ≡ Some stream }
        ensures turning { IsTurning X.state X.told self.new }
        ensures takes { TakesAct a self.old self.new }
        ensures follows { (half : ReactorHalf) (reading : Reading) →
            reading_of act.now ≡ Some reading → IsAt X.told self.old half →
            IsAt X.told self.new
            (connected (slot_of act.now) a (with_taken a (read_accepted a stream reading half))) }
    {
        acts_fit(self.script);
        acts_are_sized(self.script);
        let Some(machine) = Machine::of(act) else {
            unreachable!()
        };
        let accepted = self.tables.accepted();
        let tables = &mut self.tables;
        self.streams
            .accept_read(a, stream, accepted, machine, &mut tables.due);
        self.tables.take(a);
        self.connect(a, act);
    }

    /// A write is taken (`async_write_some`, `async_write`).
    pub(crate) fn take_write(&mut self, a: ActNo, stream: StreamNo, act: &'a Act)
        requires may { MayPerform X.state X.told a act.now self.old }
        requires writes { stream_written act.now ≡ Some stream }
        ensures turning { IsTurning X.state X.told self.new }
        ensures takes { TakesAct a self.old self.new }
        ensures follows { (half : ReactorHalf) (writing : Writing) →
            writing_of act.now ≡ Some writing → IsAt X.told self.old half →
            IsAt X.told self.new (connected (slot_of act.now) a
            (with_taken a (write_accepted a stream writing half))) }
    {
        acts_fit(self.script);
        acts_are_sized(self.script);
        let Some(machine) = Machine::of(act) else {
            unreachable!()
        };
        let accepted = self.tables.accepted();
        let tables = &mut self.tables;
        self.streams
            .accept_write(a, stream, accepted, machine, &mut tables.due);
        self.tables.take(a);
        self.connect(a, act);
    }

    /// A stream is closed (`basic_stream_socket::close`).
    pub(crate) fn take_close(&mut self, a: ActNo, stream: StreamNo)
        requires may { MayTakeAct X.state X.told a self.old }
        requires known { stream < length self.old.streams }
        ensures turning { IsTurning X.state X.told self.new }
        ensures taken { self.new.tables.taken ≡ slice_set self.old.tables.taken a true }
        ensures script { self.new.script ≡ self.old.script }
        ensures now { (X.state self.new.reactor).now ≡ (X.state self.old.reactor).now }
        ensures tells { tells (X.told self.new.reactor) ≡ tells (X.told self.old.reactor) }
        ensures counted { X.faults self.new.reactor ≡ X.faults self.old.reactor }
        ensures follows { (half : ReactorHalf) → IsAt X.told self.old half →
            IsAt X.told self.new (with_taken a (closed_at stream half)) }
    {
        if self.streams.is_closed(stream) {
            self.tables.take(a);
            return;
        }
        let tables = &mut self.tables;
        self.streams
            .close(stream, &mut self.reactor, &mut tables.due);
        self.tables.take(a);
    }

    /// An operation on a stream is cancelled, if it is pending.
    fn cancel_on(&mut self, stream: StreamNo, op: OpNo)
        requires turning { IsTurning X.state X.told self.old }
        requires known { stream < length self.old.streams }
        ensures turning { IsTurning X.state X.told self.new }
        ensures others { self.new
            ≡ record self.old { tables = self.new.tables; streams = self.new.streams } }
        ensures taken { self.new.tables.taken ≡ self.old.tables.taken }
        ensures follows { (half : ReactorHalf) → IsAt X.told self.old half →
            IsAt X.told self.new (one_of_stream_cancelled op stream half) }
    {
        let tables = &mut self.tables;
        self.streams.cancel(op, stream, &mut tables.due);
    }

    /// An operation that an emit reaches is cancelled, if it is pending
    /// (`cancellation_signal::emit`).
    fn cancel_reached(&mut self, op: OpNo)
        requires turning { IsTurning X.state X.told self.old }
        requires there { op < length self.old.script.acts }
        ensures turning { IsTurning X.state X.told self.new }
        ensures others { self.new
            ≡ record self.old { tables = self.new.tables; streams = self.new.streams } }
        ensures taken { self.new.tables.taken ≡ self.old.tables.taken }
        ensures follows { (half : ReactorHalf) → IsAt X.told self.old half →
            IsAt X.told self.new (chosen_cancelled self.old.script (Some op) half) }
    {
        acts_fit(self.script);
        match self.script.act(op) {
            Act::Wait { .. } => self.tables.cancel_wait(op),
            Act::ReadSome { stream, .. } => self.cancel_on(*stream, op),
            Act::ReadAll { stream, .. } => self.cancel_on(*stream, op),
            Act::Until { stream, .. } => self.cancel_on(*stream, op),
            Act::WriteSome { stream, .. } => self.cancel_on(*stream, op),
            Act::WriteAll { stream, .. } => self.cancel_on(*stream, op),
            _ => {}
        }
    }

    /// The operation that is reached is cancelled, if there is one (`cancellation_signal::emit`).
    pub(crate) fn take_emit(&mut self, a: ActNo, slot: SlotNo, types: Types)
        requires may { MayTakeAct X.state X.told a self.old }
        requires slot { slot < length self.old.tables.slots }
        ensures turning { IsTurning X.state X.told self.new }
        ensures takes { TakesAct a self.old self.new }
        ensures follows { (half : ReactorHalf) → IsAt X.told self.old half →
            IsAt X.told self.new (with_taken a
            (emitted self.old.script (slice_index_or half.slots slot None) types half)) }
    {
        match self.tables.reached(slot, types) {
            None => self.tables.take(a),
            Some(op) => {
                self.cancel_reached(op);
                self.tables.take(a);
            }
        }
    }

    /// An act is taken and performed, by what it is.
    pub(crate) fn perform(&mut self, a: ActNo)
        requires sound { IsSound X.state X.told self.old }
        requires untaken { IsUntaken a self.old.tables }
        ensures turning { IsTurning X.state X.told self.new }
        ensures taken { self.new.tables.taken ≡ slice_set self.old.tables.taken a true }
        ensures script { self.new.script ≡ self.old.script }
        ensures now { (X.state self.new.reactor).now ≡ (X.state self.old.reactor).now }
        ensures tells { tells (X.told self.new.reactor) ≡ tells (X.told self.old.reactor) }
        ensures counted { X.faults self.new.reactor ≡ X.faults self.old.reactor }
        ensures follows { (half : ReactorHalf) → IsAt X.told self.old half →
            IsAt X.told self.new (performed self.old.script a half) }
        ensures formed { IsWellFormed self.old.script }
    {
        let script = self.script;
        scripts_are_well_formed(script);
        acts_fit(script);
        let act = script.act(a);
        match act {
            Act::Wait { timer, .. } => self.take_wait(a, *timer, act),
            Act::Expires { timer, after } => {
                let expiry = self.tables.now() + *after;
                self.take_expiry(a, *timer, expiry);
            }
            Act::ExpiresAt { timer, at } => self.take_expiry(a, *timer, *at),
            Act::Cancel { timer } => self.take_cancel(a, *timer),
            Act::CancelOne { timer } => self.take_cancel_one(a, *timer),
            Act::Emit { slot, types } => self.take_emit(a, *slot, *types),
            Act::Close { stream } => self.take_close(a, *stream),
            Act::Release { guard } => self.take_release(a, *guard),
            Act::ReadSome { stream, .. } => self.take_read(a, *stream, act),
            Act::ReadAll { stream, .. } => self.take_read(a, *stream, act),
            Act::Until { stream, .. } => self.take_read(a, *stream, act),
            Act::WriteSome { stream, .. } => self.take_write(a, *stream, act),
            Act::WriteAll { stream, .. } => self.take_write(a, *stream, act),
            Act::Post { .. } | Act::Defer { .. } | Act::Dispatch { .. } | Act::Stop => {
                self.take_other(a);
            }
        }
    }
}
