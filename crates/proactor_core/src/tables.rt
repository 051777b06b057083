ghost use Rattle.std.specs.Prelude.{◌≡◌, ◌≢◌, ◌<◌, ◌≤◌, ◌+◌, ◌∷◌, ◌^◌, All, Bool, [], count_by, filter, length, map, replicate, slice_index_or, true, IfNone, IfOk, IfSome};
ghost use Rattle.std.specs.Option.{ForSome};
ghost use Rattle.cancel_slots.specs.Slots.{chosen_by, connection_of};
ghost use Rattle.history_rules.specs.Performing.{is_wait_of};
ghost use Rattle.history_rules.specs.State.{first_reactor};
ghost use Rattle.history_rules.specs.Time.{least_of};
ghost use Rattle.history_rules.specs.Waits.{expiry_in};
ghost use Rattle.proactor_core.specs.Counts.{within_32_bits};
ghost use Rattle.proactor_core.specs.Room.{HasRoomLeft};
ghost use Rattle.proactor_core.specs.Tables.{act_taken, first_cancelled, guard_gone, point_passed, reactor_lost, slot_left, slot_taken, timer_cancelled, timer_set, wait_begun, wait_cancelled, waits_completed, with_tables};

use crate::counts::in_32_bits;
use crate::due::DueList;
use crate::waits::Waits;
use asio_types::{ActNo, GuardNo, NoMemory, OpNo, Point, SlotNo, TimerNo, Types};
use cancel_slots::CancelSlots;
use session_script::Script;
use std::alloc::Global;
use std::marker::Model;
use stream_rules::Completion;

/// What a proactor keeps apart from its streams: which acts were taken, the time, timers and their
/// waits, cancellation slots, guards, and what is due. Contracts see each part. No call but `make`
/// takes memory.
#[derive(Drop)]
pub(crate) struct Tables {
    taken: Vec<bool>,
    accepted: u32,
    // scripted time
    time: u64,
    waits: Waits,
    slots: CancelSlots,
    guards: Vec<bool>,
    last: bool,
    failed: bool,
    /// What has completed and wasn't told yet; streams add to it.
    pub(crate) due: DueList,
}

impl Model for Tables {
    ghost use Rattle.proactor_core.specs.Tables.{TableState};

    ghost Value = { TableState };

    ghost view = { λ t. record {
      taken = t.taken.items;
      accepted = t.accepted;
      time = t.time;
      waiting = t.waits;
      slots = t.slots;
      guards = t.guards.items;
      last = t.last;
      failed = t.failed;
      due = t.due;
    } };
}

/// So many flags that are all the same.
fn all_flags(alloc: Global, flag: bool, count: usize) -> Result<Vec<bool>, NoMemory>
    ensures { IfOk result (λ flags. flags.items ≡ replicate count flag) }
{
    Ok(vec![in alloc; flag; count]?)
}

impl Tables {
    /// The tables of a script before anything was taken. Takes memory for each act once; `NoMemory`
    /// where it is refused.
    pub(crate) fn make(alloc: Global, script: &Script) -> Result<Tables, NoMemory>
        ensures half { IfOk result (λ made.
            (told : Bool) →
            with_tables made (first_reactor script.now told) ≡ first_reactor script.now told) }
        ensures room { IfOk result (HasRoomLeft script.now 0) }
        ensures spare { IfOk result (λ made. made.due.spare ≡ length script.now.acts) }
    {
        let acts = script.acts() as usize;
        let taken = all_flags(alloc, false, acts)?;
        let waits = Waits::make(alloc, script)?;
        let slots = CancelSlots::with_room(alloc, script.slots())?;
        let guards = all_flags(alloc, true, script.guards() as usize)?;
        let due = DueList::with_room(alloc, acts)?;
        Ok(Tables {
            taken,
            accepted: 0,
            time: 0,
            waits,
            slots,
            guards,
            last: false,
            failed: false,
            due,
        })
    }

    /// A wait is pending from now on (`steady_timer::async_wait`). Takes time logarithmic in the
    /// number of waits.
    pub(crate) fn begin_wait(&mut self, op: OpNo, timer: TimerNo)
        requires op { op < self.old.waiting.acts }
        requires new { All (λ wait. wait.op ≢ op) self.old.waiting.waits }
        requires timer { timer < length self.old.waiting.expiries }
        requires room { length (filter (is_wait_of timer) self.old.waiting.waits)
            < slice_index_or self.old.waiting.rooms timer 0 }
        requires few { self.old.waiting.accepted < self.old.waiting.acts }
        ensures { self.new ≡ wait_begun op timer self.old }
    {
        self.waits.accept(op, timer);
    }

    /// An operation is connected to its slot, if it has one, with the cancellation types that reach
    /// it (`cancellation_slot::assign`).
    pub(crate) fn connect(&mut self, slot: Option<SlotNo>, op: OpNo, types: Types)
        requires { ForSome slot (λ slot. slot < length self.old.slots) }
        ensures { self.new ≡ slot_taken slot op types self.old }
    {
        let Some(slot) = slot else {
            return;
        };
        self.slots.connect(slot, op, types);
    }

    /// An operation that has completed leaves its slot, if it is still connected there
    /// (`cancellation_slot::clear`).
    pub(crate) fn disconnect(&mut self, slot: Option<SlotNo>, op: OpNo)
        requires { ForSome slot (λ slot. slot < length self.old.slots) }
        ensures { self.new ≡ slot_left slot op self.old }
    {
        let Some(slot) = slot else {
            return;
        };
        let _ = self.slots.clear_if(slot, op);
    }

    /// The operation that an emit of these types on a slot cancels (`cancellation_signal::emit`);
    /// `None` exactly where it reaches none.
    pub(crate) fn reached(&self, slot: SlotNo, types: Types) -> Option<OpNo>
        requires { slot < length self.now.slots }
        ensures { result ≡ chosen_by (connection_of self.now.slots slot) types }
    {
        self.slots.chosen(slot, types)
    }

    /// A timer gets a new expiry, and its waits are cancelled (`steady_timer::expires_at`). Takes
    /// time in proportion to the waits of that timer, each with a logarithm.
    pub(crate) fn set_timer(&mut self, timer: TimerNo, expiry: u64)
        requires timer { timer < length self.old.waiting.expiries }
        requires room { length self.old.waiting.waits ≤ self.old.due.spare }
        ensures { self.new ≡ timer_set timer expiry self.old }
    {
        self.waits.set_expiry(timer, expiry, &mut self.due);
    }

    /// The waits of a timer are cancelled (`steady_timer::cancel`), in the same time.
    pub(crate) fn cancel_timer(&mut self, timer: TimerNo)
        requires timer { timer < length self.old.waiting.expiries }
        requires room { length self.old.waiting.waits ≤ self.old.due.spare }
        ensures { self.new ≡ timer_cancelled timer self.old }
    {
        self.waits.cancel_timer(timer, &mut self.due);
    }

    /// The wait of a timer that was accepted first is cancelled, if there is one
    /// (`steady_timer::cancel_one`).
    pub(crate) fn cancel_first(&mut self, timer: TimerNo)
        requires timer { timer < length self.old.waiting.expiries }
        requires room { length self.old.waiting.waits ≤ self.old.due.spare }
        ensures { self.new ≡ first_cancelled timer self.old }
    {
        self.waits.cancel_first(timer, &mut self.due);
    }

    /// The wait of an operation is cancelled, if it is pending (`cancellation_signal::emit`).
    pub(crate) fn cancel_wait(&mut self, op: OpNo)
        requires op { op < self.old.waiting.acts }
        requires room { length self.old.waiting.waits ≤ self.old.due.spare }
        ensures { self.new ≡ wait_cancelled op self.old }
    {
        self.waits.cancel_op(op, &mut self.due);
    }

    /// A guard holds the context no more (`executor_work_guard::reset`).
    pub(crate) fn release(&mut self, guard: GuardNo)
        requires { guard < length self.old.guards }
        ensures { self.new ≡ guard_gone guard self.old }
    {
        self.guards[guard as usize] = false;
    }

    /// An act was taken.
    pub(crate) fn take(&mut self, a: ActNo)
        requires act { a < length self.old.taken }
        requires few { self.old.accepted + 1 < 2 ^ 32 }
        ensures { self.new ≡ act_taken a self.old }
    {
        self.taken[a as usize] = true;
        self.accepted += 1;
    }

    /// The waits complete whose timers have expired, by expiry and then by acceptance.
    pub(crate) fn complete_waits(&mut self)
        requires { length self.old.waiting.waits ≤ self.old.due.spare }
        ensures { self.new ≡ waits_completed self.old }
    {
        self.waits.complete_due(self.time, &mut self.due);
    }

    /// Time moved to this point.
    pub(crate) fn pass(&mut self, point: &Point)
        ensures { self.new ≡ point_passed point.now self.old }
    {
        match point {
            Point::Time(now) => self.time = *now,
            Point::Last => self.last = true,
        }
    }

    /// The reactor has failed, and nothing of its turn is told.
    pub(crate) fn fail(&mut self)
        ensures { self.new ≡ reactor_lost self.old }
    {
        self.failed = true;
        self.due.clear();
    }

    /// Takes the completion out that is told next; `None` exactly where there is none.
    pub(crate) fn next_due(&mut self) -> Option<Completion>
        ensures first { IfSome result (λ head. self.old.due.coming ≡ head ∷ self.new.due.coming) }
        ensures room { IfSome result (λ _. self.new.due.spare ≡ self.old.due.spare + 1) }
        ensures others { self.new ≡ record self.old { due = self.new.due } }
        ensures none { IfNone result (self.old.due.coming ≡ []) }
        ensures unchanged { IfNone result (self.new ≡ self.old) }
    {
        self.due.next()
    }

    /// Whether an act was taken.
    pub(crate) fn was_taken(&self, a: ActNo) -> bool
        requires { a < length self.now.taken }
        ensures { result ≡ slice_index_or self.now.taken a true }
    {
        self.taken[a as usize]
    }

    /// Whether the reactor has failed.
    pub(crate) fn has_failed(&self) -> bool
        ensures { result ≡ self.now.failed }
    {
        self.failed
    }

    /// The least expiry of a timer that is waited for; `None` exactly where no wait is pending.
    pub(crate) fn next_expiry(&self) -> Option<u64>
        ensures { result
            ≡ least_of (map (expiry_in self.now.waiting.expiries) self.now.waiting.waits) }
    {
        self.waits.next_expiry()
    }

    /// How many waits are pending.
    pub(crate) fn waits(&self) -> u32
        ensures { result ≡ length self.now.waiting.waits }
    {
        self.waits.count()
    }

    /// Scripted time.
    pub(crate) fn now(&self) -> u64
        ensures { result ≡ self.now.time }
    {
        self.time
    }

    /// How many acts were taken.
    pub(crate) fn accepted(&self) -> u32
        ensures { result ≡ self.now.accepted }
    {
        self.accepted
    }

    /// How many guards hold the context.
    pub(crate) fn guards(&self) -> u32
        ensures { result ≡ within_32_bits (count_by (λ held. held) self.now.guards) }
    {
        in_32_bits(self.guards.iter().filter(|held| **held).count())
    }

    /// How many completions weren't told yet.
    pub(crate) fn count_due(&self) -> u32
        ensures { result ≡ within_32_bits (length self.now.due.coming) }
    {
        in_32_bits(self.due.count())
    }
}
