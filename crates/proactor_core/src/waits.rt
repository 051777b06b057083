ghost use Rattle.std.specs.Prelude.{◌≡◌, ◌≢◌, ◌<◌, ◌≤◌, ◌+◌, ◌++◌, ◌∷◌, All, [], filter, find, length, map, replicate, slice_index_or, slice_set, IfNone, IfOk, IfSome, ℕ};
ghost use Rattle.std.specs.Bool.{OnTrue, OnFalse};
ghost use Rattle.history_rules.specs.Performing.{aborted, is_wait_for, is_wait_of};
ghost use Rattle.history_rules.specs.Time.{least_of};
ghost use Rattle.history_rules.specs.Waits.{expiry_in};
ghost use Rattle.proactor_core.specs.Due.{listed};
ghost use Rattle.proactor_core.specs.Rooms.{acts_below, waits_for};
ghost use Rattle.proactor_core.specs.Waits.{abort_of_one, aborts, expired, has_expired, no_waits, without, without_one, TakesExpired, TakesFirstOf};

use crate::due::DueList;
use crate::rooms::{queues_with_room, wait_counts};
use crate::uncounted::pop_due;
use asio_types::{Code, NoMemory, OpNo, TimerNo};
use session_script::Script;
use std::alloc::Global;
use std::collections::VecDeque;
use std::marker::{Brand, Model};
use std::sync::ledger::Blank;
use stream_rules::Completion;
use timer_queue::TimerQueue;

/// The timers of a session with their expiries, and the waits that haven't completed (Asio
/// reference, `steady_timer`). Contracts see the waits in order of acceptance. No call but `make`
/// takes memory.
#[derive(Drop)]
pub(crate) struct Waits {
    expiries: Vec<u64>,
    // for each timer the operations that wait for it, in order of acceptance
    of_timer: Vec<VecDeque<OpNo>>,
    // the timer of each operation that was accepted
    timer_of: Vec<TimerNo>,
    // all waits
    queue: TimerQueue,
    accepted: u32,
    // how many waits there are
    pending: u32,
}

impl Model for Waits {
    ghost use Rattle.std.specs.Prelude.{map, length};
    ghost use Rattle.std.specs.VecDeque.{deque_capacity, deque_items};
    ghost use Rattle.proactor_core.specs.Waits.{IsWaits, Waiting, waits_of};

    ghost Value = { Waiting };

    ghost view = { λ w. record {
      expiries = w.expiries.items;
      waits = waits_of w.timer_of.items w.queue.waits;
      accepted = w.accepted;
      rooms = map deque_capacity w.of_timer.items;
      acts = length w.timer_of.items;
    } };

    ghost invariant = { λ w.
        IsWaits w.expiries.items w.timer_of.items w.queue (map deque_items w.of_timer.items)
        w.accepted w.pending };
}

impl Waits {
    /// All timers with expiry 0, and no waits. Takes memory for each wait of the script once;
    /// `NoMemory` where it is refused.
    pub(crate) fn make(alloc: Global, script: &Script) -> Result<Waits, NoMemory>
        ensures expiries { IfOk result (λ made. made.expiries ≡ replicate script.now.timers 0) }
        ensures waits { IfOk result (λ made. made.waits ≡ []) }
        ensures accepted { IfOk result (λ made. made.accepted ≡ 0) }
        ensures timers { IfOk result (λ made. length made.rooms ≡ script.now.timers) }
        ensures rooms { IfOk result (λ made.
            (timer : ℕ) → timer < script.now.timers →
            slice_index_or made.rooms timer 0
            ≡ acts_below (waits_for timer) script.now (length script.now.acts)) }
        ensures acts { IfOk result (λ made. made.acts ≡ length script.now.acts) }
    {
        let rooms = wait_counts(alloc, script)?;
        Waits::with_room(alloc, rooms.as_slice(), script.acts())
    }

    /// The same, with room for so many waits of each timer, and for operations whose numbers are
    /// below `acts`.
    pub(crate) fn with_room(alloc: Global, rooms: &[u32], acts: u32) -> Result<Waits, NoMemory>
        ensures { IfOk result (λ made. made ≡ no_waits rooms.now acts) }
    {
        let expiries = vec![in alloc; 0u64; rooms.len()]?;
        let of_timer = queues_with_room(alloc, rooms)?;
        let timer_of = vec![in alloc; 0u8; acts as usize]?;
        let queue = TimerQueue::with_room(alloc, acts)?;
        Ok(Waits {
            expiries,
            of_timer,
            timer_of,
            queue,
            accepted: 0,
            pending: 0,
        })
    }

    /// A wait is pending from now on (`steady_timer::async_wait`). Takes time logarithmic in the
    /// number of waits.
    pub(crate) fn accept(&mut self, op: OpNo, timer: TimerNo)
        requires op { op < self.old.acts }
        requires new { All (λ wait. wait.op ≢ op) self.old.waits }
        requires timer { timer < length self.old.expiries }
        requires room { length (filter (is_wait_of timer) self.old.waits)
            < slice_index_or self.old.rooms timer 0 }
        requires few { self.old.accepted < self.old.acts }
        ensures { self.new ≡ record self.old {
          waits = self.old.waits ++ record { op = op; timer = timer } ∷ [];
          accepted = self.old.accepted + 1;
        } }
    {
        let expiry = self.expiries[timer as usize];
        self.queue.insert_reserved(expiry, self.accepted, op);
        self.timer_of[op as usize] = timer;
        let waiting = &mut self.of_timer[timer as usize];
        waiting.push_back_reserved(op);
        self.accepted += 1;
        self.pending += 1;
    }

    /// A timer gets a new expiry, and its waits are cancelled, in order of acceptance
    /// (`steady_timer::expires_after`). Takes time in proportion to the waits of that timer, each
    /// with a logarithm.
    pub(crate) fn set_expiry(&mut self, timer: TimerNo, expiry: u64, due: &mut DueList)
        requires timer { timer < length self.old.expiries }
        requires room { length self.old.waits ≤ due.old.spare }
        ensures waits { self.new
            ≡ record (without (is_wait_of timer) self.old)
            { expiries = slice_set self.old.expiries timer expiry } }
        ensures due { due.new ≡ listed (aborts (is_wait_of timer) self.old) due.old }
    {
        self.cancel_timer(timer, due);
        self.put_expiry(timer, expiry);
    }

    /// The waits of a timer are cancelled, in order of acceptance (`steady_timer::cancel`). Takes
    /// time in proportion to them, each with a logarithm.
    pub(crate) fn cancel_timer(&mut self, timer: TimerNo, due: &mut DueList)
        requires timer { timer < length self.old.expiries }
        requires room { length self.old.waits ≤ due.old.spare }
        ensures waits { self.new ≡ without (is_wait_of timer) self.old }
        ensures due { due.new ≡ listed (aborts (is_wait_of timer) self.old) due.old }
    {
        while let Some(op) = self.take_first(timer) {
            due.push_reserved(aborted(op));
        }
    }

    /// The wait of a timer that was accepted first is cancelled, if there is one
    /// (`steady_timer::cancel_one`). Takes a logarithm.
    pub(crate) fn cancel_first(&mut self, timer: TimerNo, due: &mut DueList)
        requires timer { timer < length self.old.expiries }
        requires room { length self.old.waits ≤ due.old.spare }
        ensures waits { self.new ≡ without_one (find (is_wait_of timer) self.old.waits) self.old }
        ensures due { due.new
            ≡ listed (abort_of_one (find (is_wait_of timer) self.old.waits) self.old) due.old }
    {
        if let Some(op) = self.take_first(timer) {
            due.push_reserved(aborted(op));
        }
    }

    /// The wait of this operation is cancelled, if it is pending (`cancellation_signal::emit`).
    /// Takes time in proportion to the waits of its timer.
    pub(crate) fn cancel_op(&mut self, op: OpNo, due: &mut DueList)
        requires op { op < self.old.acts }
        requires room { length self.old.waits ≤ due.old.spare }
        ensures waits { self.new ≡ without (is_wait_for op) self.old }
        ensures due { due.new ≡ listed (aborts (is_wait_for op) self.old) due.old }
    {
        if self.take(op) {
            due.push_reserved(aborted(op));
        }
    }

    /// The waits complete whose timers have expired by now, by expiry and then by acceptance. Takes
    /// a logarithm for each.
    pub(crate) fn complete_due(&mut self, now: u64, due: &mut DueList)
        requires room { length self.old.waits ≤ due.old.spare }
        ensures waits { self.new ≡ without (has_expired now self.old.expiries) self.old }
        ensures due { due.new ≡ listed (expired now self.old) due.old }
    {
        while let Some(op) = self.take_expired(now) {
            due.push_reserved(Completion {
                op,
                outcome: (Code::Ok, 0),
            });
        }
    }

    /// The least expiry of a timer that is waited for; `None` exactly where no wait is pending.
    /// Takes constant time.
    pub(crate) fn next_expiry(&self) -> Option<u64>
        ensures { result ≡ least_of (map (expiry_in self.now.expiries) self.now.waits) }
    {
        self.queue.next_expiry()
    }

    /// How many waits are pending.
    pub(crate) fn count(&self) -> u32
        ensures { result ≡ length self.now.waits }
    {
        self.pending
    }

    fn put_expiry(&mut self, timer: TimerNo, expiry: u64)
        requires timer { timer < length self.old.expiries }
        requires none { All (λ wait. wait.timer ≢ timer) self.old.waits }
        ensures { self.new
            ≡ record self.old { expiries = slice_set self.old.expiries timer expiry } }
    {
        self.expiries[timer as usize] = expiry;
    }

    /// Takes the wait of a timer out that was accepted first; `None` exactly where there is none.
    fn take_first(&mut self, timer: TimerNo) -> Option<OpNo>
        requires { timer < length self.old.expiries }
        ensures first { IfSome result (λ op. TakesFirstOf timer op self.old self.new) }
        ensures none { IfNone result (filter (is_wait_of timer) self.old.waits ≡ []) }
        ensures unchanged { IfNone result (self.new ≡ self.old) }
    {
        let waiting = &mut self.of_timer[timer as usize];
        let Some(op) = waiting.pop_front() else {
            return None;
        };
        let _ = self.queue.remove(op);
        self.pending -= 1;
        Some(op)
    }

    /// Takes the wait of an operation out; true exactly where it was pending.
    fn take(&mut self, op: OpNo) -> bool
        requires { op < self.old.acts }
        ensures waits { self.new ≡ without (is_wait_for op) self.old }
        ensures there { OnTrue result (aborts (is_wait_for op) self.old ≡ aborted op 0 ∷ []) }
        ensures fewer { OnTrue result (length self.new.waits + 1 ≡ length self.old.waits) }
        ensures absent { OnFalse result (aborts (is_wait_for op) self.old ≡ []) }
    {
        if !self.queue.remove(op) {
            return false;
        }
        let timer = self.timer_of[op as usize];
        let waiting = &mut self.of_timer[timer as usize];
        waiting.retain(|other| *other != op);
        self.pending -= 1;
        true
    }

    /// Takes the wait out that expires first, if its timer has expired by now.
    fn take_expired(&mut self, now: u64) -> Option<OpNo>
        ensures first { IfSome result (λ op. TakesExpired now op self.old self.new) }
        ensures none { IfNone result
            (filter (has_expired now self.old.expiries) self.old.waits ≡ []) }
        ensures unchanged { IfNone result (self.new ≡ self.old) }
    {
        let Some(op) = pop_due::<Brand>(&mut self.queue, now, Blank::new(1)) else {
            return None;
        };
        let timer = self.timer_of[op as usize];
        let waiting = &mut self.of_timer[timer as usize];
        let _ = waiting.pop_front();
        self.pending -= 1;
        Some(op)
    }
}

/// A wait that was cancelled.
fn aborted(op: OpNo) -> Completion
    ensures { result ≡ aborted op 0 }
{
    Completion {
        op,
        outcome: (Code::Aborted, 0),
    }
}
