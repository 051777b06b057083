ghost use Rattle.std.specs.Prelude.{◌≡◌, ◌<◌, ◌≤◌, ℕ, [], true, length, slice_index_or, slice_set, IfNone, IfOk, IfSome, Some, None};
ghost use Rattle.std.specs.List.{All};
ghost use Rattle.std.specs.Option.{is_some};
ghost use Rattle.io_rules.specs.Timers.{due_by};
ghost use Rattle.io_queues.specs.Queued.{Queued, found_in, queue_at};
ghost use Rattle.io_timers.specs.Kept.{AreApart, Each, first_wait, in_order};
ghost use Rattle.io_timers.specs.Pending.{Entry, IsOnly, expiry_by, first_in, next_wait, no_waits, number_of, numbered_in, op_by, waits_on, with_expiry, with_wait, without_wait};

use crate::first::First;
use crate::pending::PendingWait;
use crate::tournament::Tournament;
use asio_types::NoMemory;
use io_queues::Queues;
use io_rules::Name;
use std::alloc::Global;
use std::marker::Model;

/// Timers by their places, and the waits that are pending on them (Asio reference, `basic_waitable_timer`).
/// Contracts see the expiries, the waits in order of acceptance, and for how many more there is room.
pub struct Timers<T> {
    // in nanoseconds, by place
    expiries: Vec<u64>,
    // by the place of the timer, each in order of acceptance
    queues: Queues<PendingWait<T>>,
    // by the place of the timer, the first wait of each
    firsts: Tournament,
}

impl<T> Model for Timers<T> {
    ghost use Rattle.std.specs.Prelude.{map};
    ghost use Rattle.io_timers.specs.Kept.{IsTimers, in_order};
    ghost use Rattle.io_timers.specs.Pending.{Timers, timer_with};

    ghost Value = { Timers T };

    ghost view = { λ t. record {
      timers = map timer_with t.expiries.items;
      waits = in_order t.queues.queues;
      room = t.queues.room;
    } };

    ghost invariant = { λ t. IsTimers t.expiries.items t.queues.queues t.firsts };
}

impl<T> Timers<T> {
    /// So many timers, whose first expiry has passed, and room for so many waits. Takes memory for all of
    /// them, and nothing takes memory later; `NoMemory` where it is refused.
    pub fn make(alloc: Global, timers: u32, room: u32) -> Result<Timers<T>, NoMemory>
        ensures { IfOk result (λ made. made ≡ no_waits timers room) }
    {
        let expiries = vec![in alloc; 0; timers as usize]?;
        let firsts = Tournament::make(alloc, timers)?;
        let queues = Queues::make(alloc, timers, room)?;
        Ok(Timers {
            expiries,
            queues,
            firsts,
        })
    }

    /// Gives its memory back. No wait is pending.
    pub fn destroy(self)
        requires { self.waits ≡ [] }
    {
        let Timers {
            expiries: _,
            queues,
            firsts: _,
        } = self;
        queues.destroy();
    }

    /// Sets the expiry of a timer (`basic_waitable_timer::expires_at`), on which no wait is pending.
    pub fn set_expiry(&mut self, timer: Name, at: u64)
        requires within { timer.place < length self.old.timers }
        requires only { IsOnly timer self.old.waits }
        requires none { waits_on timer self.old.waits ≡ [] }
        ensures { self.new ≡ with_expiry timer at self.old }
    {
        self.expiries[timer.place as usize] = at;
    }

    /// Accepts a wait on a timer (`basic_waitable_timer::async_wait`), whose number is above those of all
    /// waits, and answers the place by which it can be taken out. Takes time logarithmic in the number of
    /// timers.
    pub fn wait(&mut self, op: u64, timer: Name, item: T) -> u32
        requires within { timer.place < length self.old.timers }
        requires room { 0 < self.old.room }
        requires last { Each (λ (wait : Entry (PendingWait T)). number_of wait < op) self.old.waits }
        ensures free { found_in result self.old.waits ≡ None }
        ensures accepted { self.new ≡ with_wait
            (record { place = result; item = record { op = op; timer = timer; item = item } }) self.old }
    {
        let place = self
            .queues
            .push_back(timer.place, PendingWait { op, timer, item });
        note_first(&self.expiries, &self.queues, &mut self.firsts, timer.place);
        place
    }

    /// Takes the wait at this place out, as where a cancellation reaches it by its slot
    /// (`cancellation_signal::emit`). Takes time logarithmic in the number of timers.
    pub fn take(&mut self, place: u32) -> PendingWait<T>
        requires { is_some (found_in place self.old.waits) ≡ true }
        ensures found { found_in place self.old.waits ≡ Some result }
        ensures numbered { numbered_in result.op self.old.waits ≡ Some result }
        ensures taken { self.new ≡ without_wait result.op self.old }
    {
        let wait = self.queues.remove(place);
        note_first(
            &self.expiries,
            &self.queues,
            &mut self.firsts,
            wait.timer.place,
        );
        wait
    }

    /// Takes the first accepted wait of a timer out (`basic_waitable_timer::cancel_one`, and again for each
    /// further one `cancel`); `None` exactly where none is pending on it.
    pub fn cancel_first(&mut self, timer: Name) -> Option<PendingWait<T>>
        requires within { timer.place < length self.old.timers }
        requires only { IsOnly timer self.old.waits }
        ensures first { first_in (waits_on timer self.old.waits) ≡ result }
        ensures numbered { IfSome result (λ wait. numbered_in wait.op self.old.waits ≡ Some wait) }
        ensures taken { IfSome result (λ wait. self.new ≡ without_wait wait.op self.old) }
        ensures same { IfNone result (self.new ≡ self.old) }
    {
        match self.first_place(timer) {
            Some(place) => Some(self.take(place)),
            None => None,
        }
    }

    /// The least expiry of a timer on which a wait is pending, to which a poll may wait; `None` exactly where
    /// none is. Takes constant time.
    pub fn next_expiry(&self) -> Option<u64>
        ensures { result ≡ expiry_by self.now.timers (next_wait self.now) }
    {
        match self.firsts.first() {
            Some(first) => Some(first.expiry),
            None => None,
        }
    }

    /// Takes the wait that completes next out, where it is due: the one of least expiry, and of these the
    /// first that was accepted. `None` exactly where none is due.
    pub fn next_due(&mut self, now: u64) -> Option<PendingWait<T>>
        ensures due { IfSome result (λ wait.
            due_by self.old.timers now (next_wait self.old) ≡ Some wait.op) }
        ensures numbered { IfSome result (λ wait. numbered_in wait.op self.old.waits ≡ Some wait) }
        ensures taken { IfSome result (λ wait. self.new ≡ without_wait wait.op self.old) }
        ensures none { IfNone result (due_by self.old.timers now (next_wait self.old) ≡ None) }
        ensures same { IfNone result (self.new ≡ self.old) }
    {
        match self.due_place(now) {
            Some(place) => Some(self.take(place)),
            None => None,
        }
    }

    /// Takes the wait that completes next out, whether it is due or not, as where the context is destroyed.
    /// `None` exactly where none is pending.
    pub fn take_next(&mut self) -> Option<PendingWait<T>>
        ensures next { IfSome result (λ wait. op_by (next_wait self.old) ≡ Some wait.op) }
        ensures numbered { IfSome result (λ wait. numbered_in wait.op self.old.waits ≡ Some wait) }
        ensures taken { IfSome result (λ wait. self.new ≡ without_wait wait.op self.old) }
        ensures none { IfNone result (self.old.waits ≡ []) }
        ensures same { IfNone result (self.new ≡ self.old) }
    {
        match self.next_place() {
            Some(place) => Some(self.take(place)),
            None => None,
        }
    }

    /// The place of the first accepted wait of a timer.
    fn first_place(&self, timer: Name) -> Option<u32>
        requires within { timer.place < length self.now.timers }
        requires only { IsOnly timer self.now.waits }
        ensures there { IfSome result (λ place. is_some (found_in place self.now.waits) ≡ true) }
        ensures first { IfSome result (λ place. (wait : PendingWait T) →
            found_in place self.now.waits ≡ Some wait → first_in (waits_on timer self.now.waits) ≡ Some wait) }
        ensures none { IfNone result (first_in (waits_on timer self.now.waits) ≡ None) }
    {
        self.queues.first(timer.place)
    }

    /// The place of the wait that completes next, where it is due.
    fn due_place(&self, now: u64) -> Option<u32>
        ensures there { IfSome result (λ place. is_some (found_in place self.now.waits) ≡ true) }
        ensures due { IfSome result (λ place. (wait : PendingWait T) →
            found_in place self.now.waits ≡ Some wait →
            due_by self.now.timers now (next_wait self.now) ≡ Some wait.op) }
        ensures none { IfNone result (due_by self.now.timers now (next_wait self.now) ≡ None) }
    {
        let Some(expiry) = self.next_expiry() else {
            return None;
        };
        let is_late = now < expiry;
        if is_late {
            return None;
        }
        self.next_place()
    }

    /// The place of the wait that completes next.
    fn next_place(&self) -> Option<u32>
        ensures there { IfSome result (λ place. is_some (found_in place self.now.waits) ≡ true) }
        ensures next { IfSome result (λ place. (wait : PendingWait T) →
            found_in place self.now.waits ≡ Some wait → op_by (next_wait self.now) ≡ Some wait.op) }
        ensures none { IfNone result (self.now.waits ≡ []) }
    {
        let Some(first) = self.firsts.first() else {
            return None;
        };
        self.queues.first(first.timer)
    }
}

/// The first wait of a timer may be another one now.
fn note_first<T>(
    expiries: &Vec<u64>,
    queues: &Queues<PendingWait<T>>,
    firsts: &mut Tournament,
    timer: u32,
)
    requires expiries { timer < length expiries.now.items }
    requires queues { timer < length queues.now.queues }
    requires leaves { timer < length firsts.old }
    requires apart { AreApart (in_order queues.now.queues) }
    ensures { firsts.new ≡ slice_set firsts.old timer
        (first_wait timer (slice_index_or expiries.now.items timer 0) (queue_at queues.now timer)) }
{
    let first = first_of_timer(expiries[timer as usize], queues, timer);
    firsts.set(timer, first);
}

/// The first wait of a timer with this expiry.
fn first_of_timer<T>(expiry: u64, queues: &Queues<PendingWait<T>>, timer: u32) -> Option<First>
    requires within { timer < length queues.now.queues }
    requires apart { AreApart (in_order queues.now.queues) }
    ensures { result ≡ first_wait timer expiry (queue_at queues.now timer) }
{
    match queues.first(timer) {
        Some(place) => {
            let op = queues.get(place).op;
            Some(First { expiry, op, timer })
        }
        None => None,
    }
}
