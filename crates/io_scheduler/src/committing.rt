ghost use Rattle.std.specs.Prelude.{◌≡◌, ◌<◌, ◌≤◌, ◌+◌, length, true, [], Some};
ghost use Rattle.std.specs.Option.{is_some};
ghost use Rattle.io_rules.specs.declared.control.Control.TheVariants as control;
ghost use Rattle.io_rules.specs.Room.{one_if};
ghost use Rattle.io_handlers.specs.Initiated.{IsMade, IsMadeOf, IsOffered, MayRetire, is_freed, is_offered_change, left_by, left_by_all, operations_in, operations_of, spares_made, with_none};
ghost use Rattle.io_scheduler.specs.Come.{LeadTo};
ghost use Rattle.io_scheduler.specs.Staged.{AreStaged, GoesOn, IsCommitted, changed_by, is_retiring, later_by, retired_by, retires, staged_behind};

use crate::running::Running;
use crate::scheduler::Scheduler;
use crate::timing::TimerChange;
use io_handlers::{Handler, Staged, Staging};
use io_history::{HistoryTable, Named};
use io_rules::{Control, Kind, Name};

/// So much later, as far as there are such times.
fn later_by(now: u64, after: u64) -> u64
    ensures { result ≡ later_by now after }
{
    now.saturating_add(after)
}

/// The state of a strand that is forgotten is to be retired, if there is one.
fn retire_if<H, S>(io: &mut Staging<H, S>, state: Option<S>)
    requires { MayRetire io.old }
    ensures more { length io.new.retired ≡ length io.old.retired + one_if (is_some state) }
    ensures rest { io.new ≡ record io.old { retired = io.new.retired } }
{
    if let Some(state) = state {
        io.retire(state);
    }
}

impl<H: Handler, C: Named> Scheduler<H, C> {
    /// A handler that executes changes the context; answers the state of a strand that this forgets.
    fn change_by(
        &mut self,
        table: &HistoryTable,
        running: Running<C>,
        change: Control,
    ) -> (Running<C>, Option<H::State>)
        requires table { table.now ≡ C.table }
        requires offered { is_offered_change change ≡ true }
        requires made { IsMadeOf change running.spares }
        ensures changed { LeadTo (changed_by running.op change self.old) self.old self.new }
        ensures goes_on { GoesOn 0 (spares_made change running.spares) running result.0 }
        ensures retired { is_some result.1 ≡ retires change self.old }
    {
        match change {
            Control::Make { kind: _, name } => (self.make_timer_by(table, running, name), None),
            Control::Expires { timer, at } => {
                let change = TimerChange::ExpiresAt { at };
                (self.change_timer_by(table, running, timer, change), None)
            }
            Control::Cancel { timer } => {
                let change = TimerChange::Cancel;
                (self.change_timer_by(table, running, timer, change), None)
            }
            Control::CancelOne { timer } => {
                let change = TimerChange::CancelOne;
                (self.change_timer_by(table, running, timer, change), None)
            }
            Control::Free { kind, name } => self.free_by(table, running, kind, name),
            _ => (self.stop_by(table, running), None),
        }
    }

    /// A handler that executes frees a strand or a timer, or closes a stream or a listener.
    fn free_by(
        &mut self,
        table: &HistoryTable,
        running: Running<C>,
        kind: Kind,
        name: Name,
    ) -> (Running<C>, Option<H::State>)
        requires table { table.now ≡ C.table }
        requires freed { is_freed kind ≡ true }
        ensures changed { LeadTo (changed_by running.op (control.Free kind name) self.old) self.old self.new }
        ensures goes_on { GoesOn 0 running.spares running result.0 }
        ensures retired { is_some result.1 ≡ retires (control.Free kind name) self.old }
    {
        match kind {
            Kind::Strand => self.free_strand_by(table, running, name),
            Kind::Stream => (self.close_by(table, running, name, false), None),
            Kind::Listener => (self.close_by(table, running, name, true), None),
            _ => (
                self.change_timer_by(table, running, name, TimerChange::Free),
                None,
            ),
        }
    }

    /// A call that a handler staged takes effect, which has returned at this time; answers the state of a
    /// strand that this forgets.
    #[inline(always)]
    fn commit_one(
        &mut self,
        table: &HistoryTable,
        running: Running<C>,
        call: Staged<H, H::State>,
        now: u64,
    ) -> (Running<C>, Option<H::State>)
        requires table { table.now ≡ C.table }
        requires offered { IsOffered call }
        requires made { IsMade call running.spares }
        requires place { operations_of call ≤ running.places }
        ensures committed { IsCommitted H.marks running.op now call self.old self.new }
        ensures goes_on { GoesOn (operations_of call) (left_by call running.spares) running result.0 }
        ensures retired { is_some result.1 ≡ is_retiring call self.old }
    {
        match call {
            Staged::Changed(change) => self.change_by(table, running, change),
            Staged::ExpiresAfter { timer, after } => {
                let at = later_by(now, after);
                let change = TimerChange::ExpiresAt { at };
                (self.change_timer_by(table, running, timer, change), None)
            }
            Staged::MadeStrand { name, state } => {
                (self.make_strand_by(table, running, name, state), None)
            }
            Staged::Called(call) => (self.initiate_by(table, running, call), None),
        }
    }

    /// All that a handler staged takes effect, in the order of its calls; it has returned at this time. The
    /// states of strands that this forgets are to be retired.
    pub(crate) fn commit_all(
        &mut self,
        table: &HistoryTable,
        running: Running<C>,
        io: &mut Staging<H, H::State>,
        now: u64,
    ) -> Running<C>
        requires table { table.now ≡ C.table }
        requires granted { io.old.granted ≡ running.places }
        requires kept { io.old.kept ≡ running.spares }
        ensures staged { AreStaged H.marks running.op now io.old.staged self.old }
        ensures behind { self.new ≡ staged_behind H.marks running.op now io.old.staged self.old }
        ensures taken { io.new ≡ with_none io.new.retired io.old }
        ensures retired { length io.new.retired
            ≡ length io.old.retired + retired_by H.marks running.op now io.old.staged self.old }
        ensures goes_on { GoesOn (operations_in io.old.staged) (left_by_all io.old.staged running.spares) running result }
    {
        io.learn();
        let mut left = running;
        'calls: while let Some(call) = io.next() {
            let (goes_on, state) = self.commit_one(table, left, call, now);
            retire_if(io, state);
            left = goes_on;
        }
        left
    }
}
