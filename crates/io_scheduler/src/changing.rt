ghost use Rattle.std.specs.Prelude.{◌≡◌, ◌∷◌, [], false, true, None, Some};
ghost use Rattle.io_rules.specs.declared.control.Control.TheVariants as control;
ghost use Rattle.io_rules.specs.declared.event.Event.TheVariants as event;
ghost use Rattle.io_rules.specs.declared.name.Kind.TheVariants as kind;
ghost use Rattle.io_rules.specs.Legal.{MayHappen, state_of};
ghost use Rattle.io_rules.specs.Names.{is_alive};
ghost use Rattle.io_rules.specs.Spares.{spare_of, without_spare};
ghost use Rattle.io_history.specs.Steps.{held_op, held_still};
ghost use Rattle.io_scheduler.specs.Come.{HaveCome, IsChanged};
ghost use Rattle.io_scheduler.specs.Staged.{GoesOn};
ghost use Rattle.io_scheduler.specs.Timing.{control_of};

use crate::running::Running;
use crate::scheduler::Scheduler;
use crate::timing::{TimerChange, abort_those, apply};
use io_handlers::{Handler, without_spare};
use io_history::{Happening, HistoryTable, Keeper, Named};
use io_rules::{Kind, Name};
use std::marker::Brand;

/// Notes that the handler that is held changes a timer.
fn note_change_by<C: Named, E: Happening>(
    table: &HistoryTable,
    keeper: &mut Keeper<C>,
    by: u64,
    timer: Name,
    change: TimerChange,
)
    requires table { table.now ≡ C.table }
    requires event { E.event ≡ event.Changed (Some by) (control_of timer change) }
    requires may { MayHappen (state_of C.limits keeper.old.past) E.event }
    requires held { held_op keeper.old.held ≡ Some by }
    ensures past { keeper.new.past ≡ event.Changed (Some by) (control_of timer change) ∷ keeper.old.past }
    ensures held { keeper.new.held ≡ held_still (state_of C.limits
        (event.Changed (Some by) (control_of timer change) ∷ keeper.old.past)) keeper.old.held }
{
    keeper.note::<E>(table);
}

/// A handler that executes changes a timer; what this cancels doesn't complete yet.
fn begin_change<C: Named>(
    table: &HistoryTable,
    keeper: &mut Keeper<C>,
    running: Running<C>,
    timer: Name,
    change: TimerChange,
) -> Running<C>
    requires table { table.now ≡ C.table }
    requires none { keeper.old.held ≡ None }
    requires going { (state_of C.limits keeper.old.past).finishing ≡ false }
    ensures come { HaveCome C.limits (event.Changed (Some running.op) (control_of timer change) ∷ [])
        keeper.old.past keeper.new.past }
    ensures none { keeper.new.held ≡ None }
    ensures goes_on { GoesOn 0 running.spares running result }
{
    let Running {
        claim,
        op: by,
        lane,
        own,
        grant,
        spares,
    } = running;
    keeper.take_back(table, claim);
    note_change_by::<C, Brand>(table, keeper, by, timer, change);
    let claim = keeper.give_out(table);
    Running {
        claim,
        op: by,
        lane,
        own,
        grant,
        spares,
    }
}

/// Notes that the handler that is held makes something under a name.
fn note_made_by<C: Named, E: Happening>(
    table: &HistoryTable,
    keeper: &mut Keeper<C>,
    by: u64,
    kind: Kind,
    name: Name,
)
    requires table { table.now ≡ C.table }
    requires event { E.event ≡ event.Changed (Some by) (control.Make kind name) }
    requires may { MayHappen (state_of C.limits keeper.old.past) E.event }
    requires held { held_op keeper.old.held ≡ Some by }
    ensures past { keeper.new.past ≡ event.Changed (Some by) (control.Make kind name) ∷ keeper.old.past }
    ensures held { keeper.new.held ≡ held_still (state_of C.limits
        (event.Changed (Some by) (control.Make kind name) ∷ keeper.old.past)) keeper.old.held }
{
    keeper.note::<E>(table);
}

/// A handler that executes makes something under a name that is kept for it.
pub(crate) fn begin_make<C: Named>(
    table: &HistoryTable,
    keeper: &mut Keeper<C>,
    running: Running<C>,
    kind: Kind,
    name: Name,
) -> Running<C>
    requires table { table.now ≡ C.table }
    requires none { keeper.old.held ≡ None }
    requires going { (state_of C.limits keeper.old.past).finishing ≡ false }
    requires kept { spare_of kind running.spares ≡ Some name }
    ensures come { HaveCome C.limits (event.Changed (Some running.op) (control.Make kind name) ∷ [])
        keeper.old.past keeper.new.past }
    ensures none { keeper.new.held ≡ None }
    ensures goes_on { GoesOn 0 (without_spare kind running.spares) running result }
{
    let Running {
        claim,
        op: by,
        lane,
        own,
        grant,
        spares,
    } = running;
    keeper.take_back(table, claim);
    note_made_by::<C, Brand>(table, keeper, by, kind, name);
    let claim = keeper.give_out(table);
    Running {
        claim,
        op: by,
        lane,
        own,
        grant,
        spares: without_spare(kind, spares),
    }
}

impl<H: Handler, C: Named> Scheduler<H, C> {
    /// A handler that executes makes a timer under a name that is kept for it.
    pub(crate) fn make_timer_by(
        &mut self,
        table: &HistoryTable,
        running: Running<C>,
        name: Name,
    ) -> Running<C>
        requires table { table.now ≡ C.table }
        requires kept { running.spares.timer ≡ Some name }
        ensures changed { IsChanged (Some running.op) (control.Make kind.Timer name) self.old self.new }
        ensures goes_on { GoesOn 0 (without_spare kind.Timer running.spares) running result }
    {
        let left = begin_make(table, &mut self.keeper, running, Kind::Timer, name);
        self.names.timers.open(name);
        left
    }

    /// A handler that executes changes a timer, and what this cancels completes. No effect where the timer's
    /// name is gone.
    pub(crate) fn change_timer_by(
        &mut self,
        table: &HistoryTable,
        running: Running<C>,
        timer: Name,
        change: TimerChange,
    ) -> Running<C>
        requires table { table.now ≡ C.table }
        ensures changed { IsChanged (Some running.op) (control_of timer change) self.old self.new }
        ensures goes_on { GoesOn 0 running.spares running result }
    {
        if self.names.timers.is_alive(timer) {
            self.change_alive_by(table, running, timer, change)
        } else {
            self.change_gone_by(table, running, timer, change)
        }
    }

    /// Likewise, where the name is there.
    fn change_alive_by(
        &mut self,
        table: &HistoryTable,
        running: Running<C>,
        timer: Name,
        change: TimerChange,
    ) -> Running<C>
        requires table { table.now ≡ C.table }
        requires alive { is_alive self.old.names.timers timer ≡ true }
        ensures changed { IsChanged (Some running.op) (control_of timer change) self.old self.new }
        ensures goes_on { GoesOn 0 running.spares running result }
    {
        self.keeper.learn(table);
        let left = begin_change(table, &mut self.keeper, running, timer, change);
        abort_those(
            table,
            &mut self.keeper,
            &self.counts,
            &self.names,
            &mut self.timers,
            &mut self.strands,
            &mut self.jobs,
            &mut self.tally,
            timer,
            change.cancels_all(),
        );
        apply(&mut self.timers, &mut self.names, timer, change);
        left
    }

    /// Likewise, where the name is gone.
    fn change_gone_by(
        &mut self,
        table: &HistoryTable,
        running: Running<C>,
        timer: Name,
        change: TimerChange,
    ) -> Running<C>
        requires table { table.now ≡ C.table }
        requires gone { is_alive self.old.names.timers timer ≡ false }
        ensures changed { IsChanged (Some running.op) (control_of timer change) self.old self.new }
        ensures goes_on { GoesOn 0 running.spares running result }
    {
        begin_change(table, &mut self.keeper, running, timer, change)
    }
}
