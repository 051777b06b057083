ghost use Rattle.std.specs.Prelude.{◌≡◌, ◌∷◌, [], false, true, None, Some};
ghost use Rattle.io_rules.specs.declared.control.Control.TheVariants as control;
ghost use Rattle.io_rules.specs.declared.event.Event.TheVariants as event;
ghost use Rattle.io_rules.specs.Changes.{is_there};
ghost use Rattle.io_rules.specs.Legal.{MayHappen, state_of};
ghost use Rattle.io_history.specs.Steps.{held_op, held_still};
ghost use Rattle.io_scheduler.specs.Closing.{frees};
ghost use Rattle.io_scheduler.specs.Come.{HaveCome, LeadTo};
ghost use Rattle.io_scheduler.specs.Opened.{socket_kind};
ghost use Rattle.io_scheduler.specs.Staged.{GoesOn};

use crate::closing::{close_freed, mark_tried};
use crate::running::Running;
use crate::scheduler::Scheduler;
use io_handlers::Handler;
use io_history::{Happening, HistoryTable, Keeper, Named};
use io_rules::Name;
use std::marker::Brand;

/// Notes that the handler that is held closes a stream or a listener.
fn note_closed_by<C: Named, E: Happening>(
    table: &HistoryTable,
    keeper: &mut Keeper<C>,
    by: u64,
    name: Name,
    listener: bool,
)
    requires table { table.now ≡ C.table }
    requires event { E.event ≡ event.Changed (Some by) (control.Free (socket_kind listener) name) }
    requires may { MayHappen (state_of C.limits keeper.old.past) E.event }
    requires held { held_op keeper.old.held ≡ Some by }
    ensures past { keeper.new.past ≡ event.Changed (Some by) (control.Free (socket_kind listener) name) ∷ keeper.old.past }
    ensures held { keeper.new.held ≡ held_still (state_of C.limits
        (event.Changed (Some by) (control.Free (socket_kind listener) name) ∷ keeper.old.past)) keeper.old.held }
{
    keeper.note::<E>(table);
}

/// A handler that executes closes a stream or a listener; what was pending on it doesn't complete yet.
fn begin_close<C: Named>(
    table: &HistoryTable,
    keeper: &mut Keeper<C>,
    running: Running<C>,
    name: Name,
    listener: bool,
) -> Running<C>
    requires table { table.now ≡ C.table }
    requires none { keeper.old.held ≡ None }
    requires going { (state_of C.limits keeper.old.past).finishing ≡ false }
    ensures come { HaveCome C.limits (event.Changed (Some running.op) (control.Free (socket_kind listener) name) ∷ [])
        keeper.old.past keeper.new.past }
    ensures none { keeper.new.held ≡ None }
    ensures goes_on { GoesOn 0 running.spares running result }
{
    let Running {
        claim,
        op: by,
        lane,
        own,
        grant,
        spares,
    } = running;
    keeper.take_back(table, claim);
    note_closed_by::<C, Brand>(table, keeper, by, name, listener);
    let claim = keeper.give_out(table);
    Running {
        claim,
        op: by,
        lane,
        own,
        grant,
        spares,
    }
}

impl<H: Handler, C: Named> Scheduler<H, C> {
    /// A handler that executes closes a stream or a listener, and what is pending on it completes. No effect
    /// where no such thing is there.
    pub(crate) fn close_by(
        &mut self,
        table: &HistoryTable,
        running: Running<C>,
        name: Name,
        listener: bool,
    ) -> Running<C>
        requires table { table.now ≡ C.table }
        ensures changed { LeadTo (frees (Some running.op) (socket_kind listener) name self.old) self.old self.new }
        ensures goes_on { GoesOn 0 running.spares running result }
    {
        if self.has_socket(name, listener) {
            self.close_alive_by(table, running, name, listener)
        } else {
            self.close_gone_by(table, running, name, listener)
        }
    }

    /// Whether a listener, or a stream, of this name is there.
    fn has_socket(&self, name: Name, listener: bool) -> bool
        ensures { result ≡ is_there self.now (socket_kind listener) name }
    {
        if !self.names.streams.is_alive(name) {
            return false;
        }
        self.streams.is_listener(name) == listener
    }

    /// Likewise, where it is there.
    fn close_alive_by(
        &mut self,
        table: &HistoryTable,
        running: Running<C>,
        name: Name,
        listener: bool,
    ) -> Running<C>
        requires table { table.now ≡ C.table }
        requires there { is_there self.old (socket_kind listener) name ≡ true }
        ensures changed { LeadTo (frees (Some running.op) (socket_kind listener) name self.old) self.old self.new }
        ensures goes_on { GoesOn 0 running.spares running result }
    {
        self.keeper.learn(table);
        self.streams.holds();
        mark_tried(&mut self.streams, name);
        let left = begin_close(table, &mut self.keeper, running, name, listener);
        close_freed(
            table,
            &mut self.keeper,
            &self.counts,
            &mut self.names,
            &self.timers,
            &mut self.streams,
            &mut self.strands,
            &mut self.jobs,
            &mut self.tally,
            name,
        );
        left
    }

    /// Likewise, where it isn't.
    fn close_gone_by(
        &mut self,
        table: &HistoryTable,
        running: Running<C>,
        name: Name,
        listener: bool,
    ) -> Running<C>
        requires table { table.now ≡ C.table }
        requires gone { is_there self.old (socket_kind listener) name ≡ false }
        ensures changed { LeadTo (frees (Some running.op) (socket_kind listener) name self.old) self.old self.new }
        ensures goes_on { GoesOn 0 running.spares running result }
    {
        begin_close(table, &mut self.keeper, running, name, listener)
    }
}
