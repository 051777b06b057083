ghost use Rattle.std.specs.Prelude.{◌≡◌, ◌∷◌, [], false, true, None, Some};
ghost use Rattle.std.specs.Option.{is_some};
ghost use Rattle.io_rules.specs.declared.control.Control.TheVariants as control;
ghost use Rattle.io_rules.specs.declared.event.Event.TheVariants as event;
ghost use Rattle.io_rules.specs.declared.name.Kind.TheVariants as kind;
ghost use Rattle.io_rules.specs.Changes.{is_forgotten};
ghost use Rattle.io_rules.specs.Legal.{MayHappen, state_of};
ghost use Rattle.io_rules.specs.Names.{is_alive};
ghost use Rattle.io_rules.specs.Spares.{without_spare};
ghost use Rattle.io_history.specs.Steps.{held_op, held_still};
ghost use Rattle.io_scheduler.specs.Come.{HaveCome, IsChanged};
ghost use Rattle.io_scheduler.specs.Staged.{GoesOn};

use crate::changing::begin_make;
use crate::running::Running;
use crate::scheduler::Scheduler;
use crate::stranding::{free_at, open_at};
use io_handlers::Handler;
use io_history::{Happening, HistoryTable, Keeper, Named};
use io_rules::{Kind, Name};
use std::marker::Brand;

/// Notes that the handler that is held frees a strand.
fn note_freed_by<C: Named, E: Happening>(
    table: &HistoryTable,
    keeper: &mut Keeper<C>,
    by: u64,
    name: Name,
)
    requires table { table.now ≡ C.table }
    requires event { E.event ≡ event.Changed (Some by) (control.Free kind.Strand name) }
    requires may { MayHappen (state_of C.limits keeper.old.past) E.event }
    requires held { held_op keeper.old.held ≡ Some by }
    ensures past { keeper.new.past ≡ event.Changed (Some by) (control.Free kind.Strand name) ∷ keeper.old.past }
    ensures held { keeper.new.held ≡ held_still (state_of C.limits
        (event.Changed (Some by) (control.Free kind.Strand name) ∷ keeper.old.past)) keeper.old.held }
{
    keeper.note::<E>(table);
}

/// A handler that executes frees a strand.
fn begin_free<C: Named>(
    table: &HistoryTable,
    keeper: &mut Keeper<C>,
    running: Running<C>,
    name: Name,
) -> Running<C>
    requires table { table.now ≡ C.table }
    requires none { keeper.old.held ≡ None }
    requires going { (state_of C.limits keeper.old.past).finishing ≡ false }
    ensures come { HaveCome C.limits (event.Changed (Some running.op) (control.Free kind.Strand name) ∷ [])
        keeper.old.past keeper.new.past }
    ensures none { keeper.new.held ≡ None }
    ensures goes_on { GoesOn 0 running.spares running result }
{
    let Running {
        claim,
        op: by,
        lane,
        own,
        grant,
        spares,
    } = running;
    keeper.take_back(table, claim);
    note_freed_by::<C, Brand>(table, keeper, by, name);
    let claim = keeper.give_out(table);
    Running {
        claim,
        op: by,
        lane,
        own,
        grant,
        spares,
    }
}

impl<H: Handler, C: Named> Scheduler<H, C> {
    /// A handler that executes makes a strand with this state, under a name that is kept for it.
    pub(crate) fn make_strand_by(
        &mut self,
        table: &HistoryTable,
        running: Running<C>,
        name: Name,
        state: H::State,
    ) -> Running<C>
        requires table { table.now ≡ C.table }
        requires kept { running.spares.strand ≡ Some name }
        ensures changed { IsChanged (Some running.op) (control.Make kind.Strand name) self.old self.new }
        ensures goes_on { GoesOn 0 (without_spare kind.Strand running.spares) running result }
    {
        self.keeper.learn(table);
        let left = begin_make(table, &mut self.keeper, running, Kind::Strand, name);
        self.names.strands.open(name);
        open_at(&mut self.strands, name.place, state);
        left
    }

    /// A handler that executes frees a strand. What the strand has still executes there; answers its state, to
    /// be retired, where it has no operation. No effect where its name is gone.
    pub(crate) fn free_strand_by(
        &mut self,
        table: &HistoryTable,
        running: Running<C>,
        name: Name,
    ) -> (Running<C>, Option<H::State>)
        requires table { table.now ≡ C.table }
        ensures changed { IsChanged (Some running.op) (control.Free kind.Strand name) self.old self.new }
        ensures goes_on { GoesOn 0 running.spares running result.0 }
        ensures retired { is_some result.1 ≡ is_forgotten self.old kind.Strand name }
    {
        if self.names.strands.is_alive(name) {
            self.free_alive_by(table, running, name)
        } else {
            (self.free_gone_by(table, running, name), None)
        }
    }

    /// Likewise, where the name is there.
    fn free_alive_by(
        &mut self,
        table: &HistoryTable,
        running: Running<C>,
        name: Name,
    ) -> (Running<C>, Option<H::State>)
        requires table { table.now ≡ C.table }
        requires alive { is_alive self.old.names.strands name ≡ true }
        ensures changed { IsChanged (Some running.op) (control.Free kind.Strand name) self.old self.new }
        ensures goes_on { GoesOn 0 running.spares running result.0 }
        ensures retired { is_some result.1 ≡ is_forgotten self.old kind.Strand name }
    {
        self.keeper.learn(table);
        let left = begin_free(table, &mut self.keeper, running, name);
        let state = free_at(&mut self.names.strands, &mut self.strands, name);
        (left, state)
    }

    /// Likewise, where the name is gone.
    fn free_gone_by(&mut self, table: &HistoryTable, running: Running<C>, name: Name) -> Running<C>
        requires table { table.now ≡ C.table }
        requires gone { is_alive self.old.names.strands name ≡ false }
        ensures changed { IsChanged (Some running.op) (control.Free kind.Strand name) self.old self.new }
        ensures goes_on { GoesOn 0 running.spares running result }
        ensures none { is_forgotten self.old kind.Strand name ≡ false }
    {
        begin_free(table, &mut self.keeper, running, name)
    }
}
