ghost use Rattle.std.specs.Prelude.{◌≡◌, ◌<◌, ◌+◌, ◌∷◌, None, Some};
ghost use Rattle.io_rules.specs.declared.control.Control.TheVariants as control;
ghost use Rattle.io_rules.specs.declared.event.Event.TheVariants as event;
ghost use Rattle.io_rules.specs.declared.request.Gone.TheVariants as gone;
ghost use Rattle.io_rules.specs.Legal.{MayHappen, state_of};
ghost use Rattle.io_rules.specs.Ops.{op_at};
ghost use Rattle.io_history.specs.Steps.{held_op, held_still, holding};
ghost use Rattle.io_scheduler.specs.Posted.{posting};

use crate::section::Section;
use io_handlers::Handler;
use io_history::{Happening, HistoryTable, Keeper, Named};
use io_rules::{Gone, Lane, Operation, Spares};
use std::sync::ledger::Share;

/// Notes that an operation is posted from outside, and answers the critical section.
pub(crate) fn note_posted<H: Handler, C: Named, E: Happening>(
    table: &HistoryTable,
    keeper: &mut Keeper<C>,
    op: u64,
    lane: Lane,
    kind: Operation,
    handler: &H,
) -> Section<C>
    requires table { table.now ≡ C.table }
    requires event { E.event ≡ event.Called op None (posting lane kind (H.marks handler.now)) gone.Nothing }
    requires may { MayHappen (state_of C.limits keeper.old.past) E.event }
    requires none { keeper.old.held ≡ None }
    ensures past { keeper.new.past ≡ E.event ∷ keeper.old.past }
    ensures none { keeper.new.held ≡ None }
    ensures before { result.before ≡ keeper.old.past }
    ensures after { result.after ≡ E.event ∷ keeper.old.past }
{
    let before = keeper.tell(table);
    keeper.note::<E>(table);
    let after = keeper.tell(table);
    Section { before, after }
}

/// Notes that a handler begins, and holds its operation.
pub(crate) fn note_begun<C: Named, E: Happening>(
    table: &HistoryTable,
    keeper: &mut Keeper<C>,
    op: u64,
    spares: Spares,
)
    requires table { table.now ≡ C.table }
    requires event { E.event ≡ event.Begun op spares }
    requires may { MayHappen (state_of C.limits keeper.old.past) E.event }
    requires none { keeper.old.held ≡ None }
    ensures may { MayHappen (state_of C.limits keeper.old.past) (event.Begun op spares) }
    ensures past { keeper.new.past ≡ event.Begun op spares ∷ keeper.old.past }
    ensures held { keeper.new.held
        ≡ holding op (op_at (state_of C.limits (event.Begun op spares ∷ keeper.old.past)).ops op) }
{
    keeper.note::<E>(table);
}

/// Notes that what is held has returned its mark, which counts in the share of whoever executed it.
pub(crate) fn note_ended<C: Named, E: Happening>(
    table: &HistoryTable,
    keeper: &mut Keeper<C>,
    by: &mut Share<C>,
    op: u64,
    mark: u64,
)
    requires table { table.now ≡ C.table }
    requires event { E.event ≡ event.Ended op mark }
    requires may { MayHappen (state_of C.limits keeper.old.past) E.event }
    requires held { held_op keeper.old.held ≡ Some op }
    requires part { 0 < by.old.parts }
    ensures may { MayHappen (state_of C.limits keeper.old.past) (event.Ended op mark) }
    ensures past { keeper.new.past ≡ event.Ended op mark ∷ keeper.old.past }
    ensures none { keeper.new.held ≡ None }
    ensures counted { by.new.amount ≡ by.old.amount + 1 }
    ensures parts { by.new.parts ≡ by.old.parts }
{
    keeper.note_end::<E>(table, by);
}

/// Notes that the handler that is held initiates an operation.
pub(crate) fn note_called<H: Handler, C: Named, E: Happening>(
    table: &HistoryTable,
    keeper: &mut Keeper<C>,
    op: u64,
    by: u64,
    lane: Lane,
    kind: Operation,
    handler: &H,
    given: Gone,
)
    requires table { table.now ≡ C.table }
    requires event { E.event ≡ event.Called op (Some by) (posting lane kind (H.marks handler.now)) given }
    requires may { MayHappen (state_of C.limits keeper.old.past) E.event }
    requires held { held_op keeper.old.held ≡ Some by }
    ensures past { keeper.new.past
        ≡ event.Called op (Some by) (posting lane kind (H.marks handler.now)) given ∷ keeper.old.past }
    ensures held { keeper.new.held ≡ held_still (state_of C.limits
        (event.Called op (Some by) (posting lane kind (H.marks handler.now)) given ∷ keeper.old.past)) keeper.old.held }
{
    keeper.note::<E>(table);
}

/// Notes that the handler that is held stops the context.
pub(crate) fn note_stopped_by<C: Named, E: Happening>(
    table: &HistoryTable,
    keeper: &mut Keeper<C>,
    by: u64,
)
    requires table { table.now ≡ C.table }
    requires event { E.event ≡ event.Changed (Some by) control.Stop }
    requires may { MayHappen (state_of C.limits keeper.old.past) E.event }
    requires held { held_op keeper.old.held ≡ Some by }
    ensures past { keeper.new.past ≡ event.Changed (Some by) control.Stop ∷ keeper.old.past }
    ensures held { keeper.new.held
        ≡ held_still (state_of C.limits (event.Changed (Some by) control.Stop ∷ keeper.old.past)) keeper.old.held }
{
    keeper.note::<E>(table);
}
