ghost use Rattle.std.specs.Prelude.{◌≡◌, ◌∷◌, None};
ghost use Rattle.io_rules.specs.Legal.{MayHappen, state_of};
ghost use Rattle.io_scheduler.specs.Outside.{IsOutside};

use crate::section::Section;
use io_history::{Happening, HistoryTable, Keeper, Named};
use io_rules::Name;
use io_strands::ReadyOp;

/// Notes what happens outside of all handlers.
pub(crate) fn note_outside<C: Named, E: Happening>(table: &HistoryTable, keeper: &mut Keeper<C>)
    requires table { table.now ≡ C.table }
    requires outside { IsOutside E.event }
    requires may { MayHappen (state_of C.limits keeper.old.past) E.event }
    requires none { keeper.old.held ≡ None }
    ensures may { MayHappen (state_of C.limits keeper.old.past) E.event }
    ensures past { keeper.new.past ≡ E.event ∷ keeper.old.past }
    ensures none { keeper.new.held ≡ None }
{
    keeper.note::<E>(table);
}

/// Likewise, and answers the critical section.
pub(crate) fn note_section<C: Named, E: Happening>(
    table: &HistoryTable,
    keeper: &mut Keeper<C>,
) -> Section<C>
    requires table { table.now ≡ C.table }
    requires outside { IsOutside E.event }
    requires may { MayHappen (state_of C.limits keeper.old.past) E.event }
    requires none { keeper.old.held ≡ None }
    ensures may { MayHappen (state_of C.limits keeper.old.past) E.event }
    ensures past { keeper.new.past ≡ E.event ∷ keeper.old.past }
    ensures none { keeper.new.held ≡ None }
    ensures before { result.before ≡ keeper.old.past }
    ensures after { result.after ≡ E.event ∷ keeper.old.past }
{
    let before = keeper.tell(table);
    note_outside::<C, E>(table, keeper);
    let after = keeper.tell(table);
    Section { before, after }
}

/// Likewise of what happens to this name.
pub(crate) fn note_named<C: Named, E: Happening>(
    table: &HistoryTable,
    keeper: &mut Keeper<C>,
    name: Name,
) -> Section<C>
    requires table { table.now ≡ C.table }
    requires outside { IsOutside E.event }
    requires may { MayHappen (state_of C.limits keeper.old.past) E.event }
    requires none { keeper.old.held ≡ None }
    ensures may { MayHappen (state_of C.limits keeper.old.past) E.event }
    ensures past { keeper.new.past ≡ E.event ∷ keeper.old.past }
    ensures none { keeper.new.held ≡ None }
    ensures before { result.before ≡ keeper.old.past }
    ensures after { result.after ≡ E.event ∷ keeper.old.past }
{
    note_section::<C, E>(table, keeper)
}

/// Likewise of what happens to this operation.
pub(crate) fn note_of<H, C: Named, E: Happening>(
    table: &HistoryTable,
    keeper: &mut Keeper<C>,
    ready: &ReadyOp<H>,
)
    requires table { table.now ≡ C.table }
    requires outside { IsOutside E.event }
    requires may { MayHappen (state_of C.limits keeper.old.past) E.event }
    requires none { keeper.old.held ≡ None }
    ensures may { MayHappen (state_of C.limits keeper.old.past) E.event }
    ensures past { keeper.new.past ≡ E.event ∷ keeper.old.past }
    ensures none { keeper.new.held ≡ None }
{
    note_outside::<C, E>(table, keeper);
}
