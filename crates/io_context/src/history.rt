ghost use Rattle.std.specs.Prelude.{◌≡◌};
ghost use Rattle.io_rules.specs.History.{is_over, times};
ghost use Rattle.io_history.specs.Rule.{EndsWith};

use io_history::{HistoryTable, Keeper, Named};
use io_rules::each_handler_is_called_once;
use io_scheduler::{Receipt, Section};
use std::marker::Model;

/// The whole history of a context that was finished; it exists in proofs alone. Contracts see its events,
/// newest first.
#[derive(Drop)]
pub struct History<C: Named> {
    pub(crate) table: HistoryTable,
    pub(crate) keeper: Keeper<C>,
}

impl<C: Named> Model for History<C> {
    ghost use Rattle.std.specs.Prelude.{◌≡◌, List, None};
    ghost use Rattle.io_rules.specs.declared.event.Event.{Event};
    ghost use Rattle.io_rules.specs.Legal.{IsLegal, IsWhole, state_of};

    ghost Value = { List Event };

    ghost view = { λ h. h.keeper.past };

    ghost invariant = { λ h. (h.table ≡ C.table) × (h.keeper.held ≡ None)
        × IsLegal C.limits h.keeper.past × IsWhole (state_of C.limits h.keeper.past) };
}

impl<C: Named> History<C> {
    /// The call of a receipt stands in the history, and its handler was executed to its end once, or discarded
    /// once.
    pub fn shows(&mut self, receipt: Receipt<C>)
        ensures same { self.new ≡ self.old }
        ensures called { EndsWith self.new receipt.section.after }
        ensures over { times (is_over receipt.op) self.new ≡ 1 }
    {
        let Receipt { op: _, section } = receipt;
        let Section { before: _, after } = section;
        each_handler_is_called_once();
        self.keeper.meet(&self.table, after);
    }

    /// What a critical section noted stands in the history.
    pub fn meets(&mut self, section: Section<C>)
        ensures same { self.new ≡ self.old }
        ensures met { EndsWith self.new section.after }
    {
        let Section { before: _, after } = section;
        self.keeper.meet(&self.table, after);
    }
}
