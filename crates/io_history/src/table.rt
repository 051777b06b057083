ghost use Rattle.std.specs.Prelude.{◌≡◌, IfOk};
ghost use Rattle.io_history.specs.Seats.{IsFirstSeat};

use crate::step::Legal;
use crate::view::View;
use asio_types::NoMemory;
use atomic_table::{Seat, Table};
use io_rules::Limits;
use std::alloc::Global;
use std::marker::Model;

pub(crate) type EventTable = Table<u64, View, Limits, Legal, Global>;

/// A seat of a history.
pub type HistorySeat = Seat<u64, View>;

/// What a history is stepped on: one word. Contracts see which one it is.
#[derive(Drop)]
pub struct HistoryTable {
    pub(crate) events: EventTable,
}

impl Model for HistoryTable {
    ghost use Rattle.std.specs.Prelude.{◌<◌};
    ghost use Rattle.atomic_table.specs.Seated.{TableId};

    ghost Value = { TableId };

    ghost view = { λ t. t.events.shared.table_id };

    ghost invariant = { λ t. 0 < t.events.shared.table_id.words };
}

impl HistoryTable {
    /// An empty history of a context with such limits, and the seat of its keeper. Takes memory for one
    /// word.
    pub fn make(alloc: Global, limits: Limits) -> Result<(HistoryTable, HistorySeat), NoMemory>
        ensures { IfOk result (λ made. IsFirstSeat limits made.0 made.1.table_id made.1.me) }
    {
        let words = [0];
        let (events, seat) = EventTable::of_words(alloc, &words, &limits)?;
        Ok((HistoryTable { events }, seat))
    }
}
