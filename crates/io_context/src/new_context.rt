ghost use Rattle.std.specs.Prelude.{◌≡◌, IfOk};

use asio_types::NoMemory;
use io_history::{HistorySeat, HistoryTable};
use io_rules::Limits;
use std::alloc::Global;
use std::marker::Model;
use std::sync::ledger::Blank;

/// What a context is made of: its empty history, and what it is to have room for. Contracts see both, and a
/// type that is bound by `Named` stands for them.
pub struct NewContext {
    pub(crate) table: HistoryTable,
    pub(crate) seat: HistorySeat,
    pub(crate) limits: Limits,
    // how many handlers each worker has executed
    pub(crate) ledger: Blank,
}

impl Model for NewContext {
    ghost use Rattle.std.specs.Prelude.{◌≡◌};
    ghost use Rattle.io_history.specs.Seats.{IsFirstSeat};
    ghost use Rattle.io_context.specs.Naming.{Naming, most_parts};

    ghost Value = { Naming };

    ghost view = { λ n. record {
      table = n.table;
      limits = n.limits;
      name = n.ledger.name;
      parts = n.ledger.parts;
    } };

    ghost invariant = { λ n. IsFirstSeat n.limits n.table n.seat.table_id n.seat.me
        × (n.ledger.parts ≡ most_parts) };
}

impl NewContext {
    /// An empty history of a context with such limits. Takes memory for one word; `NoMemory` where it is
    /// refused.
    pub fn with_limits(alloc: Global, limits: Limits) -> Result<NewContext, NoMemory>
        ensures { IfOk result (λ new. new.limits ≡ limits) }
    {
        let (table, seat) = HistoryTable::make(alloc, limits)?;
        Ok(NewContext {
            table,
            seat,
            limits,
            ledger: Blank::new(u64::MAX),
        })
    }
}
