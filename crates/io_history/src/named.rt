use std::marker::Brand;
use std::sync::ledger::Ledger;

/// Names a context's history, for contracts alone: its table, what the context has room for, and the
/// ledger of the handlers that were executed.
pub trait Named: Ledger {
    ghost use Rattle.atomic_table.specs.Seated.{TableId};
    ghost use Rattle.io_rules.specs.declared.limits.Limits.{Limits};

    /// The table of its history.
    ghost table: { TableId };

    /// What it has room for.
    ghost limits: { Limits };
}

impl Named for Brand {
    ghost use Rattle.io_history.specs.Names.{no_limits, no_table};

    ghost table = { no_table };

    ghost limits = { no_limits };
}

/// Names an event, for contracts alone.
pub trait Happening {
    ghost use Rattle.io_rules.specs.declared.event.Event.{Event};

    ghost event: { Event };
}

impl Happening for Brand {
    ghost use Rattle.io_rules.specs.declared.event.Event.TheVariants as event;

    ghost event = { event.Returned };
}
