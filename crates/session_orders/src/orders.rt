ghost use Rattle.std.specs.Prelude.{◌≡◌};
ghost use Rattle.session_orders.specs.Listed.{events_in};

use history_book::History;
use std::marker::Model;

/// Legal whole histories of a script, none of them twice.
#[derive(Drop)]
pub struct Orders {
    histories: Vec<History>,
    all: bool,
}

impl Model for Orders {
    ghost use Rattle.session_orders.specs.Listed.{Listed, events_in};

    ghost Value = { Listed };

    ghost view = { λ o. record { orders = events_in o.histories.items; all = o.all } };
}

impl Orders {
    /// These histories, and whether there are no others.
    pub(crate) fn of(histories: Vec<History>, all: bool) -> Orders
        ensures orders { result.orders ≡ events_in histories.items }
        ensures all { result.all ≡ all }
    {
        Orders { histories, all }
    }

    /// The histories, in the order in which they were found.
    pub fn histories(&self) -> &[History]
        ensures { events_in result.now ≡ self.now.orders }
    {
        self.histories.as_slice()
    }

    /// Whether there are no others.
    pub fn are_all(&self) -> bool
        ensures { result ≡ self.now.all }
    {
        self.all
    }
}
