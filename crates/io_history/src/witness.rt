use crate::named::Named;
use crate::table::HistorySeat;
use std::marker::{Model, PhantomData};

/// What was so far when it was given out: the history of that moment, which all later ones end with.
#[derive(Drop)]
pub struct Witness<C: Named> {
    pub(crate) seat: HistorySeat,
    pub(crate) of: PhantomData<C>,
}

impl<C: Named> Model for Witness<C> {
    ghost use Rattle.std.specs.Prelude.{◌≡◌, List, None};
    ghost use Rattle.io_rules.specs.declared.event.Event.{Event};
    ghost use Rattle.io_history.specs.Seats.{IsOther};

    ghost Value = { List Event };

    ghost view = { λ w. w.seat.me.0.told };

    ghost invariant = { λ w. IsOther C.table w.seat.table_id w.seat.me × (w.seat.me.0.held ≡ None) };
}
