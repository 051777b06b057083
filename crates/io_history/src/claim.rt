use crate::named::Named;
use crate::table::HistorySeat;
use std::marker::{Model, PhantomData};

/// That an operation's handler executes, by whoever has this. The keeper takes it back when the handler
/// has returned; it can't be lost. Contracts see what it holds, and what was so far when it was given out.
pub struct Claim<C: Named> {
    pub(crate) seat: HistorySeat,
    pub(crate) of: PhantomData<C>,
}

impl<C: Named> Model for Claim<C> {
    ghost use Rattle.io_history.specs.Seats.{Claimed, IsOther, claimed_by};

    ghost Value = { Claimed };

    ghost view = { λ c. claimed_by c.seat.me };

    ghost invariant = { λ c. IsOther C.table c.seat.table_id c.seat.me };
}
