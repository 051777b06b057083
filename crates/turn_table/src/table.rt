use crate::home::Home;
use crate::place::{Sizes, TablePlace, TurnView};
use atomic_table::{Table, TableRule};
use std::alloc::Global;
use std::marker::Model;

/// The rule that every step keeps.
pub struct Turns;

impl<T: Home> TableRule<TablePlace<T>, TurnView, Sizes> for Turns {
    ghost use Rattle.turn_table.specs.TurnRule.{TurnRule};
    ghost use Rattle.turn_table.specs.TurnSteps.{first_view};

    ghost holds = { TurnRule T.home_of };

    ghost first = { first_view };
}

/// One turn and one value for each lane. Workers share it by `&`; a step of one is seen by all.
/// Contracts see how many lanes and seat numbers it has, and which seats are its own.
#[derive(Drop)]
pub struct TurnTable<T: Home> {
    pub(crate) table: Table<TablePlace<T>, TurnView, Sizes, Turns, Global>,
}

impl<T: Home> Model for TurnTable<T> {
    ghost use Rattle.turn_table.specs.Seated.{Lanes, lanes_at, IsSized};

    ghost Value = { Lanes };

    ghost view = { λ t. lanes_at t.table.shared.table_id t.table.shared.key };

    ghost invariant = { λ t. IsSized t.table.shared.table_id t.table.shared.key };
}
