// What each step on the table tells. These types are for the proofs alone.
ghost use Rattle.turn_table.specs.TurnSteps.{tried, rested, reached, gave, parted_left, parted_right, gathered_turns, spent_turns};

use crate::home::Home;
use crate::place::{TablePlace, TurnView};
use atomic_table::{Join, Play, Split};

pub struct Tries;

impl<T: Home> Play<TablePlace<T>, TurnView> for Tries {
    ghost then = { tried T.home_of };
}

pub struct Rests;

impl<T> Play<TablePlace<T>, TurnView> for Rests {
    ghost then = { rested };
}

pub struct Reaches;

impl<T> Play<TablePlace<T>, TurnView> for Reaches {
    ghost then = { reached };
}

pub struct GivesTurn;

impl<T> Play<TablePlace<T>, TurnView> for GivesTurn {
    ghost then = { gave };
}

pub struct PartsTurns;

impl Split<TurnView> for PartsTurns {
    ghost left = { parted_left };

    ghost right = { parted_right };
}

pub struct GathersTurns;

impl Join<TurnView> for GathersTurns {
    ghost both = { gathered_turns };

    ghost spent = { spent_turns };
}
