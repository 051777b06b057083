// Taking and giving turns, and what seats stand for.
ghost use Rattle.std.specs.Prelude.{◌≡◌, ◌<◌, [], IfSome, IfNone, IsSome};
ghost use Rattle.turn_table.specs.Seated.{IsSeatOf, StandsForAll, StandsForTwo, HasTurn};
ghost use Rattle.turn_table.specs.Seated.{with_turn, with_miss, without_turn, with_numbers_of};
ghost use Rattle.turn_table.specs.Seated.{without_greatest, greatest_alone};

use crate::home::Home;
use crate::place::TablePlace;
use crate::plays::{GathersTurns, GivesTurn, PartsTurns, Reaches, Rests, Tries};
use crate::seat::{TurnSeat, sit};
use crate::table::TurnTable;

impl<T: Home> TurnTable<T> {
    /// Takes a lane's turn and its value; waits for nobody. `None` exactly where the turn was held
    /// at this step: by this seat itself, or by another, and then the lane is added to this seat's
    /// misses. A seat that stands for all numbers gets every turn that it hasn't itself. Two steps
    /// on the lane's word; no memory.
    pub fn take_turn(&self, seat: &mut TurnSeat, lane: u32) -> Option<T>
        requires seat { IsSeatOf self.now seat.old }
        requires lane { lane < self.now.lanes }
        ensures home { IfSome result (λ value. T.home_of value ≡ lane) }
        ensures free { IfSome result (λ _. ¬ HasTurn seat.old lane) }
        ensures taken { IfSome result (λ _. seat.new ≡ with_turn lane seat.old) }
        ensures held { IfNone result (seat.new ≡ with_miss lane seat.old) }
        ensures found { StandsForAll seat.old → (¬ HasTurn seat.old lane) → IsSome result }
    {
        let shared = &self.table.shared;
        let word = lane as usize;
        let mut at = sit(&mut seat.badge);
        if shared.compare_exchange::<Tries>(&mut at, word, 0, 1) != 0 {
            seat.badge = at.into_badge();
            return None;
        }
        let found = shared.exchange(&mut at, word, TablePlace::Empty);
        let TablePlace::Value(value) = found else {
            unreachable!()
        };
        shared.load::<Rests>(&mut at, word);
        seat.badge = at.into_badge();
        Some(value)
    }

    /// Gives a turn back with the lane's value; waits for nobody. Two steps on the lane's word; no
    /// memory.
    pub fn give_turn(&self, seat: &mut TurnSeat, lane: u32, value: T)
        requires seat { IsSeatOf self.now seat.old }
        requires lane { lane < self.now.lanes }
        requires turn { HasTurn seat.old lane }
        requires home { T.home_of value ≡ lane }
        ensures { seat.new ≡ without_turn lane seat.old }
    {
        let shared = &self.table.shared;
        let word = lane as usize;
        let mut at = sit(&mut seat.badge);
        shared.load::<Reaches>(&mut at, word);
        let found = shared.exchange(&mut at, word, TablePlace::Value(value));
        let TablePlace::Empty = found else {
            unreachable!()
        };
        shared.store::<GivesTurn>(&mut at, word, 0);
        seat.badge = at.into_badge();
    }

    /// Ends another seat, which has no turn: from now on this seat stands for its numbers too. One
    /// step; no memory.
    pub fn gather(&self, seat: &mut TurnSeat, other: TurnSeat)
        requires seats { IsSeatOf self.now seat.old × IsSeatOf self.now other }
        requires no_turn { other.turns ≡ [] }
        ensures { seat.new ≡ with_numbers_of other seat.old }
    {
        let TurnSeat { badge } = other;
        let mut at = sit(&mut seat.badge);
        self.table
            .shared
            .join_seat::<GathersTurns>(&mut at, badge.into_seat());
        seat.badge = at.into_badge();
    }

    /// Makes a seat again that stands for the greatest number of this one, and has no turn and no
    /// misses. One step; no memory.
    pub fn part(&self, seat: &mut TurnSeat) -> TurnSeat
        requires seat { IsSeatOf self.now seat.old }
        requires two { StandsForTwo seat.old }
        ensures parted { seat.new ≡ without_greatest seat.old }
        ensures made { result ≡ greatest_alone seat.old }
    {
        let mut at = sit(&mut seat.badge);
        let parted = self.table.shared.split_seat::<PartsTurns>(&mut at);
        seat.badge = at.into_badge();
        TurnSeat {
            badge: parted.into_badge(),
        }
    }
}
