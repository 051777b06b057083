ghost use Rattle.std.specs.Prelude.{◌≡◌, [], ◌∷◌, MatchOption};

use crate::place::TurnView;
use atomic_table::{Badge, Seat};
use std::marker::Model;
use std::mem;

/// A place at a table, with which a worker takes and gives turns. Contracts see the lanes whose
/// turns it has, the seat numbers that it stands for, and its misses: the lanes whose turn it asked
/// for while another seat had it, in order. It has no bytes.
#[derive(Drop)]
pub struct TurnSeat {
    pub(crate) badge: Badge<TurnView>,
}

impl Model for TurnSeat {
    ghost use Rattle.turn_table.specs.Seated.{Seated, seated, IsSeatReady};

    ghost Value = { Seated };

    ghost view = { λ s. seated s.badge.table_id s.badge.views };

    ghost invariant = { λ s. IsSeatReady s.badge.views };
}

/// The seats that were made with a table and not given out yet. Contracts see the list of them, the
/// next one first.
#[derive(Drop)]
pub struct TurnSeats {
    // the next one last
    pub(crate) left: Vec<TurnSeat>,
}

impl Model for TurnSeats {
    ghost use Rattle.std.specs.Prelude.{List, reverse};
    ghost use Rattle.turn_table.specs.Seated.{Seated};

    ghost Value = { List Seated };

    ghost view = { λ s. reverse s.left.items };
}

impl TurnSeats {
    /// The next seat, in the order of their numbers; `None` exactly where all were given. Takes no
    /// memory.
    pub fn next(&mut self) -> Option<TurnSeat>
        ensures { MatchOption result ((self.old ≡ []) × (self.new ≡ []))
            (λ seat. self.old ≡ seat ∷ self.new) }
    {
        self.left.pop()
    }
}

// Takes the seat out of its badge, which is blank then.
pub(crate) fn sit<S>(badge: &mut Badge<TurnView>) -> Seat<S, TurnView>
    requires { (view : TurnView) × (badge.old.views ≡ view ∷ []) }
    ensures place { (result.table_id ≡ badge.old.table_id) × (result.id ≡ badge.old.id) }
    ensures view { badge.old.views ≡ result.me.0 ∷ [] }
    ensures slots { result.me.1 ≡ [] }
{
    mem::replace(badge, Badge::blank()).into_seat()
}
