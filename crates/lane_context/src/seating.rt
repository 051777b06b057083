//! A worker's seat at the table of turns, while the opener gathers all of them.
ghost use Rattle.std.specs.Prelude.{◌≡◌, [], IsSome, None, Some};

use crate::worker::Worker;
use lane_logs::LaneSession;
use op_handlers::CompletionHandler;
use reactor_trait::Reactor;
use turn_table::TurnSeat;

impl<'a, X: Reactor, H: CompletionHandler, N: LaneSession> Worker<'a, X, H, N> {
    /// Takes its seat away.
    pub(crate) fn leave_table(&mut self) -> TurnSeat
        requires free { self.old.kept ≡ None }
        requires turns { IsSome self.old.turns }
        ensures turns { self.old.turns ≡ Some result }
        ensures free { result.turns ≡ [] }
        ensures left { self.new ≡ record self.old { turns = None } }
    {
        match self.turns.take() {
            Some(seat) => seat,
            None => unreachable!(),
        }
    }

    /// Gives it a seat.
    pub(crate) fn sit_down(&mut self, seat: TurnSeat)
        requires free { self.old.kept ≡ None }
        requires turns { seat.turns ≡ [] }
        ensures { self.new ≡ record self.old { turns = Some seat } }
    {
        self.turns = Some(seat);
    }
}
