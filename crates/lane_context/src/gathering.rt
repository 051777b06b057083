//! All turns in one hand, for an event of the opener.
ghost use Rattle.std.specs.Prelude.{◌≡◌, ◌<◌, ◌≤◌, [], ℕ, IfSome, None, Some, length, map, slice_get, vec_capacity};
ghost use Rattle.std.specs.Option.{option_map};
ghost use Rattle.turn_table.specs.Seated.{HasTurn, IsSeatOf, StandsForAll, StandsForTwo, greatest_alone, with_turn, without_greatest, without_turn};
ghost use Rattle.lane_logs.specs.SeatNumbers.{lane_count};
ghost use Rattle.lane_turns.specs.Attempts.{IsSeated};
ghost use Rattle.lane_turns.specs.Benches.{AreLanes};
ghost use Rattle.lane_turns.specs.Gathering.{AreSeated, HaveSatDown, StandsForFirst, gathered, gives_kept, turns_below, unseated, with_turns_below, without_turns};
ghost use Rattle.lane_turns.specs.LaneOf.{seat_of};

use crate::context::Context;
use crate::worker::Worker;
use lane_logs::LaneSession;
use lane_map::lanes_have_cells;
use lane_turns::Baton;
use op_handlers::CompletionHandler;
use reactor_trait::Reactor;
use turn_table::{Home, TurnSeat};

impl<'a, X: Reactor, H: CompletionHandler, N: LaneSession> Context<'a, X, H, N> {
    /// Gives the reactor's lane back, where a worker kept it after a fault.
    fn give_kept(&self, worker: &mut Worker<'a, X, H, N>)
        requires turns { IsSeated self.now worker.old }
        ensures { worker.new ≡ gives_kept worker.old }
    {
        let Some(value) = worker.kept.take() else {
            return;
        };
        let Some(mut turns) = worker.turns.take() else {
            unreachable!()
        };
        value.is_one();
        let lane = value.lane();
        self.turns.give_turn(&mut turns, lane, value);
        worker.turns = Some(turns);
    }

    /// Takes a worker's seat at the table, which has no turn then.
    pub(crate) fn unseat(&self, worker: &mut Worker<'a, X, H, N>) -> TurnSeat
        requires turns { IsSeated self.now worker.old }
        ensures seat { option_map without_turns worker.old.turns ≡ Some result }
        ensures left { worker.new ≡ unseated worker.old }
    {
        self.give_kept(worker);
        worker.leave_table()
    }

    /// One seat of two, if there is one yet.
    fn together(&self, all: Option<TurnSeat>, seat: TurnSeat) -> TurnSeat
        requires all { IfSome all (λ it. IsSeatOf self.now it) }
        requires seat { IsSeatOf self.now seat }
        requires free { seat.turns ≡ [] }
        ensures { result ≡ gathered all seat }
    {
        let Some(mut together) = all else {
            return seat;
        };
        self.turns.gather(&mut together, seat);
        together
    }

    /// Gathers the seats of all workers: what one of them kept is given back first.
    pub(crate) fn gather_seats(&self, workers: &mut [Worker<'a, X, H, N>]) -> TurnSeat
        requires some { 0 < length workers.old }
        requires seats { AreSeated self.now workers.old }
        ensures seat { StandsForFirst self.now (length workers.old) result }
        ensures left { workers.new ≡ map unseated workers.old }
    {
        let mut all: Option<TurnSeat> = None;
        for worker in workers.iter_mut() {
            let seat = self.unseat(worker);
            all = Some(self.together(all, seat));
        }
        let Some(seat) = all else { unreachable!() };
        seat
    }

    /// A seat of the greatest number of this one.
    fn part_next(&self, seat: &mut TurnSeat) -> TurnSeat
        requires seat { IsSeatOf self.now seat.old }
        requires two { StandsForTwo seat.old }
        ensures parted { seat.new ≡ without_greatest seat.old }
        ensures made { result ≡ greatest_alone seat.old }
    {
        self.turns.part(seat)
    }

    /// Gives each worker a seat again, of its own number.
    pub(crate) fn part_seats(&self, workers: &mut [Worker<'a, X, H, N>], seat: TurnSeat)
        requires some { 0 < length workers.old }
        requires seat { StandsForFirst self.now (length workers.old) seat }
        requires free { (k : ℕ) → IfSome (slice_get workers.old k) (λ one. one.kept ≡ None) }
        ensures { HaveSatDown self.now 0 workers.old workers.new }
    {
        let mut rest = seat;
        let mut left = workers.len();
        while left > 1 {
            left -= 1;
            let parted = self.part_next(&mut rest);
            workers[left].sit_down(parted);
        }
        workers[0].sit_down(rest);
    }

    /// How many lanes there are.
    fn lane_total(&self) -> u32
        ensures lanes { result ≡ self.now.lanes }
        ensures script { result ≡ lane_count N.names.script }
    {
        lanes_have_cells(self.script);
        self.map.lanes()
    }

    /// Takes a turn that nobody else can have.
    fn take_next(&self, seat: &mut TurnSeat, lane: u32) -> Baton<'a, X, H, N>
        requires seat { IsSeatOf self.now seat.old }
        requires all { StandsForAll seat.old }
        requires free { ¬ HasTurn seat.old lane }
        requires lane { lane < self.now.lanes }
        ensures value { (seat_of result).number ≡ lane }
        ensures seat { seat.new ≡ with_turn lane seat.old }
    {
        let Some(value) = self.turns.take_turn(seat, lane) else {
            unreachable!()
        };
        value.is_one();
        value
    }

    /// Gives a turn back.
    fn give_next(&self, seat: &mut TurnSeat, value: Baton<'a, X, H, N>)
        requires seat { IsSeatOf self.now seat.old }
        requires turn { HasTurn seat.old (seat_of value).number }
        ensures { seat.new ≡ without_turn (seat_of value.entry).number seat.old }
    {
        value.is_one();
        let lane = value.lane();
        self.turns.give_turn(seat, lane, value);
    }

    /// Takes every turn: the values of all lanes lie on the bench, in the order of their numbers.
    pub(crate) fn take_turns(&self, seat: &mut TurnSeat, bench: &mut Vec<Baton<'a, X, H, N>>)
        requires seat { StandsForFirst self.now self.now.seats seat.old }
        requires none { bench.old.items ≡ [] }
        requires room { lane_count N.names.script ≤ vec_capacity bench.old }
        ensures lanes { AreLanes seat_of N.names.script bench.new.items }
        ensures seat { seat.new ≡ with_turns_below (lane_count N.names.script) seat.old }
        ensures room { vec_capacity bench.new ≡ vec_capacity bench.old }
    {
        let count = self.lane_total();
        for lane in 0..count {
            let value = self.take_next(seat, lane);
            bench.push_reserved(value);
        }
    }

    /// Gives every turn back.
    pub(crate) fn give_turns(&self, seat: &mut TurnSeat, bench: &mut Vec<Baton<'a, X, H, N>>)
        requires seat { IsSeatOf self.now seat.old }
        requires turns { seat.old.turns ≡ turns_below (lane_count N.names.script) }
        requires lanes { AreLanes seat_of N.names.script bench.old.items }
        ensures none { bench.new.items ≡ [] }
        ensures seat { seat.new ≡ without_turns seat.old }
        ensures room { vec_capacity bench.new ≡ vec_capacity bench.old }
    {
        while let Some(value) = bench.pop() {
            self.give_next(seat, value);
        }
    }
}
