ghost use Rattle.std.specs.Prelude.{◌≡◌, ◌<◌, ◌≤◌, [], None, Some, false, vec_capacity, if◌then◌else◌};
ghost use Rattle.turn_table.specs.Seated.{IsSeatOf};
ghost use Rattle.lane_turns.specs.Answers.{is_fault};
ghost use Rattle.lane_turns.specs.Attempts.{HasAttempted, HasTried, IsSeated};
ghost use Rattle.lane_turns.specs.LaneValues.{terms, tries};
ghost use Rattle.lane_turns.specs.Polling.{most_made};
ghost use Rattle.lane_turns.specs.Scanning.{GoesOn, HasLookedRound, HasScanned, HasTriedUntil};

use crate::worker::Worker;
use lane_clock::LaneClock;
use lane_logs::LaneSession;
use lane_map::{LaneMap, lanes_have_cells};
use lane_turns::{Baton, BatonCame, Lookout, One, RunEnd, WorkerSeat};
use op_handlers::CompletionHandler;
use reactor_trait::Reactor;
use session_script::Script;
use std::marker::Model;
use std::mem;
use strand_core::Posted;
use turn_table::{TurnSeat, TurnTable};

/// The context without a lock (Asio reference, io_context): the clock that gives its events their
/// positions, and the lanes at a table of turns. Workers share it by `&`. Contracts see its table.
pub struct Context<'a, X: Reactor, H: CompletionHandler, N: LaneSession> {
    pub(crate) clock: LaneClock,
    pub(crate) script: &'a Script,
    pub(crate) map: &'a LaneMap<'a>,
    pub(crate) turns: TurnTable<Baton<'a, X, H, N>>,
}

impl<'a, X: Reactor, H: CompletionHandler, N: LaneSession> Model for Context<'a, X, H, N> {
    ghost use Rattle.turn_table.specs.Seated.{Lanes};
    ghost use Rattle.std.specs.Prelude.{◌≡◌};
    ghost use Rattle.lane_map.specs.LaneNumbers.{cells_of};
    ghost use Rattle.lane_logs.specs.Logs.{session_layout};
    ghost use Rattle.lane_logs.specs.SeatNumbers.{lane_count};

    ghost Value = { Lanes };

    ghost view = { λ c. c.turns };

    ghost invariant = { λ c. record {
      clock : c.clock ≡ N.clock;
      plan : N.clock.plan ≡ session_layout N.names.script;
      cells : N.clock.plan.cells ≡ cells_of N.names.script;
      script : c.script.now ≡ N.names.script;
      map : c.map.now ≡ N.names.script;
      lanes : c.turns.lanes ≡ lane_count N.names.script;
    } };
}

/// What an attempt at a lane leaves: the lane that the worker keeps after a fault, the room for
/// calls, and what it came to.
struct Attempt<'a, X: Reactor, H: CompletionHandler, N: LaneSession> {
    kept: Option<Baton<'a, X, H, N>>,
    made: Vec<Posted>,
    one: One,
}

impl<'a, X: Reactor, H: CompletionHandler, N: LaneSession> Context<'a, X, H, N> {
    /// One attempt at a lane by a worker's seats: unless another has the lane's turn, the worker
    /// takes in what the lane did, the lane is polled while something is done there, so many times at
    /// most, and the worker takes in what it did then.
    fn try_lane(
        &self,
        seat: &mut WorkerSeat<N>,
        turns: &mut TurnSeat,
        made: Vec<Posted>,
        lookout: &mut Lookout,
        lane: u32,
        most: u32,
    ) -> Attempt<'a, X, H, N>
        requires turns { IsSeatOf self.now turns.old }
        requires free { turns.old.turns ≡ [] }
        requires lane { lane < self.now.lanes }
        requires most { 0 < most }
        requires none { made.items ≡ [] }
        requires buffer { most_made N.names.script ≤ vec_capacity made }
        ensures tried { HasTried (tries (terms N.names H.marks X.state X.told X.faults N.faults N.clock) most)
            lane result.one (record { seat = seat.old; turns = turns.old })
            (record { seat = seat.new; turns = turns.new }) result.kept }
        ensures none { result.made.items ≡ [] }
        ensures buffer { most_made N.names.script ≤ vec_capacity result.made }
    {
        let Some(mut baton) = self.turns.take_turn(turns, lane) else {
            let one = One::Nothing;
            return Attempt {
                kept: None,
                made,
                one,
            };
        };
        baton.is_one();
        baton.tell(&self.clock, seat);
        let BatonCame {
            mut baton,
            made,
            one,
        } = baton.work(&self.clock, self.script, self.map, made, lookout, most);
        baton.is_one();
        baton.tell(&self.clock, seat);
        if one.is_fault() {
            return Attempt {
                kept: Some(baton),
                made,
                one,
            };
        }
        self.turns.give_turn(turns, lane, baton);
        Attempt {
            kept: None,
            made,
            one,
        }
    }

    /// One attempt of a worker at a lane, with what it keeps of it.
    fn attempt(&self, worker: &mut Worker<'a, X, H, N>, lane: u32, most: u32) -> One
        requires turns { IsSeated self.now worker.old }
        requires free { worker.old.kept ≡ None }
        requires most { 0 < most }
        requires lane { lane < self.now.lanes }
        ensures tried { HasAttempted
            (tries (terms N.names H.marks X.state X.told X.faults N.faults N.clock) most) lane result worker.old
            worker.new }
        ensures turns { IsSeated self.now worker.new }
    {
        let Some(mut turns) = worker.turns.take() else {
            unreachable!()
        };
        let Some(made) = worker.made.take() else {
            unreachable!()
        };
        worker.lookout.begin(lane);
        let Attempt { kept, made, one } = self.try_lane(
            &mut worker.seat,
            &mut turns,
            made,
            &mut worker.lookout,
            lane,
            most,
        );
        worker.lookout.end();
        match mem::replace(&mut worker.kept, kept) {
            None => {}
            Some(_other) => unreachable!(),
        }
        worker.turns = Some(turns);
        worker.made = Some(made);
        worker.last = last_after(one, worker.last);
        one
    }

    /// Attempts at the lanes from one on and below another, up to the first that comes to something.
    fn scan(&self, worker: &mut Worker<'a, X, H, N>, from: u32, to: u32, most: u32) -> One
        requires turns { IsSeated self.now worker.old }
        requires free { worker.old.kept ≡ None }
        requires most { 0 < most }
        requires order { from ≤ to }
        requires range { to ≤ self.now.lanes }
        ensures scanned { HasScanned
            (tries (terms N.names H.marks X.state X.told X.faults N.faults N.clock) most) from to result
            worker.old worker.new }
        ensures turns { IsSeated self.now worker.new }
        ensures free { is_fault result ≡ false → worker.new.kept ≡ None }
    {
        for lane in from..to {
            let one = self.attempt(worker, lane, most);
            if !one.is_nothing() {
                return one;
            }
        }
        One::Nothing
    }

    /// Attempts at all lanes, from the one at which the worker looks first, each once, up to the
    /// first that comes to something.
    pub(crate) fn look_round(&self, worker: &mut Worker<'a, X, H, N>, most: u32) -> One
        requires turns { IsSeated self.now worker.old }
        requires free { worker.old.kept ≡ None }
        requires most { 0 < most }
        ensures looked { HasLookedRound
            (tries (terms N.names H.marks X.state X.told X.faults N.faults N.clock) most) self.now.lanes result
            worker.old worker.new }
        ensures tried { HasTriedUntil
            (tries (terms N.names H.marks X.state X.told X.faults N.faults N.clock) most) self.now.lanes
            worker.old worker.new }
        ensures turns { IsSeated self.now worker.new }
        ensures free { is_fault result ≡ false → worker.new.kept ≡ None }
        ensures on { GoesOn worker.old worker.new }
    {
        lanes_have_cells(self.script);
        let count = self.map.lanes();
        let first = worker.lookout.first().min(count);
        let one = self.scan(worker, first, count, most);
        if !one.is_nothing() {
            return one;
        }
        self.scan(worker, 0, first, most)
    }
}

/// How a worker's last call ended, where an attempt came to this.
fn last_after(one: One, last: Option<RunEnd>) -> Option<RunEnd>
    ensures { result ≡ (if is_fault one then Some RunEnd.Fault else last) }
{
    match one {
        One::Fault => Some(RunEnd::Fault),
        _ => last,
    }
}
