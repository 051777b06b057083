ghost use Rattle.std.specs.Prelude.{◌≡◌, ◌<◌, ◌≤◌, [], None, Some, vec_capacity};
ghost use Rattle.lane_map.specs.LaneNumbers.{cells_of};
ghost use Rattle.lane_turns.specs.LaneValues.{HasWorked, HearsOf, IsBaton, handlers, home_of, reactor, terms};
ghost use Rattle.lane_turns.specs.Polling.{most_made};

use crate::handler_baton::{BatonPolled, HandlerBaton};
use crate::lookout::Lookout;
use crate::one::One;
use crate::reactor_baton::ReactorBaton;
use crate::slot::Slot;
use crate::worker_seat::WorkerSeat;
use lane_clock::LaneClock;
use lane_logs::LaneSession;
use lane_map::LaneMap;
use op_handlers::CompletionHandler;
use reactor_trait::Reactor;
use session_script::Script;
use std::marker::Model;
use strand_core::Posted;
use turn_table::Home;

/// Which lane it is, in the box that goes through the table of turns.
pub enum BatonKind<'a, X: Reactor, H: CompletionHandler, N: LaneSession> {
    Handlers(Slot<HandlerBaton<'a, H, N>>),
    Reactor(Slot<ReactorBaton<'a, X, N>>),
}

/// A lane's value: its seat and log, and its handlers or the reactor. Who has the lane's turn has it.
pub struct Baton<'a, X: Reactor, H: CompletionHandler, N: LaneSession> {
    pub kind: BatonKind<'a, X, H, N>,
}

impl<'a, X: Reactor, H: CompletionHandler, N: LaneSession> Model for Baton<'a, X, H, N> {
    ghost use Rattle.lane_turns.specs.LaneValues.{LaneValue};

    ghost Value = { LaneValue H X };

    ghost use Rattle.lane_turns.specs.BatonKinds.{value_of};
    ghost use Rattle.lane_turns.specs.LaneValues.{IsFilled};

    ghost view = { λ b. value_of b.kind };

    ghost invariant = { λ b. IsFilled (value_of b.kind) };
}

/// What an attempt at a lane leaves: its baton, the room for calls, and what it came to.
pub struct BatonCame<'a, X: Reactor, H: CompletionHandler, N: LaneSession> {
    pub baton: Baton<'a, X, H, N>,
    pub made: Vec<Posted>,
    pub one: One,
}

impl<'a, X: Reactor, H: CompletionHandler, N: LaneSession> Baton<'a, X, H, N> {
    /// A lane on which handlers execute, in this box.
    pub fn of_handlers(
        baton: HandlerBaton<'a, H, N>,
        slot: Slot<HandlerBaton<'a, H, N>>,
    ) -> Baton<'a, X, H, N>
        requires { slot ≡ None }
        ensures { result ≡ handlers (Some baton.entry) }
    {
        let mut slot = slot;
        slot.put_in(baton);
        let kind = BatonKind::Handlers(slot);
        Baton { kind }
    }

    /// The reactor's lane, in this box.
    pub fn of_reactor(
        baton: ReactorBaton<'a, X, N>,
        slot: Slot<ReactorBaton<'a, X, N>>,
    ) -> Baton<'a, X, H, N>
        requires { slot ≡ None }
        ensures { result ≡ reactor (Some baton.entry) }
    {
        let mut slot = slot;
        slot.put_in(baton);
        let kind = BatonKind::Reactor(slot);
        Baton { kind }
    }

    /// Polls the lane while something is done there, so many times at most; where then nothing is
    /// found, the answer is the one before. `made` is the room for calls. The lanes into which notes
    /// are put are noted.
    pub fn work(
        self,
        clock: &LaneClock,
        script: &'a Script,
        map: &LaneMap<'a>,
        made: Vec<Posted>,
        lookout: &mut Lookout,
        most: u32,
    ) -> BatonCame<'a, X, H, N>
        requires most { 0 < most }
        requires none { made.items ≡ [] }
        requires buffer { most_made script.now ≤ vec_capacity made }
        requires clock { clock.now ≡ N.clock }
        requires cells { clock.now.plan.cells ≡ cells_of script.now }
        requires script { script.now ≡ N.names.script }
        requires map { map.now ≡ script.now }
        ensures worked { HasWorked
            (terms N.names H.marks X.state X.told X.faults N.faults N.clock) most result.one
            self.entry result.baton }
        ensures home { home_of result.baton ≡ home_of self.entry }
        ensures none { result.made.items ≡ [] }
        ensures buffer { most_made script.now ≤ vec_capacity result.made }
    {
        let Baton { kind } = self;
        match kind {
            BatonKind::Handlers(mut slot) => {
                let baton = slot.take_out();
                let BatonPolled { baton, made, one } = baton.work::<X>(
                    clock, script, map, made, lookout, most,
                );
                slot.put_in(baton);
                let kind = BatonKind::Handlers(slot);
                BatonCame {
                    baton: Baton { kind },
                    made,
                    one,
                }
            }
            BatonKind::Reactor(mut slot) => {
                let one = match &mut *slot.inside {
                    Some(baton) => baton.work::<H>(clock, script, map, lookout, most),
                    None => unreachable!(),
                };
                let kind = BatonKind::Reactor(slot);
                BatonCame {
                    baton: Baton { kind },
                    made,
                    one,
                }
            }
        }
    }

    /// What holds of every lane of the session.
    pub fn is_one(&self)
        ensures { IsBaton (terms N.names H.marks X.state X.told X.faults N.faults N.clock) self.now }
    {
        match &self.kind {
            BatonKind::Handlers(slot) => slot.get().is_one(),
            BatonKind::Reactor(slot) => slot.get().is_one(),
        }
    }

    /// A worker takes in what the lane did.
    pub fn tell(&mut self, clock: &LaneClock, worker: &mut WorkerSeat<N>)
        requires clock { clock.now ≡ N.clock }
        ensures same { self.new ≡ self.old }
        ensures heard { HearsOf self.old worker.old worker.new }
    {
        match &mut self.kind {
            BatonKind::Handlers(slot) => match &mut *slot.inside {
                Some(baton) => baton.tell(clock, worker),
                None => unreachable!(),
            },
            BatonKind::Reactor(slot) => match &mut *slot.inside {
                Some(baton) => baton.tell(clock, worker),
                None => unreachable!(),
            },
        }
    }
}

impl<'a, X: Reactor, H: CompletionHandler, N: LaneSession> Home for Baton<'a, X, H, N> {
    ghost use Rattle.lane_turns.specs.LaneValues.{home_of};

    ghost home_of = { home_of };

    fn lane(&self) -> u32 {
        match &self.kind {
            BatonKind::Handlers(slot) => slot.get().lane_number(),
            BatonKind::Reactor(slot) => slot.get().lane_number(),
        }
    }
}
