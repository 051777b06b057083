ghost use Rattle.std.specs.Prelude.{◌≡◌, ◌<◌, ◌≤◌, [], Some, vec_capacity};
ghost use Rattle.lane_map.specs.LaneNumbers.{cells_of};
ghost use Rattle.lane_turns.specs.Batons.{IsHandlerBaton};
ghost use Rattle.lane_turns.specs.LaneValues.{HasWorked, handlers, terms};
ghost use Rattle.lane_turns.specs.Polling.{CameTo, most_made};
ghost use Rattle.lane_turns.specs.Workers.{HasHeard};

use crate::attendee::{Attendee, LaneAttendee, attend_lane};
use crate::lane::LaneState;
use crate::law::clock_fits;
use crate::lookout::Lookout;
use crate::one::One;
use crate::opener::Opener;
use crate::polling::{Polled, poll_handlers};
use crate::worker_seat::{WorkerSeat, tell_lane};
use lane_clock::LaneClock;
use lane_logs::LaneSession;
use lane_map::{LaneMap, lanes_have_cells};
use op_handlers::CompletionHandler;
use reactor_trait::Reactor;
use session_script::Script;
use std::marker::{Model, PhantomData};
use strand_core::{Hands, Posted};

/// A lane on which handlers execute, as it lies in its slot between turns: its log is made of whole
/// executions, and it holds the handlers of its operations that didn't begin.
pub struct HandlerBaton<'a, H: CompletionHandler, N: LaneSession> {
    pub lane: LaneState,
    pub hands: Hands<'a, H>,
    pub names: PhantomData<N>,
}

impl<'a, H: CompletionHandler, N: LaneSession> Model for HandlerBaton<'a, H, N> {
    ghost use Rattle.lane_turns.specs.Batons.{BatonView, IsHandlerBaton};

    ghost Value = { BatonView H };

    ghost view = { λ b. record { lane = b.lane; hands = b.hands } };

    ghost invariant = { λ b.
        IsHandlerBaton N.names H.marks N.clock (record { lane = b.lane; hands = b.hands }) };
}

/// What an attempt at a lane leaves: its baton, the room for calls, and what it came to.
pub struct BatonPolled<'a, H: CompletionHandler, N: LaneSession> {
    pub baton: HandlerBaton<'a, H, N>,
    pub made: Vec<Posted>,
    pub one: One,
}

impl<'a, H: CompletionHandler, N: LaneSession> BatonPolled<'a, H, N> {
    /// A lane that was polled, with its hands, and this answer in place of its own.
    fn of(
        polled: Polled,
        hands: Hands<'a, H>,
        names: PhantomData<N>,
        one: One,
    ) -> BatonPolled<'a, H, N>
        requires { IsHandlerBaton N.names H.marks N.clock
            (record { lane = polled.lane; hands = hands }) }
        ensures baton { result.baton ≡ record { lane = polled.lane; hands = hands.entry } }
        ensures made { result.made ≡ polled.made }
        ensures one { result.one ≡ one }
    {
        let Polled { lane, made, one: _ } = polled;
        BatonPolled {
            baton: HandlerBaton { lane, hands, names },
            made,
            one,
        }
    }
}

impl<'a, H: CompletionHandler, N: LaneSession> HandlerBaton<'a, H, N> {
    /// Polls the lane while something is done there, so many times at most; where then nothing is
    /// found, the answer is the one before. `made` is the room for the calls. The lanes into which
    /// notes are put are noted.
    pub fn work<X: Reactor>(
        self,
        clock: &LaneClock,
        script: &'a Script,
        map: &LaneMap<'a>,
        made: Vec<Posted>,
        lookout: &mut Lookout,
        most: u32,
    ) -> BatonPolled<'a, H, N>
        requires most { 0 < most }
        requires none { made.items ≡ [] }
        requires buffer { most_made script.now ≤ vec_capacity made }
        requires clock { clock.now ≡ N.clock }
        requires cells { clock.now.plan.cells ≡ cells_of script.now }
        requires script { script.now ≡ N.names.script }
        requires map { map.now ≡ script.now }
        ensures worked { HasWorked
            (terms N.names H.marks X.state X.told X.faults N.faults N.clock) most result.one
            (handlers (Some self.entry)) (handlers (Some result.baton)) }
        ensures home { result.baton.lane.lane ≡ self.entry.lane.lane }
        ensures none { result.made.items ≡ [] }
        ensures buffer { most_made script.now ≤ vec_capacity result.made }
    {
        clock_fits(clock, script);
        lanes_have_cells(script);
        let HandlerBaton {
            lane,
            mut hands,
            names,
        } = self;
        let one = One::Nothing;
        let mut came = Polled { lane, made, one };
        for _ in 0..most {
            let Polled {
                lane,
                made,
                one: last,
            } = came;
            let mut next = poll_handlers(clock, script, map, lane, made, &mut hands);
            lookout.note_calls(script, map, next.made.as_slice());
            next.made.clear();
            let one = next.one;
            if one.is_nothing() {
                return BatonPolled::of(next, hands, names, last);
            }
            if !one.is_done() {
                return BatonPolled::of(next, hands, names, one);
            }
            came = next;
        }
        let one = came.one;
        BatonPolled::of(came, hands, names, one)
    }

    /// What holds of every such lane.
    pub fn is_one(&self)
        ensures { IsHandlerBaton N.names H.marks N.clock self.now }
    {
        let _lane = &self.lane;
    }

    /// The number of its lane.
    pub fn lane_number(&self) -> u32
        ensures { result ≡ self.now.lane.lane }
    {
        self.lane.at.lane
    }

    /// A worker takes in what the lane did.
    pub fn tell(&mut self, clock: &LaneClock, worker: &mut WorkerSeat<N>)
        requires clock { clock.now ≡ N.clock }
        ensures same { self.new ≡ self.old }
        ensures heard { HasHeard self.old.lane.pen.seat self.old.lane.base worker.old worker.new }
    {
        tell_lane(&mut self.lane, clock, worker);
    }
}

impl<'a, H: CompletionHandler, N: LaneSession> Attendee<N> for HandlerBaton<'a, H, N> {
    ghost seat = { λ b. b.lane.pen.seat };

    ghost base = { λ b. b.lane.base };

    ghost running = { λ b. b.lane.running };

    ghost place = { λ b. b.lane.place };

    ghost use Rattle.lane_turns.specs.Besides.{nothing_besides};

    ghost rest = { λ b. nothing_besides };

    fn report(&mut self, opener: &mut Opener<N>, clock: &LaneClock) {
        opener.hear(clock, &mut self.lane.pen);
    }

    fn attend(&mut self, opener: &mut Opener<N>, clock: &LaneClock, script: &Script) {
        attend_lane(&mut self.lane, opener, clock, script);
    }
}

impl<'a, H: CompletionHandler, N: LaneSession> LaneAttendee<N> for HandlerBaton<'a, H, N> {
    fn number(&self) -> u32 {
        self.lane.at.lane
    }

    fn next_place(&self) -> u32 {
        self.lane.at.place
    }

    // handlers stop the context, and the reactor's lane executes none
    fn has_failed(&self) -> bool {
        let _lane = &self.lane;
        false
    }
}
