ghost use Rattle.std.specs.Prelude.{◌≡◌, ◌<◌, Some};
ghost use Rattle.lane_map.specs.LaneNumbers.{cells_of};
ghost use Rattle.lane_turns.specs.LaneValues.{HasWorked, reactor, terms};
ghost use Rattle.lane_turns.specs.ReactorPolling.{TurnCameTo};
ghost use Rattle.lane_turns.specs.Turning.{IsReactorBaton};
ghost use Rattle.lane_turns.specs.Workers.{HasHeard};

use crate::attendee::{Attendee, LaneAttendee, attend_lane};
use crate::lane::LaneState;
use crate::law::clock_fits;
use crate::lookout::Lookout;
use crate::one::One;
use crate::opener::Opener;
use crate::reactor_polling::poll_reactor;
use crate::worker_seat::{WorkerSeat, tell_lane};
use lane_clock::LaneClock;
use lane_logs::{LaneSession, LogEntry};
use lane_map::{LaneMap, lanes_have_cells};
use op_handlers::CompletionHandler;
use proactor_core::Proactor;
use reactor_trait::Reactor;
use session_script::Script;
use std::marker::{Brand, Model, PhantomData};

/// The reactor's lane, as it lies in its slot between turns: its log is made of whole turns, and its
/// proactor stands where that log leads.
#[derive(Drop)]
pub struct ReactorBaton<'a, X: Reactor, N: LaneSession> {
    pub lane: LaneState,
    pub proactor: Proactor<'a, X>,
    pub names: PhantomData<N>,
}

impl<'a, X: Reactor, N: LaneSession> Model for ReactorBaton<'a, X, N> {
    ghost use Rattle.lane_turns.specs.Turning.{IsReactorBaton, ReactorView};

    ghost Value = { ReactorView X };

    ghost view = { λ b. record { lane = b.lane; proactor = b.proactor } };

    ghost invariant = { λ b.
        IsReactorBaton N.names X.state X.told X.faults N.faults N.clock
        (record { lane = b.lane; proactor = b.proactor }) };
}

impl<'a, X: Reactor, N: LaneSession> ReactorBaton<'a, X, N> {
    /// Looks at the lane's next place, and takes the request that it sees there, or lets time pass,
    /// unless a load behind the look finds that the context is stopped.
    fn poll(&mut self, clock: &LaneClock, script: &'a Script, map: &LaneMap<'a>) -> One
        requires clock { clock.now ≡ N.clock }
        requires cells { clock.now.plan.cells ≡ cells_of script.now }
        requires script { script.now ≡ N.names.script }
        requires map { map.now ≡ script.now }
        ensures came { TurnCameTo N.names X.faults result self.old.lane self.new.lane
            self.old.proactor self.new.proactor }
    {
        clock_fits(clock, script);
        lanes_have_cells(script);
        poll_reactor::<X, N, Brand>(clock, script, map, &mut self.lane, &mut self.proactor)
    }

    /// Does so, and notes the lanes into which it puts notes.
    fn poll_noted(
        &mut self,
        clock: &LaneClock,
        script: &'a Script,
        map: &LaneMap<'a>,
        lookout: &mut Lookout,
    ) -> One
        requires clock { clock.now ≡ N.clock }
        requires cells { clock.now.plan.cells ≡ cells_of script.now }
        requires script { script.now ≡ N.names.script }
        requires map { map.now ≡ script.now }
        ensures came { TurnCameTo N.names X.faults result self.old.lane self.new.lane
            self.old.proactor self.new.proactor }
        ensures home { self.new.lane.lane ≡ self.old.lane.lane }
    {
        let before = self.log().len();
        let one = self.poll(clock, script, map);
        let log = self.log();
        lookout.note_told(script, map, &log[before.min(log.len())..]);
        one
    }

    /// Polls the lane while something is done there, so many times at most; where then nothing is
    /// found, the answer is the one before. The lanes into which notes are put are noted.
    pub fn work<H: CompletionHandler>(
        &mut self,
        clock: &LaneClock,
        script: &'a Script,
        map: &LaneMap<'a>,
        lookout: &mut Lookout,
        most: u32,
    ) -> One
        requires most { 0 < most }
        requires clock { clock.now ≡ N.clock }
        requires cells { clock.now.plan.cells ≡ cells_of script.now }
        requires script { script.now ≡ N.names.script }
        requires map { map.now ≡ script.now }
        ensures worked { HasWorked
            (terms N.names H.marks X.state X.told X.faults N.faults N.clock) most result
            (reactor (Some self.old)) (reactor (Some self.new)) }
        ensures home { self.new.lane.lane ≡ self.old.lane.lane }
    {
        let mut last = One::Nothing;
        for _ in 0..most {
            let one = self.poll_noted(clock, script, map, lookout);
            if one.is_nothing() {
                return last;
            }
            if !one.is_done() {
                return one;
            }
            last = one;
        }
        last
    }

    /// What holds of every such lane.
    pub fn is_one(&self)
        ensures { IsReactorBaton N.names X.state X.told X.faults N.faults N.clock self.now }
    {
        let _lane = &self.lane;
    }

    /// Whether the reactor has failed.
    pub fn is_failed(&self) -> bool
        ensures { result ≡ self.now.proactor.tables.failed }
    {
        self.proactor.failed()
    }

    /// What it has shown.
    fn log(&self) -> &[LogEntry] {
        self.lane.pen.log()
    }

    /// The number of its lane.
    pub fn lane_number(&self) -> u32
        ensures { result ≡ self.now.lane.lane }
    {
        self.lane.at.lane
    }

    /// A worker takes in what the lane did.
    pub fn tell(&mut self, clock: &LaneClock, worker: &mut WorkerSeat<N>)
        requires clock { clock.now ≡ N.clock }
        ensures same { self.new ≡ self.old }
        ensures heard { HasHeard self.old.lane.pen.seat self.old.lane.base worker.old worker.new }
    {
        tell_lane(&mut self.lane, clock, worker);
    }
}

impl<'a, X: Reactor, N: LaneSession> Attendee<N> for ReactorBaton<'a, X, N> {
    ghost seat = { λ b. b.lane.pen.seat };

    ghost base = { λ b. b.lane.base };

    ghost running = { λ b. b.lane.running };

    ghost place = { λ b. b.lane.place };

    ghost use Rattle.lane_turns.specs.Besides.{nothing_besides};

    ghost rest = { λ b. nothing_besides };

    fn report(&mut self, opener: &mut Opener<N>, clock: &LaneClock) {
        opener.hear(clock, &mut self.lane.pen);
    }

    fn attend(&mut self, opener: &mut Opener<N>, clock: &LaneClock, script: &Script) {
        attend_lane(&mut self.lane, opener, clock, script);
    }
}

impl<'a, X: Reactor, N: LaneSession> LaneAttendee<N> for ReactorBaton<'a, X, N> {
    fn number(&self) -> u32 {
        self.lane.at.lane
    }

    fn next_place(&self) -> u32 {
        self.lane.at.place
    }

    fn has_failed(&self) -> bool {
        let _lane = &self.lane;
        self.proactor.failed()
    }
}
