ghost use Rattle.std.specs.Prelude.{◌≡◌, ◌&&◌, ◌==◌, not};
ghost use Rattle.lane_clock.specs.declared.found.Found.{Found};
ghost use Rattle.lane_logs.specs.Stand.{base_of};
ghost use Rattle.lane_turns.specs.Batons.{opener_known};
ghost use Rattle.lane_turns.specs.Workers.{HasHeard, HasRead, Stops, is_set, may_draw_stop, restarts_since};

use crate::attendee::Attendee;
use crate::lane::LaneState;
use crate::opener::Opener;
use crate::pen::Pen;
use crate::standing::{RoundNow, SHUT};
use asio_types::Event;
use lane_clock::{Change, Found, LaneClock};
use lane_logs::LaneSession;
use session_script::Script;
use std::marker::{Model, PhantomData};

/// A worker's own seat and log: it draws nothing but stops from outside of every handler, at most
/// one a round.
#[derive(Drop)]
pub struct WorkerSeat<N: LaneSession> {
    pub pen: Pen,
    pub round: RoundNow,
    // whether it drew a stop in this round
    pub drew: bool,
    // whether it was asked to stop since the last restart
    pub stopped: bool,
    // whether all lanes of which it heard in this round had the same stops
    pub in_step: bool,
    pub names: PhantomData<N>,
}

impl<N: LaneSession> Model for WorkerSeat<N> {
    ghost use Rattle.lane_turns.specs.Workers.{IsWorker, WorkerView};

    ghost Value = { WorkerView };

    ghost view = { λ w. record {
      pen = w.pen;
      round = w.round;
      drew = w.drew;
      stopped = w.stopped;
      in_step = w.in_step;
    } };

    ghost invariant = { λ w. IsWorker N.names.script N.clock (record {
      pen = w.pen;
      round = w.round;
      drew = w.drew;
      stopped = w.stopped;
      in_step = w.in_step;
    }) };
}

impl<N: LaneSession> WorkerSeat<N> {
    /// Stops the context (Asio reference, io_context::stop): draws it where a round is open in
    /// which this worker didn't yet.
    pub fn stop(&mut self, clock: &LaneClock)
        requires clock { clock.now ≡ N.clock }
        ensures { Stops self.old self.new (may_draw_stop self.old) }
    {
        self.stopped = true;
        if !self.in_step || self.drew || self.round.base == SHUT {
            return;
        }
        self.pen
            .draw(clock, Change::Stop, Event::Stop { act: None });
        self.drew = true;
    }

    /// Takes in what a lane did, which may begin something with these stops. A worker and a lane that
    /// took in the same events of the opener have the same; where they haven't, the worker draws no
    /// stop until its next event. The stops of its round stay.
    pub fn hear(&mut self, clock: &LaneClock, lane: &mut Pen, base: u64)
        requires clock { clock.now ≡ N.clock }
        requires lane { lane.old.seat.clock ≡ N.clock }
        requires base { base ≡ base_of N.names.script (opener_known N.names.script lane.old.seat) }
        ensures same { lane.new ≡ lane.old }
        ensures heard { HasHeard lane.old.seat base self.old self.new }
    {
        let copy = lane.split(clock);
        self.pen.meet(clock, copy);
        self.in_step = still_in_step(self.in_step, self.round, base);
    }

    /// Reads the clock, the work and the stops.
    pub fn read(&mut self, clock: &LaneClock) -> Found
        requires clock { clock.now ≡ N.clock }
        ensures { HasRead self.old self.new result }
    {
        self.pen.load(clock)
    }

    /// Whether the stop word counts as set, by what was read.
    pub fn is_set(&self, found: Found) -> bool
        ensures { result ≡ is_set self.now found }
    {
        self.stopped || found.stops != self.round.base
    }

    /// Whether time may pass in the round.
    pub fn is_running(&self) -> bool
        ensures { result ≡ self.now.round.running }
    {
        self.round.running
    }
}

/// A worker takes in what a lane did.
pub fn tell_lane<N: LaneSession>(
    state: &mut LaneState,
    clock: &LaneClock,
    worker: &mut WorkerSeat<N>,
)
    requires clock { clock.now ≡ N.clock }
    requires lane { state.old.pen.seat.clock ≡ N.clock }
    requires base { state.old.base
        ≡ base_of N.names.script (opener_known N.names.script state.old.pen.seat) }
    ensures same { state.new ≡ state.old }
    ensures heard { HasHeard state.old.pen.seat state.old.base worker.old worker.new }
{
    let base = state.at.base;
    worker.hear(clock, &mut state.pen, base);
}

/// Whether a worker is in step after it heard a lane that may begin something with these stops.
fn still_in_step(in_step: bool, round: RoundNow, base: u64) -> bool
    ensures { result ≡ (in_step && (base == round.base)) }
{
    in_step && base == round.base
}

/// Whether a worker that drew a stop in a round drew one in the round that is now.
fn drew_now(drew: bool, before: RoundNow, now: RoundNow) -> bool
    ensures { result ≡ (drew && (before.closings == now.closings)) }
{
    drew && before.closings == now.closings
}

/// Whether a worker's own stop still counts: until a restart comes.
fn stopped_now(stopped: bool, before: RoundNow, now: RoundNow) -> bool
    ensures { result ≡ (stopped && not (restarts_since before now)) }
{
    stopped && !now.restarts_since(before)
}

impl<N: LaneSession> Attendee<N> for WorkerSeat<N> {
    ghost seat = { λ w. w.pen.seat };

    ghost base = { λ w. w.round.base };

    ghost running = { λ w. w.round.running };

    ghost place = { λ w. 0 };

    ghost use Rattle.lane_turns.specs.Besides.{only_log};

    ghost rest = { λ w. only_log w.pen.log };

    fn report(&mut self, opener: &mut Opener<N>, clock: &LaneClock) {
        opener.hear(clock, &mut self.pen);
    }

    fn attend(&mut self, opener: &mut Opener<N>, clock: &LaneClock, script: &Script) {
        opener.meet(clock, &mut self.pen);
        let round = opener.round(script);
        self.drew = drew_now(self.drew, self.round, round);
        self.stopped = stopped_now(self.stopped, self.round, round);
        self.in_step = true;
        self.round = round;
    }
}
