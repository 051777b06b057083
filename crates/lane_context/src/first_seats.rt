//! Lanes, workers and the opener before the first event of a session.
ghost use Rattle.std.specs.Prelude.{◌≡◌, ◌<◌, ◌≤◌};
ghost use Rattle.lane_clock.specs.Steps.{most_draws};
ghost use Rattle.lane_map.specs.LaneNumbers.{reactor_lane};
ghost use Rattle.lane_logs.specs.SeatNumbers.{IsWorkerSeat, opener_seat};
ghost use Rattle.lane_logs.specs.Stand.{first_stand};
ghost use Rattle.lane_turns.specs.Batons.{HaveHands};
ghost use Rattle.reactor_turns.specs.Ahead.{most_turn_events};
ghost use Rattle.lane_turns.specs.Firsts.{IsStarted, first_lane, first_opener, first_worker};
ghost use Rattle.lane_turns.specs.Openers.{round_of, stand_at};
ghost use Rattle.lane_turns.specs.Rooms.{IsNewPen, lane_room, opener_room, worker_room};

use lane_logs::LaneSession;
use lane_map::lanes_have_cells;
use lane_turns::{
    HandlerBaton, LaneStanding, LaneState, Opener, Pen, ReactorBaton, RoundNow, RoundStanding,
    WorkerSeat, opening_draws, rooms_fit,
};
use op_handlers::CompletionHandler;
use proactor_core::Proactor;
use reactor_trait::Reactor;
use reactor_turns::turns_are_bounded;
use session_script::Script;
use std::marker::PhantomData;
use strand_core::Hands;

/// Where the rounds stand before the first event.
pub(crate) fn first_standing(script: &Script) -> RoundStanding
    ensures { stand_at result ≡ first_stand script.now }
{
    RoundStanding {
        opening: opening_draws(script),
        closings: 0,
        restarted: false,
        base: 0,
    }
}

/// A lane that has executed nothing.
pub(crate) fn first_state(lane: u32, pen: Pen, round: RoundNow, script: &Script) -> LaneState
    requires round { round ≡ round_of script.now (first_stand script.now) }
    ensures { result ≡ first_lane script.now lane pen }
{
    LaneState {
        pen,
        at: LaneStanding {
            lane,
            place: 0,
            base: round.base,
            running: round.running,
            missed: None,
        },
    }
}

/// A lane on which handlers execute, with those of its operations.
pub(crate) fn first_baton<'a, H: CompletionHandler, N: LaneSession>(
    state: LaneState,
    hands: Hands<'a, H>,
    script: &Script,
) -> HandlerBaton<'a, H, N>
    requires script { script.now ≡ N.names.script }
    requires first { state ≡ first_lane script.now state.lane state.pen }
    requires pen { IsNewPen N.clock state.lane (lane_room script.now state.lane) state.pen }
    requires strand { state.lane < reactor_lane script.now }
    requires hands { HaveHands N.names H.marks state.lane state.pen.log hands }
    ensures lane { result.lane ≡ state }
    ensures hands { result.hands ≡ hands.entry }
{
    rooms_fit(script);
    lanes_have_cells(script);
    HandlerBaton {
        lane: state,
        hands,
        names: PhantomData,
    }
}

/// The reactor's lane, with a proactor that has taken nothing.
pub(crate) fn first_reactor<'a, X: Reactor, N: LaneSession>(
    state: LaneState,
    proactor: Proactor<'a, X>,
    script: &Script,
) -> ReactorBaton<'a, X, N>
    requires script { script.now ≡ N.names.script }
    requires first { state ≡ first_lane script.now state.lane state.pen }
    requires pen { IsNewPen N.clock state.lane (most_turn_events script.now) state.pen }
    requires last { state.lane ≡ reactor_lane script.now }
    requires started { IsStarted N.names X.state X.told X.faults N.faults proactor }
    ensures lane { result.lane ≡ state }
    ensures proactor { result.proactor ≡ proactor.entry }
{
    rooms_fit(script);
    lanes_have_cells(script);
    turns_are_bounded();
    ReactorBaton {
        lane: state,
        proactor,
        names: PhantomData,
    }
}

/// A worker that has stopped nothing.
pub(crate) fn first_worker<N: LaneSession>(
    pen: Pen,
    round: RoundNow,
    script: &Script,
) -> WorkerSeat<N>
    requires script { script.now ≡ N.names.script }
    requires round { round ≡ round_of script.now (first_stand script.now) }
    requires pen { IsNewPen N.clock pen.seat.number (worker_room script.now) pen }
    requires worker { IsWorkerSeat script.now pen.seat.number }
    ensures { result ≡ first_worker script.now pen }
{
    rooms_fit(script);
    WorkerSeat {
        pen,
        round,
        drew: false,
        stopped: false,
        in_step: true,
        names: PhantomData,
    }
}

/// The opener, that has drawn nothing.
pub(crate) fn first_opener<N: LaneSession>(
    pen: Pen,
    rounds: RoundStanding,
    script: &Script,
) -> Opener<N>
    requires script { script.now ≡ N.names.script }
    requires rounds { stand_at rounds ≡ first_stand script.now }
    requires pen { IsNewPen N.clock (opener_seat script.now) (opener_room script.now) pen }
    ensures { result ≡ first_opener script.now pen }
{
    rooms_fit(script);
    Opener {
        pen,
        rounds,
        names: PhantomData,
    }
}
