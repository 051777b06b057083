//! The end of a session without a lock.
ghost use Rattle.std.specs.Prelude.{◌≡◌, ◌+◌, ◌<◌, ◌≤◌, [], All, ℕ, IfSome, length, map, slice_get, slice_index_or, vec_capacity};
ghost use Rattle.lane_clock.specs.Seats.{Owns, Remembers};
ghost use Rattle.lane_map.specs.LaneNumbers.{reactor_lane};
ghost use Rattle.lane_logs.specs.AtRest.{RestsFrom};
ghost use Rattle.lane_logs.specs.Cuts.{EventsAreCuts};
ghost use Rattle.lane_logs.specs.KeptLogs.{LetGo, logs_in};
ghost use Rattle.lane_logs.specs.Logs.{AreLogs, session_layout};
ghost use Rattle.lane_logs.specs.Knowing.{lists_of};
ghost use Rattle.lane_logs.specs.SeatNumbers.{lane_count, opener_seat, worker_count};
ghost use Rattle.lane_turns.specs.AtRest.{HasHeardPens};
ghost use Rattle.lane_turns.specs.EndingRooms.{HasLeavingRoom};
ghost use Rattle.lane_turns.specs.Finishing.{AreClosed, IsGivenBack, IsOver, KeepLogsOf, lanes_in, pens_of};
ghost use Rattle.lane_turns.specs.KeptSteps.{KeepStepsOf};
ghost use Rattle.lane_turns.specs.Openers.{IsOpener};
ghost use Rattle.lane_turns.specs.Pens.{PenView};
ghost use Rattle.lane_turns.specs.Turning.{log_half};

use crate::discarding::{Discarded, discard_left};
use crate::ending_room::LeavingRoom;
use crate::handler_baton::HandlerBaton;
use crate::op_lanes::operations_have_lanes;
use crate::opener::Opener;
use crate::parting::{LanesLeft, part_all};
use crate::pen::Pen;
use crate::reactor_baton::ReactorBaton;
use crate::taking_in::take_in_all;
use crate::worker_seat::WorkerSeat;
use lane_clock::{Found, LaneClock, LaneCopy, LaneSeat};
use lane_logs::{LaneSession, LogEntry, Logs};
use lane_map::{LaneMap, lanes_have_cells};
use op_handlers::CompletionHandler;
use reactor_trait::Reactor;
use session_script::Script;

/// The logs of all seats, what the clock held in the end, and what was known of all steps.
#[derive(Drop)]
pub struct ClosedLogs {
    pub entries: Vec<Vec<LogEntry>>,
    pub last: Found,
    pub known: LaneCopy,
}

/// The opener's seat and its log.
fn part_opener<N: LaneSession>(opener: Opener<N>) -> (LaneSeat, Vec<LogEntry>)
    ensures is { IsOpener N.names.script N.clock opener }
    ensures seat { result.0 ≡ opener.pen.seat }
    ensures log { result.1.items ≡ opener.pen.log }
{
    let Opener {
        pen,
        rounds: _,
        names: _,
    } = opener;
    pen.into_parts()
}

/// The opener takes in all seats, and closes the clock. `logs` is the room for the logs of all
/// seats, in the order of these pens, with the opener's behind them.
pub fn close_all<N: LaneSession>(
    clock: LaneClock,
    mut opener: Opener<N>,
    pens: Vec<Pen>,
    logs: Vec<Vec<LogEntry>>,
) -> ClosedLogs
    requires clock { clock ≡ N.clock }
    requires seats { clock.plan.seats ≡ opener_seat N.names.script + 1 }
    requires clocks { All (λ pen. pen.seat.clock ≡ N.clock) pens.items }
    requires count { length pens.items ≡ opener_seat N.names.script }
    requires numbers { (k : ℕ) (d : PenView) → k < length pens.items →
        (slice_index_or pens.items k d).seat.number ≡ k }
    requires owns { All (λ pen. Owns pen.seat pen.seat.number) pens.items }
    requires none { logs.items ≡ [] }
    requires room { length pens.items + 1 ≤ vec_capacity logs }
    ensures { AreClosed N.names.script N.clock pens.items opener
        (map (λ log. log.items) result.entries.items) result.known result.last }
{
    let mut entries = take_in_all(&mut opener, &clock, pens, logs);
    let (mut seat, log) = part_opener(opener);
    entries.push_reserved(log);
    let known = clock.split(&mut seat);
    let last = clock.close(seat);
    ClosedLogs {
        entries,
        last,
        known,
    }
}

/// All that takes part in a session, when it is over: the opener, the lanes on which handlers
/// execute and the workers in the order of their numbers, and the reactor's lane.
pub struct Ending<'a, X: Reactor, H: CompletionHandler, N: LaneSession> {
    pub opener: Opener<N>,
    pub batons: Vec<HandlerBaton<'a, H, N>>,
    pub reactor: ReactorBaton<'a, X, N>,
    pub workers: Vec<WorkerSeat<N>>,
}

/// Destroys all handlers that are left, by rising number, closes the clock, and gives the logs and
/// the reactor back (Asio reference, io_context::~io_context). Takes no memory but the room.
pub fn finish<'a, X: Reactor, H: CompletionHandler, N: LaneSession>(
    clock: LaneClock,
    script: &'a Script,
    lanes: &LaneMap<'a>,
    ending: Ending<'a, X, H, N>,
    room: LeavingRoom<'a, H>,
) -> (Logs, X)
    requires clock { clock ≡ N.clock }
    requires plan { clock.plan ≡ session_layout N.names.script }
    requires script { script.now ≡ N.names.script }
    requires lanes { lanes.now ≡ script.now }
    requires batons { length ending.batons.items ≡ reactor_lane N.names.script }
    requires numbers { (k : ℕ) → IfSome (slice_get ending.batons.items k)
        (λ baton. baton.lane.lane ≡ k) }
    requires workers { length ending.workers.items ≡ worker_count N.names.script }
    requires work_numbers { (k : ℕ) → IfSome (slice_get ending.workers.items k)
        (λ worker. worker.pen.seat.number ≡ lane_count N.names.script + k) }
    requires cuts { EventsAreCuts N.names.script (lists_of ending.opener.pen.seat) }
    requires over { IsOver N.names.script ending.opener }
    requires room { HasLeavingRoom N.names.script room }
    requires heard { HasHeardPens ending.opener
        (pens_of (lanes_in ending.batons.items ending.reactor.lane) ending.workers.items) }
    ensures logs { AreLogs N.names (logs_in result.0) }
    ensures let_go { LetGo N.names result.0 }
    ensures worker_logs { KeepLogsOf (λ worker. worker.pen.log) N.names.script (logs_in result.0)
        ending.entry.workers.items }
    ensures worker_steps { KeepStepsOf (λ worker. worker.pen.seat) N.names.script
        (logs_in result.0) ending.entry.workers.items }
    ensures remembers { Remembers ending.entry.opener.pen.seat result.0.known }
    ensures all { (n : ℕ) → n < opener_seat N.names.script →
        lists_of result.0.known n ≡ lists_of ending.entry.opener.pen.seat n }
    ensures resting { RestsFrom N.names.script (lists_of result.0.known)
        (length (lists_of ending.entry.opener.pen.seat (opener_seat N.names.script))) }
    ensures reactor { IsGivenBack N.names.told (log_half N.names
        (slice_index_or result.0.entries (reactor_lane N.names.script) []))
        N.faults (X.faults result.1) (X.state result.1) (X.told result.1) }
{
    lanes_have_cells(script);
    operations_have_lanes(script);
    let Ending {
        opener,
        batons,
        reactor,
        workers,
    } = ending;
    let LeavingRoom {
        left,
        logs,
        drops,
        called,
        begun,
    } = room;
    let ReactorBaton {
        lane,
        proactor,
        names: _,
    } = reactor;
    let LanesLeft {
        pens,
        missed,
        hands,
    } = part_all::<H, N>(batons, lane, workers, left);
    let ClosedLogs {
        entries,
        last,
        known,
    } = close_all(clock, opener, pens, logs);
    let Discarded { drops, let_go } = discard_left::<H, N>(
        script,
        lanes,
        hands,
        entries.as_slice(),
        called,
        begun,
        drops,
    );
    let logs = Logs::of(entries, missed, drops, let_go, last, known);
    (logs, proactor.into_reactor())
}
