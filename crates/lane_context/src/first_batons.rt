//! All lanes on which handlers execute, and all workers, before the first event of a session.
ghost use Rattle.std.specs.Prelude.{◌≡◌, ◌+◌, ◌<◌, ◌≤◌, [], length, replicate, vec_capacity};
ghost use Rattle.lane_map.specs.LaneNumbers.{reactor_lane};
ghost use Rattle.lane_logs.specs.SeatNumbers.{lane_count, worker_count};
ghost use Rattle.lane_logs.specs.Stand.{first_stand};
ghost use Rattle.lane_turns.specs.Batons.{HaveHands};
ghost use Rattle.lane_turns.specs.Firsts.{IsFirstBaton, IsFirstWorker};
ghost use Rattle.lane_turns.specs.Openers.{round_of};
ghost use Rattle.lane_turns.specs.Rooms.{AreNewPens, EachAt, lane_rooms, worker_room};

use crate::first_seats::{first_baton, first_state, first_worker};
use lane_logs::LaneSession;
use lane_turns::{HandlerBaton, Pen, RoundNow, WorkerSeat};
use op_handlers::CompletionHandler;
use session_script::{Script, scripts_are_well_formed};
use strand_core::Hands;

/// The lanes on which handlers execute, by their numbers, with these pens and handlers. `batons` is
/// the room for them.
pub(crate) fn first_batons<'a, H: CompletionHandler, N: LaneSession>(
    pens: Vec<Pen>,
    hands: Vec<Hands<'a, H>>,
    round: RoundNow,
    script: &Script,
    batons: Vec<HandlerBaton<'a, H, N>>,
) -> Vec<HandlerBaton<'a, H, N>>
    requires script { script.now ≡ N.names.script }
    requires round { round ≡ round_of script.now (first_stand script.now) }
    requires pens { AreNewPens N.clock 0 (lane_rooms script.now) pens.items }
    requires count { length hands.items ≡ reactor_lane script.now }
    requires hands { EachAt (λ lane own. HaveHands N.names H.marks lane [] own) hands.items }
    requires none { batons.items ≡ [] }
    requires room { length hands.items ≤ vec_capacity batons }
    ensures count { length result.items ≡ reactor_lane script.now }
    ensures each { EachAt (IsFirstBaton script.now N.clock hands.entry.items) result.items }
{
    let mut batons = batons;
    scripts_are_well_formed(script);
    let mut next_pens = pens.into_iter();
    let mut rest = hands.into_iter();
    let mut lane = 0;
    while let Some(own) = rest.next() {
        let Some(pen) = next_pens.next() else {
            unreachable!();
        };
        let state = first_state(lane, pen, round, script);
        batons.push_reserved(first_baton(state, own, script));
        lane += 1;
    }
    rest.destroy_empty();
    batons
}

/// The workers, by their numbers, with these pens. `workers` is the room for them.
pub(crate) fn first_workers<N: LaneSession>(
    pens: Vec<Pen>,
    round: RoundNow,
    script: &Script,
    workers: Vec<WorkerSeat<N>>,
) -> Vec<WorkerSeat<N>>
    requires script { script.now ≡ N.names.script }
    requires round { round ≡ round_of script.now (first_stand script.now) }
    requires pens { AreNewPens N.clock (lane_count script.now)
        (replicate (worker_count script.now) (worker_room script.now)) pens.items }
    requires none { workers.items ≡ [] }
    requires room { length pens.items ≤ vec_capacity workers }
    ensures count { length result.items ≡ worker_count script.now }
    ensures each { EachAt (IsFirstWorker script.now N.clock) result.items }
{
    let mut workers = workers;
    let mut rest = pens.into_iter();
    while let Some(pen) = rest.next() {
        workers.push_reserved(first_worker(pen, round, script));
    }
    workers
}
