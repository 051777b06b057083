//! The values with which a session without a lock begins.
ghost use Rattle.std.specs.Prelude.{◌≡◌, ◌+◌, ◌≤◌, [], IfErr, IfOk, OnErr, OnOk, length, vec_capacity};
ghost use Rattle.op_handlers.specs.Rack.{handlers_in};
ghost use Rattle.proactor_core.specs.Proactor.{tells};
ghost use Rattle.reactor_turns.specs.Ahead.{most_turn_events};
ghost use Rattle.lane_map.specs.LaneNumbers.{reactor_lane};
ghost use Rattle.lane_logs.specs.Logs.{session_layout};
ghost use Rattle.lane_logs.specs.SeatNumbers.{lane_count, opener_seat, worker_count};
ghost use Rattle.lane_turns.specs.Batons.{HaveHands};
ghost use Rattle.lane_context.specs.Beginning.{HasBegun, HasBegunWith};
ghost use Rattle.lane_turns.specs.Firsts.{IsStarted};
ghost use Rattle.lane_context.specs.Making.{worker_rooms};
ghost use Rattle.lane_turns.specs.Rooms.{AreNewPens, EachAt, IsNewPen, lane_rooms, opener_room};
ghost use Rattle.lane_context.specs.Setup.{HasTaken, HoldsNamed, IsRefused, TakesHandlers};

use crate::first_batons::{first_batons, first_workers};
use crate::first_seats::{first_opener, first_reactor, first_standing, first_state};
use crate::making::{FirstPens, first_pens, log_room};
use crate::parts::Parts;
use asio_types::SetupFault;
use lane_clock::LaneClock;
use lane_logs::LaneSession;
use lane_map::{LaneMap, lanes_have_cells};
use lane_turns::{HandlerBaton, Opener, ReactorBaton, WorkerSeat, worker_count};
use op_handlers::{CompletionHandler, Rack};
use proactor_core::Proactor;
use reactor_trait::Reactor;
use session_script::{Script, scripts_are_well_formed};
use std::alloc::Global;
use strand_core::Hands;

/// All that takes part in a session, before its first event: the lanes on which handlers execute and
/// the workers in the order of their numbers, the reactor's lane, and the opener.
pub(crate) struct Beginning<'a, X: Reactor, H: CompletionHandler, N: LaneSession> {
    pub(crate) opener: Opener<N>,
    pub(crate) batons: Vec<HandlerBaton<'a, H, N>>,
    pub(crate) reactor: ReactorBaton<'a, X, N>,
    pub(crate) workers: Vec<WorkerSeat<N>>,
}

/// What takes part, by these pens. `hands` are those of all lanes, of which the reactor's has none.
/// `batons` and `workers` are the room.
fn begin<'a, X: Reactor, H: CompletionHandler, N: LaneSession>(
    pens: FirstPens,
    script: &Script,
    hands: Vec<Hands<'a, H>>,
    proactor: Proactor<'a, X>,
    batons: Vec<HandlerBaton<'a, H, N>>,
    workers: Vec<WorkerSeat<N>>,
) -> Beginning<'a, X, H, N>
    requires script { script.now ≡ N.names.script }
    requires lane_pens { AreNewPens N.clock 0 (lane_rooms script.now) pens.lanes.items }
    requires reactor_pen { IsNewPen N.clock (reactor_lane script.now) (most_turn_events script.now)
        pens.reactor }
    requires worker_pens { AreNewPens N.clock (lane_count script.now) (worker_rooms script.now)
        pens.workers.items }
    requires opener_pen { IsNewPen N.clock (opener_seat script.now) (opener_room script.now)
        pens.opener }
    requires count { length hands.items ≡ lane_count script.now }
    requires hands { EachAt (λ lane own. HaveHands N.names H.marks lane [] own) hands.items }
    requires started { IsStarted N.names X.state X.told X.faults N.faults proactor }
    requires no_batons { batons.items ≡ [] }
    requires baton_room { lane_count script.now ≤ vec_capacity batons }
    requires no_workers { workers.items ≡ [] }
    requires worker_room { worker_count script.now ≤ vec_capacity workers }
    ensures { HasBegun script.now N.clock hands.entry.items result.opener result.batons.items
        result.reactor result.workers.items }
{
    lanes_have_cells(script);
    scripts_are_well_formed(script);
    let rounds = first_standing(script);
    let round = rounds.round(script);
    let mut hands = hands;
    let lane = hands.len() as u32 - 1;
    let Some(none) = hands.pop() else {
        unreachable!();
    };
    none.discard_all();
    let state = first_state(lane, pens.reactor, round, script);
    Beginning {
        opener: first_opener(pens.opener, rounds, script),
        batons: first_batons(pens.lanes, hands, round, script, batons),
        reactor: first_reactor(state, proactor, script),
        workers: first_workers(pens.workers, round, script, workers),
    }
}

/// Starts the reactor's part, and takes the handlers of all lanes out of the rack. After a refusal
/// the rack is as before, and the reactor comes back.
fn take_all<'a, X: Reactor, H: CompletionHandler, N: LaneSession>(
    alloc: Global,
    script: &'a Script,
    map: &'a LaneMap<'a>,
    rack: &mut Rack<H>,
    reactor: X,
) -> Result<(Proactor<'a, X>, Vec<Hands<'a, H>>), (SetupFault, X)>
    requires script { script.now ≡ N.names.script }
    requires map { map.now ≡ script.now }
    requires told { N.names.told ≡ tells (X.told reactor) }
    requires faults { N.faults ≡ X.faults reactor }
    requires marks { HoldsNamed N.names H.marks rack.old }
    ensures taken { OnOk result (TakesHandlers script.now rack.old rack.new) }
    ensures kept { OnErr result (handlers_in rack.new ≡ handlers_in rack.old) }
    ensures refused { IfErr result (λ back. IsRefused N.names.told N.faults (X.faults back.1)
        (X.state back.1) (X.told back.1) back.0) }
    ensures started { IfOk result
        (λ made. IsStarted N.names X.state X.told X.faults N.faults made.0) }
    ensures count { IfOk result (λ made. length made.1.items ≡ lane_count script.now) }
    ensures hands { IfOk result
        (λ made. EachAt (λ lane own. HaveHands N.names H.marks lane [] own) made.1.items) }
    ensures held { IfOk result
        (λ made. EachAt (λ lane own. HasTaken script.now lane rack.old own) made.1.items) }
{
    let proactor = match Proactor::start(alloc, script, reactor) {
        Ok(proactor) => proactor,
        Err(refusal) => return Err(refusal),
    };
    let hands = match Hands::of_lanes(alloc, script, map, rack) {
        Ok(hands) => hands,
        Err(_) => return Err((SetupFault::NoMemory, proactor.into_reactor())),
    };
    Ok((proactor, hands))
}

/// All that takes part in a session of this script, with the clock that gives its events their
/// positions. Takes all memory that the logs and the lanes need. After a refusal the rack is as
/// before, and the reactor comes back.
pub(crate) fn make_session<'a, X: Reactor, H: CompletionHandler, N: LaneSession>(
    alloc: Global,
    parts: Parts,
    script: &'a Script,
    map: &'a LaneMap<'a>,
    rack: &mut Rack<H>,
    reactor: X,
) -> Result<(LaneClock, Beginning<'a, X, H, N>), (SetupFault, X)>
    requires script { script.now ≡ N.names.script }
    requires clock { parts ≡ N.clock }
    requires plan { parts.plan ≡ session_layout script.now }
    requires map { map.now ≡ script.now }
    requires told { N.names.told ≡ tells (X.told reactor) }
    requires faults { N.faults ≡ X.faults reactor }
    requires marks { HoldsNamed N.names H.marks rack.old }
    ensures taken { OnOk result (TakesHandlers script.now rack.old rack.new) }
    ensures kept { OnErr result (handlers_in rack.new ≡ handlers_in rack.old) }
    ensures refused { IfErr result (λ back. IsRefused N.names.told N.faults (X.faults back.1)
        (X.state back.1) (X.told back.1) back.0) }
    ensures clock { IfOk result (λ made. made.0 ≡ N.clock) }
    ensures begun { IfOk result (λ made. HasBegunWith script.now N.clock rack.old made.1.opener
        made.1.batons.items made.1.reactor made.1.workers.items) }
{
    lanes_have_cells(script);
    let Parts { clock, seats } = parts;
    let room = match log_room(alloc, script, map) {
        Ok(room) => room,
        Err(_) => return Err((SetupFault::NoMemory, reactor)),
    };
    let workers = match Vec::with_capacity(alloc, worker_count(script) as usize) {
        Ok(workers) => workers,
        Err(_) => return Err((SetupFault::NoMemory, reactor)),
    };
    let batons = match Vec::with_capacity(alloc, map.lanes() as usize) {
        Ok(batons) => batons,
        Err(_) => return Err((SetupFault::NoMemory, reactor)),
    };
    let (proactor, hands) = match take_all::<X, H, N>(alloc, script, map, rack, reactor) {
        Ok(taken) => taken,
        Err(refusal) => {
            batons.destroy_empty();
            return Err(refusal);
        }
    };
    let pens = first_pens(seats, room, script);
    let made = begin(pens, script, hands, proactor, batons, workers);
    Ok((clock, made))
}
