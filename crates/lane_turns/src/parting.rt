//! What lanes and workers leave when the context is finished, apart.
ghost use Rattle.std.specs.Prelude.{◌≡◌, ◌+◌, ◌-◌, ◌≤◌, ◌++◌, [], All, Some, length, map, vec_capacity, vec_len};
ghost use Rattle.lane_turns.specs.Batons.{IsHandlerBaton};
ghost use Rattle.lane_turns.specs.Finishing.{lanes_in, pens_of};
ghost use Rattle.lane_turns.specs.Workers.{IsWorker};

use crate::handler_baton::HandlerBaton;
use crate::lane::LaneState;
use crate::pen::Pen;
use crate::worker_seat::WorkerSeat;
use asio_types::OpNo;
use lane_logs::LaneSession;
use op_handlers::{CompletionHandler, Handler};
use strand_core::Hands;

/// What lanes leave: their pens, the operation that each missed first, and the handlers that they
/// still hold, in the order of their numbers.
pub struct LanesLeft<'a, H = Handler> {
    pub pens: Vec<Pen>,
    pub missed: Vec<Option<OpNo>>,
    pub hands: Vec<Option<Hands<'a, H>>>,
}

/// Takes the batons of lanes apart. `left` is the room for what they leave.
pub fn part_batons<'a, H: CompletionHandler, N: LaneSession>(
    batons: Vec<HandlerBaton<'a, H, N>>,
    left: LanesLeft<'a, H>,
) -> LanesLeft<'a, H>
    requires no_pens { left.pens.items ≡ [] }
    requires no_misses { left.missed.items ≡ [] }
    requires no_hands { left.hands.items ≡ [] }
    requires pen_room { length batons.items ≤ vec_capacity left.pens }
    requires miss_room { length batons.items ≤ vec_capacity left.missed }
    requires hand_room { length batons.items ≤ vec_capacity left.hands }
    ensures are { All (λ baton. IsHandlerBaton N.names H.marks N.clock baton) batons.entry.items }
    ensures pens { result.pens.items ≡ map (λ baton. baton.lane.pen) batons.entry.items }
    ensures missed { result.missed.items ≡ map (λ baton. baton.lane.missed) batons.entry.items }
    ensures hands { result.hands.items ≡ map (λ baton. Some baton.hands) batons.entry.items }
    ensures pen_room { vec_capacity result.pens ≡ vec_capacity left.entry.pens }
    ensures miss_room { vec_capacity result.missed ≡ vec_capacity left.entry.missed }
{
    let LanesLeft {
        mut pens,
        mut missed,
        hands: mut all_hands,
    } = left;
    let mut rest = batons.into_iter();
    while let Some(baton) = rest.next() {
        let HandlerBaton {
            lane,
            hands,
            names: _,
        } = baton;
        let LaneState { pen, at } = lane;
        pens.push_reserved(pen);
        missed.push_reserved(at.missed);
        all_hands.push_reserved(Some(hands));
    }
    rest.destroy_empty();
    LanesLeft {
        pens,
        missed,
        hands: all_hands,
    }
}

/// The pens of the workers, behind those that are there.
pub fn part_workers<N: LaneSession>(workers: Vec<WorkerSeat<N>>, pens: Vec<Pen>) -> Vec<Pen>
    requires room { length workers.items ≤ vec_capacity pens - vec_len pens }
    ensures are { All (λ worker. IsWorker N.names.script N.clock worker) workers.items }
    ensures pens { result.items ≡ pens.items ++ map (λ worker. worker.pen) workers.items }
{
    let mut all = pens;
    let mut rest = workers.into_iter();
    while let Some(worker) = rest.next() {
        all.push_reserved(worker.pen);
    }
    all
}

/// Takes all apart: the batons on which handlers execute, the reactor's lane, and the workers.
pub fn part_all<'a, H: CompletionHandler, N: LaneSession>(
    batons: Vec<HandlerBaton<'a, H, N>>,
    reactor: LaneState,
    workers: Vec<WorkerSeat<N>>,
    left: LanesLeft<'a, H>,
) -> LanesLeft<'a, H>
    requires no_pens { left.pens.items ≡ [] }
    requires no_misses { left.missed.items ≡ [] }
    requires no_hands { left.hands.items ≡ [] }
    requires pen_room { length batons.items + 1 + length workers.items ≤ vec_capacity left.pens }
    requires miss_room { length batons.items + 1 ≤ vec_capacity left.missed }
    requires hand_room { length batons.items ≤ vec_capacity left.hands }
    ensures batons { All (λ baton. IsHandlerBaton N.names H.marks N.clock baton)
        batons.entry.items }
    ensures workers { All (λ worker. IsWorker N.names.script N.clock worker) workers.items }
    ensures pens { result.pens.items
        ≡ pens_of (lanes_in batons.entry.items reactor) workers.items }
    ensures missed { result.missed.items
        ≡ map (λ lane. lane.missed) (lanes_in batons.entry.items reactor) }
    ensures hands { result.hands.items ≡ map (λ baton. Some baton.hands) batons.entry.items }
{
    let LanesLeft {
        mut pens,
        mut missed,
        hands,
    } = part_batons::<H, N>(batons, left);
    let LaneState { pen, at } = reactor;
    pens.push_reserved(pen);
    missed.push_reserved(at.missed);
    let pens = part_workers(workers, pens);
    LanesLeft {
        pens,
        missed,
        hands,
    }
}
