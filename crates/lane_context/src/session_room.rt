//! The room for a session's lanes and workers, which is made before any handler is taken.
ghost use Rattle.std.specs.Prelude.{◌≡◌};

use crate::call_rooms::call_rooms;
use crate::worker::Worker;
use asio_types::NoMemory;
use lane_logs::LaneSession;
use lane_map::{LaneMap, lanes_have_cells};
use lane_turns::{
    Baton, EndingRoom, HandlerBaton, Lookout, ReactorBaton, Slot, empty_slots, free_slots,
    lookouts, worker_count,
};
use op_handlers::CompletionHandler;
use reactor_trait::Reactor;
use session_script::Script;
use std::alloc::Global;
use std::marker::Model;
use strand_core::Posted;
use turn_table::{TurnSeat, TurnTable};

/// The boxes of all lanes, with nothing in them, and lists for all lanes and all workers.
pub(crate) struct LaneRoom<'a, X: Reactor, H: CompletionHandler, N: LaneSession> {
    pub(crate) reactor: Slot<ReactorBaton<'a, X, N>>,
    pub(crate) handlers: Vec<Slot<HandlerBaton<'a, H, N>>>,
    pub(crate) bench: Vec<Baton<'a, X, H, N>>,
    pub(crate) workers: Vec<Worker<'a, X, H, N>>,
}

impl<'a, X: Reactor, H: CompletionHandler, N: LaneSession> Model for LaneRoom<'a, X, H, N> {
    ghost use Rattle.std.specs.Prelude.{◌≡◌, ◌≤◌, [], None, replicate, vec_capacity};
    ghost use Rattle.lane_map.specs.LaneNumbers.{reactor_lane};
    ghost use Rattle.lane_logs.specs.SeatNumbers.{lane_count, worker_count};

    ghost Value = { Unit {0} };

    ghost view = { λ r. tt };

    ghost invariant = { λ r. record {
      reactor : r.reactor ≡ None;
      handlers : r.handlers.items ≡ replicate (reactor_lane N.names.script) None;
      no_bench : r.bench.items ≡ [];
      bench : lane_count N.names.script ≤ vec_capacity r.bench;
      no_workers : r.workers.items ≡ [];
      workers : worker_count N.names.script ≤ vec_capacity r.workers;
    } };
}

impl<'a, X: Reactor, H: CompletionHandler, N: LaneSession> LaneRoom<'a, X, H, N> {
    /// Takes that memory; `NoMemory` where it is refused.
    fn make(
        alloc: Global,
        script: &Script,
        map: &LaneMap<'_>,
    ) -> Result<LaneRoom<'a, X, H, N>, NoMemory>
        requires script { script.now ≡ N.names.script }
        requires map { map.now ≡ script.now }
    {
        let reactor = Slot::empty(alloc)?;
        let bench = Vec::with_capacity(alloc, map.lanes() as usize)?;
        let workers = match Vec::with_capacity(alloc, worker_count(script) as usize) {
            Ok(workers) => workers,
            Err(_refused) => {
                bench.destroy_empty();
                return Err(NoMemory);
            }
        };
        let handlers = match empty_slots(alloc, map.reactor()) {
            Ok(handlers) => handlers,
            Err(refused) => {
                bench.destroy_empty();
                workers.destroy_empty();
                return Err(refused);
            }
        };
        Ok(LaneRoom {
            reactor,
            handlers,
            bench,
            workers,
        })
    }

    /// Lets go of it.
    fn free(self) {
        let LaneRoom {
            reactor,
            handlers,
            bench,
            workers,
        } = self;
        reactor.free();
        free_slots(handlers);
        bench.destroy_empty();
        workers.destroy_empty();
    }
}

/// The room for all lanes and workers, their table of turns, which no lane has a value at yet, and
/// the room for the end.
pub(crate) struct SessionRoom<'a, X: Reactor, H: CompletionHandler, N: LaneSession> {
    pub(crate) lanes: LaneRoom<'a, X, H, N>,
    pub(crate) calls: Vec<Vec<Posted>>,
    pub(crate) lookouts: Vec<Lookout>,
    pub(crate) turns: TurnTable<Baton<'a, X, H, N>>,
    pub(crate) seat: TurnSeat,
    pub(crate) ending: EndingRoom<'a, H, N>,
}

impl<'a, X: Reactor, H: CompletionHandler, N: LaneSession> Model for SessionRoom<'a, X, H, N> {
    ghost use Rattle.std.specs.Prelude.{◌≡◌, length};
    ghost use Rattle.turn_table.specs.Seated.{seat_of_all};
    ghost use Rattle.lane_logs.specs.SeatNumbers.{lane_count, worker_count};
    ghost use Rattle.lane_context.specs.SessionRooms.{AreCallRooms};

    ghost Value = { Unit {0} };

    ghost view = { λ r. tt };

    ghost invariant = { λ r. record {
      calls : AreCallRooms N.names.script (worker_count N.names.script) r.calls.items;
      lookouts : length r.lookouts.items ≡ worker_count N.names.script;
      lanes : r.turns.lanes ≡ lane_count N.names.script;
      seats : r.turns.seats ≡ worker_count N.names.script;
      seat : r.seat ≡ seat_of_all r.turns;
    } };
}

impl<'a, X: Reactor, H: CompletionHandler, N: LaneSession> SessionRoom<'a, X, H, N> {
    /// Takes all memory for a session's lanes and workers, and for its end; `NoMemory` where it is
    /// refused.
    pub(crate) fn make(
        alloc: Global,
        script: &Script,
        map: &LaneMap<'_>,
    ) -> Result<SessionRoom<'a, X, H, N>, NoMemory>
        requires script { script.now ≡ N.names.script }
        requires map { map.now ≡ script.now }
    {
        let count = map.lanes() as usize;
        let workers = worker_count(script);
        let calls = call_rooms(alloc, script, workers)?;
        let lookouts = lookouts(alloc, script, map.lanes(), workers)?;
        let lanes = LaneRoom::make(alloc, script, map)?;
        let ending = match EndingRoom::make(alloc, script, map) {
            Ok(ending) => ending,
            Err(refused) => {
                lanes.free();
                return Err(refused);
            }
        };
        match TurnTable::held(alloc, count, workers) {
            Ok((turns, seat)) => Ok(SessionRoom {
                lanes,
                calls,
                lookouts,
                turns,
                seat,
                ending,
            }),
            Err(refused) => {
                lanes.free();
                ending.free();
                Err(refused)
            }
        }
    }

    /// Lets go of it.
    pub(crate) fn free(self) {
        let SessionRoom {
            lanes,
            calls: _,
            lookouts: _,
            turns,
            seat,
            ending,
        } = self;
        lanes.free();
        ending.free();
        turns.close_held(seat);
    }
}
