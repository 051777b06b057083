//! The lanes of a session go to their table of turns, and its workers to their seats.
ghost use Rattle.std.specs.Prelude.{◌≡◌, ◌≤◌, ◌++◌, ◌∷◌, [], None, Some, length, map, replicate, vec_capacity};
ghost use Rattle.turn_table.specs.Seated.{seat_of_all};
ghost use Rattle.lane_map.specs.LaneNumbers.{reactor_lane};
ghost use Rattle.lane_logs.specs.Logs.{session_layout};
ghost use Rattle.lane_logs.specs.SeatNumbers.{worker_count};
ghost use Rattle.lane_turns.specs.AllWorkers.{AreReady, clock_seat};
ghost use Rattle.lane_turns.specs.Benches.{AreLanes, AreWorkers, IsRow};
ghost use Rattle.lane_turns.specs.LaneOf.{seat_of};
ghost use Rattle.lane_turns.specs.LaneValues.{handlers, reactor};
ghost use Rattle.lane_turns.specs.Rooms.{EachAt};
ghost use Rattle.lane_context.specs.SessionRooms.{AreCallRooms, AreFresh, standing_by};

use crate::beginning::Beginning;
use crate::context::Context;
use crate::session_room::{LaneRoom, SessionRoom};
use crate::worker::Worker;
use crate::workers::Workers;
use lane_clock::LaneClock;
use lane_logs::LaneSession;
use lane_map::{LaneMap, lanes_have_cells};
use lane_turns::{Baton, HandlerBaton, Lookout, ReactorBaton, Slot, WorkerSeat};
use op_handlers::CompletionHandler;
use reactor_trait::Reactor;
use session_script::Script;
use strand_core::Posted;
use turn_table::TurnSeat;

/// Lays the lanes on which handlers execute on the bench, each in a box.
fn lay_handlers<'a, X: Reactor, H: CompletionHandler, N: LaneSession>(
    batons: Vec<HandlerBaton<'a, H, N>>,
    slots: Vec<Slot<HandlerBaton<'a, H, N>>>,
    bench: Vec<Baton<'a, X, H, N>>,
) -> Vec<Baton<'a, X, H, N>>
    requires slots { slots.items ≡ replicate (length batons.items) None }
    requires none { bench.items ≡ [] }
    requires room { length batons.items ≤ vec_capacity bench }
    ensures all { result.items ≡ map (λ baton. handlers (Some baton)) batons.entry.items }
    ensures room { vec_capacity result ≡ vec_capacity bench.entry }
{
    let mut bench = bench;
    let mut slots = slots;
    let mut rest = batons.into_iter();
    while let Some(baton) = rest.next() {
        let Some(slot) = slots.pop() else {
            unreachable!();
        };
        bench.push_reserved(Baton::of_handlers(baton, slot));
    }
    slots.destroy_empty();
    rest.destroy_empty();
    bench
}

/// The workers, each with its seat of the clock, and none of the table yet.
fn stand_by<'a, X: Reactor, H: CompletionHandler, N: LaneSession>(
    seats: Vec<WorkerSeat<N>>,
    calls: Vec<Vec<Posted>>,
    lookouts: Vec<Lookout>,
    workers: Vec<Worker<'a, X, H, N>>,
) -> Vec<Worker<'a, X, H, N>>
    requires calls { AreCallRooms N.names.script (length seats.items) calls.items }
    requires lookouts { length lookouts.items ≡ length seats.items }
    requires none { workers.items ≡ [] }
    requires room { length seats.items ≤ vec_capacity workers }
    ensures { result.items ≡ map standing_by seats.items }
{
    let mut workers = workers;
    let mut calls = calls;
    let mut lookouts = lookouts;
    let mut rest = seats.into_iter();
    while let Some(seat) = rest.next() {
        let Some(made) = calls.pop() else {
            unreachable!();
        };
        let Some(lookout) = lookouts.pop() else {
            unreachable!();
        };
        workers.push_reserved(Worker {
            seat,
            turns: None,
            kept: None,
            last: None,
            lookout,
            made: Some(made),
        });
    }
    workers
}

impl<'a, X: Reactor, H: CompletionHandler, N: LaneSession> Context<'a, X, H, N> {
    /// Gives every lane its value, and every worker its seat, by the seat that has all turns.
    fn seat_first(
        &self,
        workers: &mut [Worker<'a, X, H, N>],
        bench: &mut Vec<Baton<'a, X, H, N>>,
        seat: TurnSeat,
    )
        requires rows { AreWorkers clock_seat N.names.script workers.old }
        requires fresh { AreFresh workers.old }
        requires count { self.now.seats ≡ worker_count N.names.script }
        requires seat { seat ≡ seat_of_all self.now }
        requires lanes { AreLanes seat_of N.names.script bench.old.items }
        ensures ready { AreReady N.names.script self.now workers.new }
        ensures fresh { AreFresh workers.new }
        ensures none { bench.new.items ≡ [] }
        ensures room { vec_capacity bench.new ≡ vec_capacity bench.old }
    {
        let _script = self.script;
        self.put_away(workers, bench, seat);
    }
}

impl<'a, X: Reactor, H: CompletionHandler, N: LaneSession> SessionRoom<'a, X, H, N> {
    /// The context and its workers, of all that takes part. Takes no memory but the room.
    pub(crate) fn set_out(
        self,
        clock: LaneClock,
        script: &'a Script,
        map: &'a LaneMap<'a>,
        begun: Beginning<'a, X, H, N>,
    ) -> (Context<'a, X, H, N>, Workers<'a, X, H, N>)
        requires clock { clock ≡ N.clock }
        requires plan { N.clock.plan ≡ session_layout N.names.script }
        requires script { script.now ≡ N.names.script }
        requires map { map.now ≡ script.now }
        requires lanes { IsRow (λ baton. baton.lane.pen.seat) 0 (reactor_lane N.names.script)
            begun.batons.items }
        requires last { begun.reactor.lane.pen.seat.number ≡ reactor_lane N.names.script }
        requires workers { AreWorkers (λ seat. seat.pen.seat) N.names.script begun.workers.items }
        requires none_drawn { EachAt (λ k seat. seat.pen.log ≡ []) begun.workers.items }
        ensures ready { AreReady N.names.script result.0 result.1.all }
        ensures fresh { AreFresh result.1.all }
        ensures opener { result.1.opener ≡ begun.entry.opener }
    {
        lanes_have_cells(script);
        let SessionRoom {
            lanes,
            calls,
            lookouts,
            turns,
            seat,
            ending,
        } = self;
        let LaneRoom {
            reactor,
            handlers,
            bench,
            workers,
        } = lanes;
        let Beginning {
            opener,
            batons,
            reactor: last,
            workers: seats,
        } = begun;
        let mut bench = lay_handlers(batons, handlers, bench);
        bench.push_reserved(Baton::of_reactor(last, reactor));
        let mut all = stand_by(seats, calls, lookouts, workers);
        let context = Context {
            clock,
            script,
            map,
            turns,
        };
        context.seat_first(all.as_mut_slice(), &mut bench, seat);
        let workers = Workers {
            all,
            opener,
            bench,
            room: ending,
        };
        (context, workers)
    }
}
