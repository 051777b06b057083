//! A context at rest: what it says of operations is final.
ghost use Rattle.std.specs.Prelude.{◌≡◌, ◌+◌, [], ℕ, IfNone, IfSome, length, slice_get, slice_index_or, true};
ghost use Rattle.lane_clock.specs.Seats.{Remembers, copy_seat};
ghost use Rattle.lane_map.specs.LaneNumbers.{has_cell, reactor_lane};
ghost use Rattle.lane_logs.specs.AtRest.{FoundNoneFrom, IsAtRest};
ghost use Rattle.lane_logs.specs.Cuts.{EventsAreCuts};
ghost use Rattle.lane_logs.specs.KeptLogs.{LetGo, logs_in};
ghost use Rattle.lane_logs.specs.Logs.{AreLogs, session_layout};
ghost use Rattle.lane_logs.specs.Knowing.{lists_of};
ghost use Rattle.lane_logs.specs.Receipts.{IsReceiptOf};
ghost use Rattle.lane_logs.specs.SeatNumbers.{lane_count, opener_seat, worker_count};
ghost use Rattle.lane_turns.specs.AtRest.{HasOnlyLooked, rest_lists};
ghost use Rattle.lane_turns.specs.Attending.{AreHeard, HasGoneOn};
ghost use Rattle.lane_turns.specs.EndingRooms.{HasLeavingRoom};
ghost use Rattle.lane_turns.specs.Finishing.{IsGivenBack, IsOver, KeepLogsOf};
ghost use Rattle.lane_turns.specs.KeptSteps.{KeepStepsOf};
ghost use Rattle.lane_turns.specs.Turning.{log_half};

use asio_types::OpNo;
use lane_clock::{LaneClock, LaneCopy};
use lane_logs::{LaneSession, Logs, Receipt};
use lane_map::{LaneMap, lanes_have_cells};
use lane_turns::{Attendee, Ending, LeavingRoom, Opener, finish, hear_all, operations_have_lanes};
use op_handlers::CompletionHandler;
use reactor_trait::Reactor;
use session_script::Script;
use std::marker::Model;

/// A context whose workers are at rest (Asio reference, io_context::~io_context): nobody executes a
/// handler of it any more, so what it says of an operation is final, also where the reactor failed.
pub struct AtRest<'a, X: Reactor, H: CompletionHandler, N: LaneSession> {
    clock: LaneClock,
    script: &'a Script,
    map: &'a LaneMap<'a>,
    ending: Ending<'a, X, H, N>,
    room: LeavingRoom<'a, H>,
    // what the opener knew when all came to rest; it has no bytes
    rested: LaneCopy,
}

impl<'a, X: Reactor, H: CompletionHandler, N: LaneSession> Model for AtRest<'a, X, H, N> {
    ghost use Rattle.std.specs.Prelude.{◌≡◌, ◌+◌, ◌≤◌, ℕ, IfSome, length, slice_get};
    ghost use Rattle.lane_clock.specs.Seats.{own};
    ghost use Rattle.lane_map.specs.LaneNumbers.{reactor_lane};
    ghost use Rattle.lane_logs.specs.AtRest.{IsAtRest};
    ghost use Rattle.lane_turns.specs.AtRest.{HasHeardPens, RestView};
    ghost use Rattle.lane_logs.specs.Cuts.{EventsAreCuts};
    ghost use Rattle.lane_turns.specs.EndingRooms.{HasLeavingRoom};
    ghost use Rattle.lane_turns.specs.Finishing.{IsOver, lanes_in, pens_of};
    ghost use Rattle.lane_logs.specs.Logs.{session_layout};
    ghost use Rattle.lane_logs.specs.Knowing.{lists_of};
    ghost use Rattle.lane_logs.specs.SeatNumbers.{lane_count, opener_seat, worker_count};

    ghost Value = { RestView };

    ghost view = { λ a. record {
      known = a.ending.opener.pen.seat;
      workers = a.ending.workers.items;
      since = length (own a.rested);
    } };

    ghost invariant = { λ a. record {
      clock : a.clock ≡ N.clock;
      plan : a.clock.plan ≡ session_layout N.names.script;
      script : a.script.now ≡ N.names.script;
      map : a.map.now ≡ N.names.script;
      batons : length a.ending.batons.items ≡ reactor_lane N.names.script;
      numbers : (k : ℕ) → IfSome (slice_get a.ending.batons.items k)
          (λ baton. baton.lane.lane ≡ k);
      workers : length a.ending.workers.items ≡ worker_count N.names.script;
      work_numbers : (k : ℕ) → IfSome (slice_get a.ending.workers.items k)
          (λ worker. worker.pen.seat.number ≡ lane_count N.names.script + k);
      cuts : EventsAreCuts N.names.script (lists_of a.ending.opener.pen.seat);
      over : IsOver N.names.script a.ending.opener;
      room : HasLeavingRoom N.names.script a.room;
      heard : HasHeardPens a.ending.opener
          (pens_of (lanes_in a.ending.batons.items a.ending.reactor.lane) a.ending.workers.items);
      rests : IsAtRest N.names.script (lists_of a.ending.opener.pen.seat) (length (own a.rested));
      made : length (own a.rested)
          ≤ length (lists_of a.ending.opener.pen.seat (opener_seat N.names.script));
    } };
}

/// Hears what all of a list did.
fn hear_each<N: LaneSession, T: Attendee<N>>(
    opener: &mut Opener<N>,
    clock: &LaneClock,
    all: &mut Vec<T>,
)
    requires clock { clock.now ≡ N.clock }
    ensures same { all.new.items ≡ all.old.items }
    ensures on { HasGoneOn opener.old opener.new }
    ensures heard { AreHeard T.seat N.names.script opener.new all.old.items (length all.old.items) }
{
    hear_all(opener, clock, all.as_mut_slice());
}

/// A copy of what the opener knows.
fn knowledge<N: LaneSession>(opener: &mut Opener<N>, clock: &LaneClock) -> LaneCopy
    requires clock { clock.now ≡ N.clock }
    ensures copy { result ≡ copy_seat opener.old.pen.seat }
    ensures same { opener.new ≡ opener.old }
{
    opener.pen.split(clock)
}

/// Brings all that takes part in a session to rest: the opener hears what the lanes and the workers
/// did, so that it knows every step.
pub(crate) fn bring_to_rest<'a, X: Reactor, H: CompletionHandler, N: LaneSession>(
    clock: LaneClock,
    script: &'a Script,
    map: &'a LaneMap<'a>,
    ending: Ending<'a, X, H, N>,
    room: LeavingRoom<'a, H>,
) -> AtRest<'a, X, H, N>
    requires clock { clock ≡ N.clock }
    requires plan { clock.plan ≡ session_layout N.names.script }
    requires script { script.now ≡ N.names.script }
    requires map { map.now ≡ N.names.script }
    requires batons { length ending.batons.items ≡ reactor_lane N.names.script }
    requires numbers { (k : ℕ) → IfSome (slice_get ending.batons.items k)
        (λ baton. baton.lane.lane ≡ k) }
    requires workers { length ending.workers.items ≡ worker_count N.names.script }
    requires work_numbers { (k : ℕ) → IfSome (slice_get ending.workers.items k)
        (λ worker. worker.pen.seat.number ≡ lane_count N.names.script + k) }
    requires cuts { EventsAreCuts N.names.script (lists_of ending.opener.pen.seat) }
    requires over { IsOver N.names.script ending.opener }
    requires room { HasLeavingRoom N.names.script room }
    ensures workers { result.workers ≡ ending.entry.workers.items }
    ensures remembers { Remembers ending.entry.opener.pen.seat result.known }
    ensures since { result.since ≡ length (rest_lists result (opener_seat N.names.script)) }
{
    let Ending {
        mut opener,
        mut batons,
        mut reactor,
        mut workers,
    } = ending;
    opener.is_one();
    hear_each(&mut opener, &clock, &mut batons);
    reactor.report(&mut opener, &clock);
    hear_each(&mut opener, &clock, &mut workers);
    let rested = knowledge(&mut opener, &clock);
    opener.is_one();
    let ending = Ending {
        opener,
        batons,
        reactor,
        workers,
    };
    AtRest {
        clock,
        script,
        map,
        ending,
        room,
        rested,
    }
}

impl<'a, X: Reactor, H: CompletionHandler, N: LaneSession> AtRest<'a, X, H, N> {
    /// The receipt of an operation that doesn't execute inside its call: an asynchronous one that
    /// completed, or a posting that was called. `None` where it didn't, and never will. Takes no
    /// memory, and time in proportion to the cells of its lane.
    pub fn result(&mut self, op: OpNo) -> Option<Receipt>
        requires op { has_cell N.names.script op ≡ true }
        ensures op { IfSome result (λ receipt. receipt.op ≡ op) }
        ensures receipt { IfSome result
            (IsReceiptOf N.names.script (rest_lists self.new (opener_seat N.names.script))) }
        ensures none { IfNone result
            (FoundNoneFrom N.names.script (rest_lists self.new) self.new.since op) }
        ensures stays { HasOnlyLooked N.names.script self.old self.new }
    {
        lanes_have_cells(self.script);
        operations_have_lanes(self.script);
        let lane = self.map.home(op);
        let cells = self.map.cells()[lane as usize];
        self.ending.opener.find(&self.clock, lane, cells, op)
    }

    /// Ends the session: destroys the handlers that never began, by rising number, and gives the logs
    /// and the reactor back (Asio reference, io_context::~io_context). Takes no memory, and time in
    /// proportion to the acts, the logs, the lanes and the workers.
    pub fn finish(self) -> (Logs, X)
        ensures logs { AreLogs N.names (logs_in result.0) }
        ensures let_go { LetGo N.names result.0 }
        ensures rest { IsAtRest N.names.script (logs_in result.0).lists self.entry.since }
        ensures worker_logs { KeepLogsOf (λ worker. worker.pen.log) N.names.script
            (logs_in result.0) self.entry.workers }
        ensures worker_steps { KeepStepsOf (λ worker. worker.pen.seat) N.names.script
            (logs_in result.0) self.entry.workers }
        ensures remembers { Remembers self.entry.known result.0.known }
        ensures reactor { IsGivenBack N.names.told (log_half N.names
            (slice_index_or result.0.entries (reactor_lane N.names.script) []))
            N.faults (X.faults result.1) (X.state result.1) (X.told result.1) }
    {
        let AtRest {
            clock,
            script,
            map,
            ending,
            room,
            rested: _,
        } = self;
        finish(clock, script, map, ending, room)
    }
}
