//! The end of a context without a lock.
ghost use Rattle.std.specs.Prelude.{◌≡◌, ◌<◌, ◌≤◌, [], ℕ, IfSome, None, length, map, slice_get, slice_index_or, vec_capacity};
ghost use Rattle.lane_clock.specs.Seats.{Remembers};
ghost use Rattle.lane_map.specs.LaneNumbers.{reactor_lane};
ghost use Rattle.lane_logs.specs.KeptLogs.{LetGo, logs_in};
ghost use Rattle.lane_logs.specs.Logs.{AreLogs};
ghost use Rattle.lane_logs.specs.SeatNumbers.{opener_seat};
ghost use Rattle.lane_turns.specs.AllWorkers.{AreCuts, AreReady, clock_seat, log_of};
ghost use Rattle.lane_turns.specs.AtRest.{rest_lists};
ghost use Rattle.lane_turns.specs.Benches.{AreWorkers};
ghost use Rattle.lane_turns.specs.Finishing.{IsGivenBack, IsOver, KeepLogsOf};
ghost use Rattle.lane_turns.specs.Gathering.{AreSeated, StandsForFirst, unseated};
ghost use Rattle.lane_turns.specs.KeptSteps.{KeepStepsOf};
ghost use Rattle.lane_turns.specs.Turning.{log_half};

use crate::at_rest::{AtRest, bring_to_rest};
use crate::context::Context;
use crate::worker::Worker;
use crate::workers::Workers;
use lane_logs::{LaneSession, Logs};
use lane_turns::{Ending, EndingRoom, LaneBatons, Opener, WorkerSeat, part_values};
use op_handlers::CompletionHandler;
use reactor_trait::Reactor;
use turn_table::TurnSeat;

impl<'a, X: Reactor, H: CompletionHandler, N: LaneSession> Worker<'a, X, H, N> {
    /// Its seat of the clock, where it keeps no lane.
    fn into_seat(self) -> WorkerSeat<N>
        requires free { self.kept ≡ None }
        ensures { result ≡ self.entry.seat }
    {
        let Worker {
            seat,
            turns: _,
            kept,
            last: _,
            lookout: _,
            made: _,
        } = self;
        match kept {
            None => seat,
            Some(_value) => unreachable!(),
        }
    }
}

/// The seats of workers that keep no lane, in the order of their numbers. `seats` is the room for
/// them.
fn seats_of<'a, X: Reactor, H: CompletionHandler, N: LaneSession>(
    workers: Vec<Worker<'a, X, H, N>>,
    seats: Vec<WorkerSeat<N>>,
) -> Vec<WorkerSeat<N>>
    requires free { (k : ℕ) → IfSome (slice_get workers.items k) (λ one. one.kept ≡ None) }
    requires none { seats.items ≡ [] }
    requires room { length workers.items ≤ vec_capacity seats }
    ensures { result.items ≡ map (λ worker. worker.seat) workers.entry.items }
{
    let mut all = seats;
    let mut rest = workers.into_iter();
    while let Some(worker) = rest.next() {
        all.push_reserved(worker.into_seat());
    }
    rest.destroy_empty();
    all
}

impl<'a, X: Reactor, H: CompletionHandler, N: LaneSession> Context<'a, X, H, N> {
    /// Gathers the seats of all workers, who keep no lane then.
    fn gather_all(&self, workers: &mut Vec<Worker<'a, X, H, N>>) -> TurnSeat
        requires some { 0 < length workers.old.items }
        requires seats { AreSeated self.now workers.old.items }
        ensures seat { StandsForFirst self.now self.now.seats result }
        ensures left { workers.new.items ≡ map unseated workers.old.items }
    {
        self.gather_seats(workers.as_mut_slice())
    }

    /// Closes the table of turns, and brings what lies there to rest.
    fn come_to_rest(
        self,
        seat: TurnSeat,
        opener: Opener<N>,
        workers: Vec<Worker<'a, X, H, N>>,
        room: EndingRoom<'a, H, N>,
    ) -> AtRest<'a, X, H, N>
        requires seat { StandsForFirst self self.seats seat }
        requires workers { AreWorkers clock_seat N.names.script workers.items }
        requires free { (k : ℕ) → IfSome (slice_get workers.items k) (λ one. one.kept ≡ None) }
        requires cuts { AreCuts N.names.script opener }
        requires over { IsOver N.names.script opener }
        ensures workers { result.workers ≡ map (λ worker. worker.seat) workers.entry.items }
        ensures remembers { Remembers opener.pen.seat result.known }
        ensures since { result.since ≡ length (rest_lists result (opener_seat N.names.script)) }
    {
        let Context {
            clock,
            script,
            map,
            turns,
        } = self;
        let EndingRoom {
            batons,
            seats,
            leaving,
        } = room;
        let values = turns.close(seat).into_vec();
        let LaneBatons { handlers, reactor } = part_values(values, batons);
        let ending = Ending {
            opener,
            batons: handlers,
            reactor,
            workers: seats_of(workers, seats),
        };
        bring_to_rest(clock, script, map, ending, leaving)
    }

    /// Brings the context to rest, where all rounds are closed or the opener knows that the reactor
    /// failed: its workers are given up, and what they and the lanes did is taken in. Takes no memory,
    /// and time in proportion to the lanes and the workers.
    pub fn rest(self, workers: Workers<'a, X, H, N>) -> AtRest<'a, X, H, N>
        requires ready { AreReady N.names.script self workers.all }
        requires cuts { AreCuts N.names.script workers.opener }
        requires over { IsOver N.names.script workers.opener }
        ensures workers { result.workers ≡ map (λ worker. worker.seat) workers.entry.all }
        ensures remembers { Remembers workers.entry.opener.pen.seat result.known }
        ensures since { result.since ≡ length (rest_lists result (opener_seat N.names.script)) }
    {
        let Workers {
            mut all,
            opener,
            bench,
            room,
        } = workers;
        let seat = self.gather_all(&mut all);
        bench.destroy_empty();
        self.come_to_rest(seat, opener, all, room)
    }

    /// Ends the session, where all rounds are closed or the opener knows that the reactor failed:
    /// destroys the handlers that never began, by rising number, and gives the logs and the reactor
    /// back (Asio reference, io_context::~io_context). Takes no memory, and time in proportion to
    /// the acts, the logs, the lanes and the workers.
    pub fn finish(self, workers: Workers<'a, X, H, N>) -> (Logs, X)
        requires ready { AreReady N.names.script self workers.all }
        requires cuts { AreCuts N.names.script workers.opener }
        requires over { IsOver N.names.script workers.opener }
        ensures logs { AreLogs N.names (logs_in result.0) }
        ensures let_go { LetGo N.names result.0 }
        ensures worker_logs { KeepLogsOf log_of N.names.script (logs_in result.0) workers.entry.all }
        ensures worker_steps { KeepStepsOf clock_seat N.names.script (logs_in result.0)
            workers.entry.all }
        ensures remembers { Remembers workers.entry.opener.pen.seat result.0.known }
        ensures reactor { IsGivenBack N.names.told (log_half N.names
            (slice_index_or result.0.entries (reactor_lane N.names.script) []))
            N.faults (X.faults result.1) (X.state result.1) (X.told result.1) }
    {
        self.rest(workers).finish()
    }
}
