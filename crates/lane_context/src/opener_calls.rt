//! The opener's calls: at each, all turns are in its hands, and every lane and worker takes part.
ghost use Rattle.std.specs.Prelude.{◌≡◌, ◌<◌, ◌≤◌, [], ℕ, IfSome, IsFalse, IsTrue, None, length, map, slice_get, true, vec_capacity};
ghost use Rattle.lane_logs.specs.SeatNumbers.{lane_count};
ghost use Rattle.lane_logs.specs.Stand.{first_stand, wants_restart};
ghost use Rattle.lane_turns.specs.AllWorkers.{AreCuts, AreReady, HadFailed, HasAllTurns, KnowTheRound, NoneFaulted, clock_seat, last_of, log_of};
ghost use Rattle.lane_turns.specs.Benches.{AreLanes, AreWorkers, HasHeld, ReactorGoesOn};
ghost use Rattle.lane_turns.specs.Besides.{besides_of, rests_of};
ghost use Rattle.lane_turns.specs.ClosingTries.{HasHeardFailure};
ghost use Rattle.lane_turns.specs.Gathering.{AreSeated, HaveSatDown, unseated};
ghost use Rattle.lane_turns.specs.KnownFaults.{ReactorFailed};
ghost use Rattle.lane_turns.specs.LaneOf.{seat_of};
ghost use Rattle.lane_turns.specs.LaneValues.{terms};
ghost use Rattle.lane_turns.specs.OpenerEvents.{HasOpened, HasRestarted};

use crate::context::Context;
use crate::worker::Worker;
use crate::workers::Workers;
use lane_clock::LaneClock;
use lane_logs::LaneSession;
use lane_turns::{Baton, Opener, hear_all, open_all, restart_all};
use op_handlers::CompletionHandler;
use reactor_trait::Reactor;
use turn_table::TurnSeat;

impl<'a, X: Reactor, H: CompletionHandler, N: LaneSession> Context<'a, X, H, N> {
    /// Gathers all seats, and takes every turn: the values of all lanes lie on the bench.
    pub(crate) fn lay_out(
        &self,
        workers: &mut [Worker<'a, X, H, N>],
        bench: &mut Vec<Baton<'a, X, H, N>>,
    ) -> TurnSeat
        requires some { 0 < length workers.old }
        requires seats { AreSeated self.now workers.old }
        requires none { bench.old.items ≡ [] }
        requires room { lane_count N.names.script ≤ vec_capacity bench.old }
        ensures left { workers.new ≡ map unseated workers.old }
        ensures lanes { AreLanes seat_of N.names.script bench.new.items }
        ensures seat { HasAllTurns N.names.script self.now (length workers.old) result }
        ensures room { vec_capacity bench.new ≡ vec_capacity bench.old }
    {
        let mut seat = self.gather_seats(workers);
        self.take_turns(&mut seat, bench);
        seat
    }

    /// Gives every turn back, and each worker its seat.
    pub(crate) fn put_away(
        &self,
        workers: &mut [Worker<'a, X, H, N>],
        bench: &mut Vec<Baton<'a, X, H, N>>,
        seat: TurnSeat,
    )
        requires some { 0 < length workers.old }
        requires free { (k : ℕ) → IfSome (slice_get workers.old k) (λ one. one.kept ≡ None) }
        requires lanes { AreLanes seat_of N.names.script bench.old.items }
        requires seat { HasAllTurns N.names.script self.now (length workers.old) seat }
        ensures sat { HaveSatDown self.now 0 workers.old workers.new }
        ensures none { bench.new.items ≡ [] }
        ensures room { vec_capacity bench.new ≡ vec_capacity bench.old }
    {
        let mut rest = seat;
        self.give_turns(&mut rest, bench);
        self.part_seats(workers, rest);
    }

    /// The calls of `open`, with all seats gathered and all values on the bench.
    fn open_bench(
        &self,
        opener: &mut Opener<N>,
        workers: &mut [Worker<'a, X, H, N>],
        bench: &mut Vec<Baton<'a, X, H, N>>,
    )
        requires ready { AreReady N.names.script self.now workers.old }
        requires none_drawn { opener.old.pen.log ≡ [] }
        requires first { opener.old.stand ≡ first_stand N.names.script }
        requires none { bench.old.items ≡ [] }
        requires room { lane_count N.names.script ≤ vec_capacity bench.old }
        ensures opened { HasHeld (HasOpened N.names.script) opener.old opener.new }
        ensures cuts { AreCuts N.names.script opener.new }
        ensures ready { AreReady N.names.script self.now workers.new }
        ensures rounds { KnowTheRound N.names.script opener.new.stand workers.new }
        ensures lasts { map last_of workers.new ≡ map last_of workers.old }
        ensures logs { map log_of workers.new ≡ map log_of workers.old }
        ensures none { bench.new.items ≡ [] }
        ensures room { vec_capacity bench.new ≡ vec_capacity bench.old }
    {
        let seat = self.lay_out(workers, bench);
        open_all(
            opener,
            &self.clock,
            self.script,
            self.map,
            bench.as_mut_slice(),
            workers,
        );
        self.put_away(workers, bench, seat);
    }

    /// Makes the calls of `open`, once and first of all (Asio reference, asio::post): each worker and
    /// each lane takes that in. Takes no memory.
    pub fn opening(&mut self, workers: &mut Workers<'a, X, H, N>)
        requires ready { AreReady N.names.script self.old workers.old.all }
        requires none { workers.old.opener.pen.log ≡ [] }
        requires first { workers.old.opener.stand ≡ first_stand N.names.script }
        ensures same { self.new ≡ self.old }
        ensures opened { HasHeld (HasOpened N.names.script) workers.old.opener workers.new.opener }
        ensures cuts { AreCuts N.names.script workers.new.opener }
        ensures ready { AreReady N.names.script self.new workers.new.all }
        ensures rounds { KnowTheRound N.names.script workers.new.opener.stand workers.new.all }
        ensures lasts { map last_of workers.new.all ≡ map last_of workers.old.all }
        ensures logs { map log_of workers.new.all ≡ map log_of workers.old.all }
    {
        self.open_bench(
            &mut workers.opener,
            workers.all.as_mut_slice(),
            &mut workers.bench,
        );
    }

    /// Restarts the context for the next round (Asio reference, io_context::restart), where no fault
    /// came: each worker and each lane takes that in. Answers whether it did: not where the reactor
    /// had failed, of which no worker told; then the opener hears of it. Takes no memory.
    pub fn restart(&mut self, workers: &mut Workers<'a, X, H, N>) -> bool
        requires ready { AreReady N.names.script self.old workers.old.all }
        requires opened { workers.old.opener.stand.opening ≡ 0 }
        requires wanted { wants_restart N.names.script workers.old.opener.stand ≡ true }
        requires cuts { AreCuts N.names.script workers.old.opener }
        requires no_fault { NoneFaulted workers.old.all }
        ensures same { self.new ≡ self.old }
        ensures restarted { IsTrue result →
            HasHeld HasRestarted workers.old.opener workers.new.opener }
        ensures failed { IsFalse result → HasHeardFailure
            (terms N.names H.marks X.state X.told X.faults N.faults N.clock) workers.old.opener
            workers.new.opener }
        ensures cuts { AreCuts N.names.script workers.new.opener }
        ensures ready { AreReady N.names.script self.new workers.new.all }
        ensures rounds { IsTrue result →
            KnowTheRound N.names.script workers.new.opener.stand workers.new.all }
        ensures lasts { map last_of workers.new.all ≡ map last_of workers.old.all }
        ensures logs { map log_of workers.new.all ≡ map log_of workers.old.all }
    {
        self.restart_bench(
            &mut workers.opener,
            workers.all.as_mut_slice(),
            &mut workers.bench,
        )
    }

    /// A restart, with all seats gathered and all values on the bench; none where the reactor failed.
    fn restart_bench(
        &self,
        opener: &mut Opener<N>,
        workers: &mut [Worker<'a, X, H, N>],
        bench: &mut Vec<Baton<'a, X, H, N>>,
    ) -> bool
        requires ready { AreReady N.names.script self.now workers.old }
        requires opened { opener.old.stand.opening ≡ 0 }
        requires wanted { wants_restart N.names.script opener.old.stand ≡ true }
        requires cuts { AreCuts N.names.script opener.old }
        requires none { bench.old.items ≡ [] }
        requires room { lane_count N.names.script ≤ vec_capacity bench.old }
        ensures restarted { IsTrue result → HasHeld HasRestarted opener.old opener.new }
        ensures failed { IsFalse result → HasHeardFailure
            (terms N.names H.marks X.state X.told X.faults N.faults N.clock) opener.old opener.new }
        ensures cuts { AreCuts N.names.script opener.new }
        ensures ready { AreReady N.names.script self.now workers.new }
        ensures rounds { IsTrue result →
            KnowTheRound N.names.script opener.new.stand workers.new }
        ensures lasts { map last_of workers.new ≡ map last_of workers.old }
        ensures logs { map log_of workers.new ≡ map log_of workers.old }
        ensures none { bench.new.items ≡ [] }
        ensures room { vec_capacity bench.new ≡ vec_capacity bench.old }
    {
        let seat = self.lay_out(workers, bench);
        let restarted = self.restart_on_bench(opener, workers, bench.as_mut_slice());
        self.put_away(workers, bench, seat);
        restarted
    }

    /// A restart, with the values of all lanes on the bench.
    fn restart_on_bench(
        &self,
        opener: &mut Opener<N>,
        workers: &mut [Worker<'a, X, H, N>],
        bench: &mut [Baton<'a, X, H, N>],
    ) -> bool
        requires rows { AreWorkers clock_seat N.names.script workers.old }
        requires lanes { AreLanes seat_of N.names.script bench.old }
        requires opened { opener.old.stand.opening ≡ 0 }
        requires wanted { wants_restart N.names.script opener.old.stand ≡ true }
        requires cuts { AreCuts N.names.script opener.old }
        ensures restarted { IsTrue result → HasHeld HasRestarted opener.old opener.new }
        ensures failed { IsFalse result → HasHeardFailure
            (terms N.names H.marks X.state X.told X.faults N.faults N.clock) opener.old opener.new }
        ensures rows { AreWorkers clock_seat N.names.script workers.new }
        ensures lanes { AreLanes seat_of N.names.script bench.new }
        ensures cuts { AreCuts N.names.script opener.new }
        ensures rounds { IsTrue result →
            KnowTheRound N.names.script opener.new.stand workers.new }
        ensures rest { rests_of besides_of workers.new ≡ rests_of besides_of workers.old }
    {
        if hear_failure(opener, &self.clock, bench) {
            return false;
        }
        restart_all(opener, &self.clock, self.script, bench, workers);
        true
    }
}

/// Whether the reactor has failed, by its lane's value on the bench; then the opener takes in what
/// that lane did.
pub(crate) fn hear_failure<'a, X: Reactor, H: CompletionHandler, N: LaneSession>(
    opener: &mut Opener<N>,
    clock: &LaneClock,
    bench: &mut [Baton<'a, X, H, N>],
) -> bool
    requires clock { clock.now ≡ N.clock }
    requires lanes { AreLanes seat_of N.names.script bench.old }
    requires cuts { AreCuts N.names.script opener.old }
    ensures bench { bench.new ≡ bench.old }
    ensures same { IsFalse result → opener.new ≡ opener.old }
    ensures goes_on { IsFalse result → ReactorGoesOn seat_of N.names.script bench.old }
    ensures failed { IsTrue result → HasHeardFailure
        (terms N.names H.marks X.state X.told X.faults N.faults N.clock) opener.old opener.new }
    ensures cuts { AreCuts N.names.script opener.new }
{
    if !has_failed(bench) {
        return false;
    }
    opener.is_one();
    hear_all(opener, clock, bench);
    true
}

/// Whether the reactor has failed, by its lane's value on the bench.
fn has_failed<'a, X: Reactor, H: CompletionHandler, N: LaneSession>(
    bench: &[Baton<'a, X, H, N>],
) -> bool
    requires lanes { AreLanes seat_of N.names.script bench.now }
    ensures goes_on { IsFalse result → ReactorGoesOn seat_of N.names.script bench.now }
    ensures stopped { IsTrue result → ReactorFailed seat_of N.names.script bench.now }
    ensures failed { IsTrue result →
        HadFailed (terms N.names H.marks X.state X.told X.faults N.faults N.clock) }
{
    let last = bench.len() - 1;
    let lane = &bench[last];
    lane.is_one();
    lane.is_failed()
}
