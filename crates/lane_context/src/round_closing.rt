//! Closing a round, with all turns in one hand.
ghost use Rattle.std.specs.Prelude.{◌≡◌, ◌≢◌, ◌<◌, ◌≤◌, [], IfNone, IfSome, length, map, true, vec_capacity};
ghost use Rattle.lane_logs.specs.SeatNumbers.{lane_count};
ghost use Rattle.lane_logs.specs.Stand.{is_round_open};
ghost use Rattle.lane_logs.specs.Knowing.{lists_of};
ghost use Rattle.lane_turns.specs.declared.closing_try.ClosingTry.TheVariants.{Failed, Refuted};
ghost use Rattle.lane_context.specs.declared.round_end.RoundEnd.TheVariants.{Fault};
ghost use Rattle.lane_turns.specs.AllMeeting.{HaveMetAfterFault};
ghost use Rattle.lane_turns.specs.AllWorkers.{AreCuts, AreReady, KnowTheRound, NoneFaulted, clock_seat, log_of};
ghost use Rattle.lane_turns.specs.Attending.{HasGoneOn, KnowsAllOf};
ghost use Rattle.lane_turns.specs.Benches.{AreLanes, AreWorkers};
ghost use Rattle.lane_turns.specs.Besides.{besides_of, rests_of};
ghost use Rattle.lane_turns.specs.ClosingTries.{TriedToClose};
ghost use Rattle.lane_turns.specs.Gathering.{NoneKeeps, StandsForFirst};
ghost use Rattle.lane_turns.specs.KeptSteps.{AllRemember};
ghost use Rattle.lane_turns.specs.KnownFaults.{KnowsFault};
ghost use Rattle.lane_turns.specs.LaneOf.{seat_of};
ghost use Rattle.lane_turns.specs.LaneValues.{terms, tries};
ghost use Rattle.lane_turns.specs.OwnRuns.{HasRunInVain};
ghost use Rattle.lane_context.specs.RoundEnds.{EndsRound, FaultCame, HasEndedRound, MeetIfOneKnew, OtherLastsStay, OwnRanLast, end_after, end_by, run_end_of};

use crate::context::Context;
use crate::opener_calls::hear_failure;
use crate::own_runs::{OwnRun, closing_after, has_one_faulted};
use crate::round_end::RoundEnd;
use crate::worker::Worker;
use crate::workers::Workers;
use lane_logs::LaneSession;
use lane_turns::{Baton, Closing, ClosingTry, Opener, close_all, meet_all};
use op_handlers::CompletionHandler;
use reactor_trait::Reactor;
use std::sync::Wait;
use turn_table::TurnSeat;

/// How a round ended, if it did, and the seat that stands for all numbers.
struct RoundTurn {
    end: Option<RoundEnd>,
    seat: TurnSeat,
}

/// How a round ended, and the seat that stands for all numbers.
struct RoundDone {
    end: RoundEnd,
    seat: TurnSeat,
}

impl<'a, X: Reactor, H: CompletionHandler, N: LaneSession> Context<'a, X, H, N> {
    /// One try to close a round so, by a seat that stands for all numbers: every turn is taken and
    /// given back.
    fn try_closing(
        &self,
        opener: &mut Opener<N>,
        workers: &mut [Worker<'a, X, H, N>],
        bench: &mut Vec<Baton<'a, X, H, N>>,
        seat: &mut TurnSeat,
        closing: Closing,
    ) -> ClosingTry
        requires rows { AreWorkers clock_seat N.names.script workers.old }
        requires seat { StandsForFirst self.now self.now.seats seat.old }
        requires round { is_round_open N.names.script opener.old.stand ≡ true }
        requires cuts { AreCuts N.names.script opener.old }
        requires none { bench.old.items ≡ [] }
        requires room { lane_count N.names.script ≤ vec_capacity bench.old }
        ensures tried { TriedToClose
            (terms N.names H.marks X.state X.told X.faults N.faults N.clock) closing result
            opener.old opener.new }
        ensures rows { AreWorkers clock_seat N.names.script workers.new }
        ensures cuts { AreCuts N.names.script opener.new }
        ensures met { result ≡ Failed →
            HaveMetAfterFault N.names.script (lists_of opener.new.pen.seat) }
        ensures rounds { result ≢ Refuted →
            KnowTheRound N.names.script opener.new.stand workers.new }
        ensures same { result ≡ Refuted → workers.new ≡ workers.old }
        ensures rest { rests_of besides_of workers.new ≡ rests_of besides_of workers.old }
        ensures remember { AllRemember clock_seat workers.old workers.new }
        ensures seat { StandsForFirst self.now self.now.seats seat.new }
        ensures none { bench.new.items ≡ [] }
        ensures room { vec_capacity bench.new ≡ vec_capacity bench.old }
    {
        self.take_turns(seat, bench);
        let tried = self.try_on_bench(opener, workers, bench.as_mut_slice(), closing);
        self.give_turns(seat, bench);
        tried
    }

    /// Such a try, with the values of all lanes on the bench. Where the reactor had failed, all meet
    /// without an event.
    fn try_on_bench(
        &self,
        opener: &mut Opener<N>,
        workers: &mut [Worker<'a, X, H, N>],
        bench: &mut [Baton<'a, X, H, N>],
        closing: Closing,
    ) -> ClosingTry
        requires rows { AreWorkers clock_seat N.names.script workers.old }
        requires lanes { AreLanes seat_of N.names.script bench.old }
        requires round { is_round_open N.names.script opener.old.stand ≡ true }
        requires cuts { AreCuts N.names.script opener.old }
        ensures tried { TriedToClose
            (terms N.names H.marks X.state X.told X.faults N.faults N.clock) closing result
            opener.old opener.new }
        ensures rows { AreWorkers clock_seat N.names.script workers.new }
        ensures lanes { AreLanes seat_of N.names.script bench.new }
        ensures cuts { AreCuts N.names.script opener.new }
        ensures met { result ≡ Failed →
            HaveMetAfterFault N.names.script (lists_of opener.new.pen.seat) }
        ensures rounds { result ≢ Refuted →
            KnowTheRound N.names.script opener.new.stand workers.new }
        ensures same { result ≡ Refuted → workers.new ≡ workers.old }
        ensures rest { rests_of besides_of workers.new ≡ rests_of besides_of workers.old }
        ensures remember { AllRemember clock_seat workers.old workers.new }
    {
        if hear_failure(opener, &self.clock, bench) {
            meet_all(opener, &self.clock, self.script, bench, workers);
            return ClosingTry::Failed;
        }
        if !close_all(
            opener,
            &self.clock,
            self.script,
            self.map,
            closing,
            bench,
            workers,
        ) {
            return ClosingTry::Refuted;
        }
        ClosingTry::Closed
    }

    /// All meet without an event, by a seat that stands for all numbers: every turn is taken and
    /// given back.
    fn meet_around(
        &self,
        opener: &mut Opener<N>,
        workers: &mut [Worker<'a, X, H, N>],
        bench: &mut Vec<Baton<'a, X, H, N>>,
        seat: &mut TurnSeat,
    )
        requires rows { AreWorkers clock_seat N.names.script workers.old }
        requires seat { StandsForFirst self.now self.now.seats seat.old }
        requires cuts { AreCuts N.names.script opener.old }
        requires none { bench.old.items ≡ [] }
        requires room { lane_count N.names.script ≤ vec_capacity bench.old }
        ensures on { HasGoneOn opener.old opener.new }
        ensures known { KnowsAllOf clock_seat opener.new workers.old }
        ensures worker_knew { MeetIfOneKnew N.names.script (lists_of opener.new.pen.seat) workers.old }
        ensures rows { AreWorkers clock_seat N.names.script workers.new }
        ensures cuts { AreCuts N.names.script opener.new }
        ensures rounds { KnowTheRound N.names.script opener.new.stand workers.new }
        ensures rest { rests_of besides_of workers.new ≡ rests_of besides_of workers.old }
        ensures remember { AllRemember clock_seat workers.old workers.new }
        ensures seat { StandsForFirst self.now self.now.seats seat.new }
        ensures none { bench.new.items ≡ [] }
        ensures room { vec_capacity bench.new ≡ vec_capacity bench.old }
    {
        self.take_turns(seat, bench);
        meet_all(
            opener,
            &self.clock,
            self.script,
            bench.as_mut_slice(),
            workers,
        );
        self.give_turns(seat, bench);
    }

    /// The caller's own worker runs, and the round is closed by its answer, if a load and looks bear
    /// that out.
    fn close_turn<Rt: Wait>(
        &self,
        rt: &Rt,
        opener: &mut Opener<N>,
        workers: &mut [Worker<'a, X, H, N>],
        bench: &mut Vec<Baton<'a, X, H, N>>,
        seat: TurnSeat,
    ) -> RoundTurn
        requires rows { AreWorkers clock_seat N.names.script workers.old }
        requires free { NoneKeeps workers.old }
        requires seat { StandsForFirst self.now self.now.seats seat }
        requires round { is_round_open N.names.script opener.old.stand ≡ true }
        requires cuts { AreCuts N.names.script opener.old }
        requires none { bench.old.items ≡ [] }
        requires room { lane_count N.names.script ≤ vec_capacity bench.old }
        ensures ended { IfSome result.end (λ now. HasEndedRound
            (tries (terms N.names H.marks X.state X.told X.faults N.faults N.clock) 16)
            self.now.lanes now opener.old opener.new workers.old workers.new) }
        ensures vain { IfNone result.end
            (HasRunInVain opener.old opener.new workers.old workers.new) }
        ensures rows { AreWorkers clock_seat N.names.script workers.new }
        ensures free { NoneKeeps workers.new }
        ensures cuts { AreCuts N.names.script opener.new }
        ensures seat { StandsForFirst self.now self.now.seats result.seat }
        ensures none { bench.new.items ≡ [] }
        ensures room { vec_capacity bench.new ≡ vec_capacity bench.old }
    {
        let OwnRun { end, mut seat } = self.run_last(rt, workers, seat);
        if has_one_faulted(workers) {
            self.meet_around(opener, workers, bench, &mut seat);
            let faulted = Some(RoundEnd::Fault);
            return RoundTurn { end: faulted, seat };
        }
        let Some(closing) = closing_after(end) else {
            unreachable!()
        };
        let tried = self.try_closing(opener, workers, bench, &mut seat, closing);
        let ended = end_after(tried, closing);
        RoundTurn { end: ended, seat }
    }

    /// The caller's own worker runs as often as a load or looks refute the closing.
    fn close_by_runs<Rt: Wait>(
        &self,
        rt: &Rt,
        opener: &mut Opener<N>,
        workers: &mut [Worker<'a, X, H, N>],
        bench: &mut Vec<Baton<'a, X, H, N>>,
        seat: TurnSeat,
    ) -> RoundDone
        requires rows { AreWorkers clock_seat N.names.script workers.old }
        requires free { NoneKeeps workers.old }
        requires faultless { NoneFaulted workers.old }
        requires seat { StandsForFirst self.now self.now.seats seat }
        requires round { is_round_open N.names.script opener.old.stand ≡ true }
        requires cuts { AreCuts N.names.script opener.old }
        requires none { bench.old.items ≡ [] }
        requires room { lane_count N.names.script ≤ vec_capacity bench.old }
        ensures ended { HasEndedRound
            (tries (terms N.names H.marks X.state X.told X.faults N.faults N.clock) 16)
            self.now.lanes result.end opener.old opener.new workers.old workers.new }
        ensures rows { AreWorkers clock_seat N.names.script workers.new }
        ensures free { NoneKeeps workers.new }
        ensures cuts { AreCuts N.names.script opener.new }
        ensures seat { StandsForFirst self.now self.now.seats result.seat }
        ensures none { bench.new.items ≡ [] }
        ensures room { vec_capacity bench.new ≡ vec_capacity bench.old }
    {
        let mut rest = seat;
        for _ in rt.forever() {
            let RoundTurn { end, seat } = self.close_turn(rt, opener, workers, bench, rest);
            rest = seat;
            if let Some(end) = end {
                return RoundDone { end, seat: rest };
            }
        }
        unreachable!()
    }

    /// Where a worker had met a fault of the reactor, nobody runs, and all meet.
    fn close_gathered<Rt: Wait>(
        &self,
        rt: &Rt,
        opener: &mut Opener<N>,
        workers: &mut [Worker<'a, X, H, N>],
        bench: &mut Vec<Baton<'a, X, H, N>>,
        seat: TurnSeat,
    ) -> RoundDone
        requires rows { AreWorkers clock_seat N.names.script workers.old }
        requires free { NoneKeeps workers.old }
        requires seat { StandsForFirst self.now self.now.seats seat }
        requires round { is_round_open N.names.script opener.old.stand ≡ true }
        requires cuts { AreCuts N.names.script opener.old }
        requires none { bench.old.items ≡ [] }
        requires room { lane_count N.names.script ≤ vec_capacity bench.old }
        ensures ended { HasEndedRound
            (tries (terms N.names H.marks X.state X.told X.faults N.faults N.clock) 16)
            self.now.lanes result.end opener.old opener.new workers.old workers.new }
        ensures rows { AreWorkers clock_seat N.names.script workers.new }
        ensures free { NoneKeeps workers.new }
        ensures cuts { AreCuts N.names.script opener.new }
        ensures seat { StandsForFirst self.now self.now.seats result.seat }
        ensures none { bench.new.items ≡ [] }
        ensures room { vec_capacity bench.new ≡ vec_capacity bench.old }
    {
        if has_one_faulted(workers) {
            let mut rest = seat;
            self.meet_around(opener, workers, bench, &mut rest);
            let end = RoundEnd::Fault;
            return RoundDone { end, seat: rest };
        }
        self.close_by_runs(rt, opener, workers, bench, seat)
    }

    /// The seats of all are gathered, the round is closed, and the seats are parted again.
    fn close_bench<Rt: Wait>(
        &self,
        rt: &Rt,
        opener: &mut Opener<N>,
        workers: &mut [Worker<'a, X, H, N>],
        bench: &mut Vec<Baton<'a, X, H, N>>,
    ) -> RoundEnd
        requires ready { AreReady N.names.script self.now workers.old }
        requires round { is_round_open N.names.script opener.old.stand ≡ true }
        requires cuts { AreCuts N.names.script opener.old }
        requires none { bench.old.items ≡ [] }
        requires room { lane_count N.names.script ≤ vec_capacity bench.old }
        ensures ended { HasEndedRound
            (tries (terms N.names H.marks X.state X.told X.faults N.faults N.clock) 16)
            self.now.lanes result opener.old opener.new workers.old workers.new }
        ensures ready { AreReady N.names.script self.now workers.new }
        ensures cuts { AreCuts N.names.script opener.new }
        ensures none { bench.new.items ≡ [] }
        ensures room { vec_capacity bench.new ≡ vec_capacity bench.old }
    {
        let seat = self.gather_seats(workers);
        let RoundDone { end, seat } = self.close_gathered(rt, opener, workers, bench, seat);
        self.part_seats(workers, seat);
        end
    }

    /// Closes the round, over its parts.
    fn end_round<Rt: Wait>(
        &self,
        rt: &Rt,
        opener: &mut Opener<N>,
        workers: &mut [Worker<'a, X, H, N>],
        bench: &mut Vec<Baton<'a, X, H, N>>,
    ) -> RoundEnd
        requires ready { AreReady N.names.script self.now workers.old }
        requires round { is_round_open N.names.script opener.old.stand ≡ true }
        requires cuts { AreCuts N.names.script opener.old }
        requires none { bench.old.items ≡ [] }
        requires room { lane_count N.names.script ≤ vec_capacity bench.old }
        ensures ended { EndsRound (terms N.names H.marks X.state X.told X.faults N.faults N.clock)
            result opener.old opener.new }
        ensures knows { result ≡ Fault → KnowsFault N.names.script opener.new.pen.seat }
        ensures came { result ≡ Fault → FaultCame
            (terms N.names H.marks X.state X.told X.faults N.faults N.clock) workers.new }
        ensures met { result ≡ Fault →
            HaveMetAfterFault N.names.script (lists_of opener.new.pen.seat) }
        ensures faultless { result ≢ Fault → NoneFaulted workers.new }
        ensures ran { result ≢ Fault → OwnRanLast
            (tries (terms N.names H.marks X.state X.told X.faults N.faults N.clock) 16)
            self.now.lanes (run_end_of result) workers.old workers.new }
        ensures others { OtherLastsStay workers.old workers.new }
        ensures logs { map log_of workers.new ≡ map log_of workers.old }
        ensures remember { AllRemember clock_seat workers.old workers.new }
        ensures rounds { KnowTheRound N.names.script opener.new.stand workers.new }
        ensures cuts { AreCuts N.names.script opener.new }
        ensures ready { AreReady N.names.script self.now workers.new }
        ensures none { bench.new.items ≡ [] }
        ensures room { vec_capacity bench.new ≡ vec_capacity bench.old }
    {
        self.close_bench(rt, opener, workers, bench)
    }

    /// Closes the round (Asio reference, io_context::run, ::poll, ::stopped). What a worker kept after
    /// a fault of the reactor is given back, and the seats of all are gathered. Unless the reactor
    /// failed, the caller's own worker runs, and the round is closed by its answer; it runs again as
    /// often as that isn't borne out by a load, and in a poll round by looks at the next cell of each
    /// lane. After a fault nothing is drawn, and the opener knows of it. Each worker takes in what all
    /// lanes and the opener did, after a fault too: nobody made a step between what the opener had taken in
    /// and that. Takes no memory but for hints of its own worker's `run`.
    pub fn close_round<Rt: Wait>(&mut self, rt: &Rt, workers: &mut Workers<'a, X, H, N>) -> RoundEnd
        requires ready { AreReady N.names.script self.old workers.old.all }
        requires round { is_round_open N.names.script workers.old.opener.stand ≡ true }
        requires cuts { AreCuts N.names.script workers.old.opener }
        ensures same { self.new ≡ self.old }
        ensures ended { EndsRound (terms N.names H.marks X.state X.told X.faults N.faults N.clock)
            result workers.old.opener workers.new.opener }
        ensures knows { result ≡ Fault →
            KnowsFault N.names.script workers.new.opener.pen.seat }
        ensures came { result ≡ Fault → FaultCame
            (terms N.names H.marks X.state X.told X.faults N.faults N.clock) workers.new.all }
        ensures met { result ≡ Fault →
            HaveMetAfterFault N.names.script (lists_of workers.new.opener.pen.seat) }
        ensures faultless { result ≢ Fault → NoneFaulted workers.new.all }
        ensures ran { result ≢ Fault → OwnRanLast
            (tries (terms N.names H.marks X.state X.told X.faults N.faults N.clock) 16)
            self.old.lanes (run_end_of result) workers.old.all workers.new.all }
        ensures others { OtherLastsStay workers.old.all workers.new.all }
        ensures logs { map log_of workers.new.all ≡ map log_of workers.old.all }
        ensures remember { AllRemember clock_seat workers.old.all workers.new.all }
        ensures rounds { KnowTheRound N.names.script workers.new.opener.stand workers.new.all }
        ensures cuts { AreCuts N.names.script workers.new.opener }
        ensures ready { AreReady N.names.script self.new workers.new.all }
    {
        self.end_round(
            rt,
            &mut workers.opener,
            workers.all.as_mut_slice(),
            &mut workers.bench,
        )
    }
}

/// How a round ends after this try, if it does.
fn end_after(tried: ClosingTry, closing: Closing) -> Option<RoundEnd>
    ensures { result ≡ end_after tried closing }
{
    match tried {
        ClosingTry::Refuted => None,
        ClosingTry::Failed => Some(RoundEnd::Fault),
        ClosingTry::Closed => Some(end_by(closing)),
    }
}

/// How a round ends that was closed so.
fn end_by(closing: Closing) -> RoundEnd
    ensures { result ≡ end_by closing }
{
    match closing {
        Closing::Ended => RoundEnd::Ended,
        Closing::Stopped => RoundEnd::Stopped,
        Closing::Polled => RoundEnd::Polled,
    }
}
