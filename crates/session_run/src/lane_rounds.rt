//! The rounds of a script on the io_context without a lock.
ghost use Rattle.std.specs.Prelude.{◌≡◌, ◌≢◌, ◌+◌, IsFalse, IsTrue, Some, map, slice_get};
ghost use Rattle.lane_context.specs.declared.round_end.RoundEnd.TheVariants.{Fault};
ghost use Rattle.lane_turns.specs.AllWorkers.{AreCuts, AreReady, NoneFaulted, log_of};
ghost use Rattle.lane_turns.specs.Finishing.{IsOver};
ghost use Rattle.lane_turns.specs.KnownFaults.{KnowsFault};
ghost use Rattle.session_run.specs.LaneRounds.{AreClosed, HasBegun};

use lane_context::{Context, RoundEnd, Workers, run_side_by_side};
use lane_logs::LaneSession;
use op_handlers::CompletionHandler;
use reactor_trait::Reactor;
use session_script::{Round, Script};
use std::sync::Wait;
use std::thread::Threads;

/// Begins a round: it restarts the context where the script says so. Answers whether the round is
/// open: not where the reactor had failed.
fn begin_round<'a, X: Reactor, H: CompletionHandler, N: LaneSession>(
    at: usize,
    round: &Round,
    context: &mut Context<'a, X, H, N>,
    workers: &mut Workers<'a, X, H, N>,
) -> bool
    requires round { slice_get N.names.script.rounds at ≡ Some round.now }
    requires ready { AreReady N.names.script context.old workers.old.all }
    requires cuts { AreCuts N.names.script workers.old.opener }
    requires none { NoneFaulted workers.old.all }
    requires before { AreClosed at workers.old.opener.stand }
    ensures ready { AreReady N.names.script context.new workers.new.all }
    ensures cuts { AreCuts N.names.script workers.new.opener }
    ensures logs { map log_of workers.new.all ≡ map log_of workers.old.all }
    ensures begun { IsTrue result → HasBegun N.names.script at workers.new.opener.stand }
    ensures failed { IsFalse result → KnowsFault N.names.script workers.new.opener.pen.seat }
{
    if round.restart {
        context.restart(workers)
    } else {
        true
    }
}

/// Whether another round may follow one that ended so: none does after a failure of the reactor.
fn may_follow(end: RoundEnd) -> bool
    ensures follows { IsTrue result → end ≢ Fault }
    ensures none { IsFalse result → end ≡ Fault }
{
    match end {
        RoundEnd::Ended | RoundEnd::Stopped | RoundEnd::Polled => true,
        RoundEnd::Fault => false,
    }
}

/// One round: it restarts where the script says so, its workers run, and it closes. The caller runs
/// what they left. Answers whether another round may follow.
fn run_lane_round<
    'a,
    R: Threads + Wait + Sync,
    X: Reactor + Send,
    H: CompletionHandler + Send,
    N: LaneSession + Send + Sync,
>(
    rt: &R,
    at: usize,
    round: &Round,
    context: &mut Context<'a, X, H, N>,
    workers: &mut Workers<'a, X, H, N>,
) -> bool
    requires round { slice_get N.names.script.rounds at ≡ Some round.now }
    requires ready { AreReady N.names.script context.old workers.old.all }
    requires cuts { AreCuts N.names.script workers.old.opener }
    requires none { NoneFaulted workers.old.all }
    requires before { AreClosed at workers.old.opener.stand }
    ensures ready { AreReady N.names.script context.new workers.new.all }
    ensures cuts { AreCuts N.names.script workers.new.opener }
    ensures logs { map log_of workers.new.all ≡ map log_of workers.old.all }
    ensures none { IsTrue result → NoneFaulted workers.new.all }
    ensures closed { IsTrue result → AreClosed (at + 1) workers.new.opener.stand }
    ensures failed { IsFalse result → KnowsFault N.names.script workers.new.opener.pen.seat }
{
    if !begin_round(at, round, context, workers) {
        return false;
    }
    run_side_by_side(rt, context, workers, usize::from(round.workers));
    may_follow(context.close_round(rt, workers))
}

/// Runs the rounds of a script on its context, in their order, each by as many threads as it names,
/// as far as the system has them, until all are closed or the reactor failed. Takes no memory but for
/// hints; the threads are the system's. May wait, as a guard that is never released does.
pub(crate) fn run_lane_rounds<
    'a,
    R: Threads + Wait + Sync,
    X: Reactor + Send,
    H: CompletionHandler + Send,
    N: LaneSession + Send + Sync,
>(rt: &R, script: &Script, context: &mut Context<'a, X, H, N>, workers: &mut Workers<'a, X, H, N>)
    requires script { script.now ≡ N.names.script }
    requires ready { AreReady N.names.script context.old workers.old.all }
    requires cuts { AreCuts N.names.script workers.old.opener }
    requires none { NoneFaulted workers.old.all }
    requires before { AreClosed 0 workers.old.opener.stand }
    ensures ready { AreReady N.names.script context.new workers.new.all }
    ensures cuts { AreCuts N.names.script workers.new.opener }
    ensures logs { map log_of workers.new.all ≡ map log_of workers.old.all }
    ensures over { IsOver N.names.script workers.new.opener }
{
    let rounds = script.rounds();
    for at in 0..rounds.len() {
        if !run_lane_round(rt, at, &rounds[at], context, workers) {
            return;
        }
    }
}
