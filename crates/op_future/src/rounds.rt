//! The only round of a session of tasks.
ghost use Rattle.std.specs.Prelude.{◌≡◌, ◌+◌, length, map};
ghost use Rattle.lane_turns.specs.AllWorkers.{AreCuts, AreReady, log_of};
ghost use Rattle.lane_turns.specs.Finishing.{IsOver};
ghost use Rattle.op_future.specs.Seats.{HaveGotFrom, IsRoomFor};
ghost use Rattle.op_future.specs.Sessions.{HasOneRun};
ghost use Rattle.session_run.specs.LaneRounds.{AreClosed, HasBegun};

use crate::seats::{SeatRoom, run_tasks};
use crate::task::Task;
use lane_context::{Context, Workers};
use lane_logs::LaneSession;
use op_handlers::CompletionHandler;
use reactor_trait::Reactor;
use std::sync::Wait;
use std::thread::Threads;

/// The only round of a script begins behind the calls of `open`. This function runs nothing.
fn begins<'a, X: Reactor, H: CompletionHandler, N: LaneSession>(
    workers: &Workers<'a, X, H, N>,
    count: usize,
)
    requires only { HasOneRun N.names.script count }
    requires before { AreClosed 0 workers.now.opener.stand }
    ensures begun { HasBegun N.names.script 0 workers.now.opener.stand }
{}

/// The workers of the round make steps of their tasks, each until its task ends, and then call `run`;
/// and the round is closed.
pub(crate) fn run_round<
    'a,
    R: Threads + Wait + Sync,
    X: Reactor + Send,
    H: CompletionHandler + Send,
    N: LaneSession + Send + Sync,
    T: Task + Send,
>(
    rt: &R,
    context: &mut Context<'a, X, H, N>,
    workers: Workers<'a, X, H, N>,
    tasks: Vec<T>,
    room: SeatRoom<'a, X, H, N, T>,
) -> (Workers<'a, X, H, N>, Vec<T>)
    requires only { HasOneRun N.names.script (length tasks.items) }
    requires ready { AreReady N.names.script context.old workers.all }
    requires cuts { AreCuts N.names.script workers.opener }
    requires before { AreClosed 0 workers.opener.stand }
    requires seats { IsRoomFor (length tasks.items) room.seats }
    requires more_workers { IsRoomFor (length tasks.items + 1) room.workers }
    requires more_tasks { IsRoomFor (length tasks.items) room.tasks }
    ensures ready { AreReady N.names.script context.new result.0.all }
    ensures cuts { AreCuts N.names.script result.0.opener }
    ensures logs { map log_of result.0.all ≡ map log_of workers.entry.all }
    ensures over { IsOver N.names.script result.0.opener }
    ensures got { HaveGotFrom N.names.script result.0.all (map T.state tasks.items)
        (map T.state result.1.items) }
{
    begins(&workers, tasks.len());
    let (mut workers, tasks) = run_tasks(rt, context, workers, tasks, room);
    context.close_round(rt, &mut workers);
    (workers, tasks)
}
