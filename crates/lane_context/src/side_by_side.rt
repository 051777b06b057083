//! Workers that run at the same time.
ghost use Rattle.std.specs.Prelude.{◌≡◌, ◌<◌, ℕ, All, length, map, slice_index_or};
ghost use Rattle.lane_turns.specs.AllWorkers.{AreReady, log_of};
ghost use Rattle.lane_turns.specs.LaneValues.{terms, tries};
ghost use Rattle.lane_context.specs.SideBySide.{FirstHaveRun, HaveRun};

use crate::context::Context;
use crate::worker::Worker;
use crate::workers::Workers;
use lane_logs::LaneSession;
use op_handlers::CompletionHandler;
use reactor_trait::Reactor;
use std::sync::Wait;
use std::thread;
use std::thread::Threads;

/// Who calls `run` of such a context, or does more with it. A bound, since a closure can't say that the
/// context and a worker have one lifetime.
pub trait Runner<C> {
    /// It may.
    ghost may: { C → Self → Type 0 };

    /// It did.
    ghost ran: { C → Self → Self → Type 0 };

    /// Calls `run`.
    fn run_on<Rt: Wait>(&mut self, rt: &Rt, context: &C)
        requires may { may context.now self.old }
        ensures ran { ran context.now self.old self.new };
}

impl<'a, X: Reactor, H: CompletionHandler, N: LaneSession> Runner<Context<'a, X, H, N>>
    for Worker<'a, X, H, N> {
    ghost use Rattle.lane_turns.specs.Attempts.{IsSeated};
    ghost use Rattle.lane_turns.specs.LaneValues.{terms, tries};
    ghost use Rattle.lane_context.specs.SideBySide.{HasCalledRun};

    ghost may = { λ context worker. IsSeated context worker };

    ghost ran = { λ context old new. HasCalledRun
        (tries (terms N.names H.marks X.state X.told X.faults N.faults N.clock) 16) context old new };

    fn run_on<Rt: Wait>(&mut self, rt: &Rt, context: &Context<'a, X, H, N>) {
        context.run(rt, self);
    }
}

/// Each of these does so: the last in the calling thread, the others each in a thread of its own where
/// one can be had.
fn run_with_caller<Rt: Threads + Wait + Sync, C: Sync, W: Runner<C> + Send>(
    rt: &Rt,
    context: &C,
    workers: &mut [W],
)
    requires may { All (λ one. W.may context.now one) workers.old }
    ensures size { length workers.new ≡ length workers.old }
    ensures ran { (k : ℕ) (d : W) → k < length workers.old →
        W.ran context.now (slice_index_or workers.old k d) (slice_index_or workers.new k d) }
{
    let threads = workers.len().max(1);
    thread::for_each_mut(
        rt,
        workers,
        threads,
        &|_, worker|
            requires { W.may context.now worker.now }
            ensures { W.ran context.entry.now worker.entry.now worker.exit.now }
        {
            worker.run_on(rt, context);
        },
    );
}

/// The first of these does so in a thread of its own, where one can be had; the calling thread starts it,
/// and then the rest.
#[cycle(starting)]
fn start_first<Rt: Threads + Wait + Sync, C: Sync, W: Runner<C> + Send>(
    rt: &Rt,
    context: &C,
    first: &mut W,
    rest: &mut [W],
)
    requires may { W.may context.now first.old }
    requires rest_may { All (λ one. W.may context.now one) rest.old }
    ensures ran { W.ran context.now first.old first.new }
    ensures rest_ran { HaveRun (W.ran context.now) rest.old rest.new }
{
    let mut first_runs = ||
        requires { W.may context.now first.now }
        ensures { W.ran context.entry.now first.entry.now first.exit.now }
    { first.run_on(rt, context) };
    let mut rest_runs = ||
        requires { All (λ one. W.may context.now one) rest.now }
        ensures { HaveRun (W.ran context.entry.now) rest.entry.now rest.exit.now }
    { start_each(rt, context, rest) };
    thread::join_mut(rt, &mut first_runs, &mut rest_runs);
}

/// Each of these does so in a thread of its own, where one can be had; the calling thread starts them, in
/// order, and waits. Where it ran as one of them, a new thread often got no processor for milliseconds.
#[cycle(starting)]
fn start_each<Rt: Threads + Wait + Sync, C: Sync, W: Runner<C> + Send>(
    rt: &Rt,
    context: &C,
    workers: &mut [W],
)
    requires may { All (λ one. W.may context.now one) workers.old }
    ensures ran { HaveRun (W.ran context.now) workers.old workers.new }
{
    if let Some((first, rest)) = workers.split_first_mut() {
        start_first(rt, context, first, rest);
    }
}

/// Each of these does so, at the same time where threads can be had, and else one after another. Of two,
/// the calling thread is one, which costs a start less; of more it is none. Takes no memory; the threads
/// are the system's.
pub fn run_each<Rt: Threads + Wait + Sync, C: Sync, W: Runner<C> + Send>(
    rt: &Rt,
    context: &C,
    workers: &mut [W],
)
    requires may { All (λ one. W.may context.now one) workers.old }
    ensures size { length workers.new ≡ length workers.old }
    ensures ran { (k : ℕ) (d : W) → k < length workers.old →
        W.ran context.now (slice_index_or workers.old k d) (slice_index_or workers.new k d) }
{
    if workers.len() < 3 {
        run_with_caller(rt, context, workers);
    } else {
        start_each(rt, context, workers);
    }
}

/// The first of these workers, so many, each call `run`.
fn run_first<
    'a,
    Rt: Threads + Wait + Sync,
    X: Reactor + Send,
    H: CompletionHandler + Send,
    N: LaneSession + Send + Sync,
>(rt: &Rt, context: &Context<'a, X, H, N>, all: &mut [Worker<'a, X, H, N>], count: usize)
    requires ready { AreReady N.names.script context.now all.old }
    requires count { count < length all.old }
    ensures ran { FirstHaveRun
        (tries (terms N.names H.marks X.state X.told X.faults N.faults N.clock) 16)
        context.now count all.old all.new }
    ensures ready { AreReady N.names.script context.now all.new }
    ensures logs { map log_of all.new ≡ map log_of all.old }
{
    run_each(rt, context, &mut all[..count]);
}

/// The first workers, as many as a round has, each call `run`, at the same time where threads can be
/// had (Asio reference, io_context::run). Takes no memory but for hints; the threads are the system's.
pub fn run_side_by_side<
    'a,
    Rt: Threads + Wait + Sync,
    X: Reactor + Send,
    H: CompletionHandler + Send,
    N: LaneSession + Send + Sync,
>(rt: &Rt, context: &Context<'a, X, H, N>, workers: &mut Workers<'a, X, H, N>, count: usize)
    requires ready { AreReady N.names.script context.now workers.old.all }
    requires count { count < length workers.old.all }
    ensures ran { FirstHaveRun
        (tries (terms N.names H.marks X.state X.told X.faults N.faults N.clock) 16)
        context.now count workers.old.all workers.new.all }
    ensures ready { AreReady N.names.script context.now workers.new.all }
    ensures logs { map log_of workers.new.all ≡ map log_of workers.old.all }
    ensures opener { workers.new.opener ≡ workers.old.opener }
{
    run_first(rt, context, workers.all.as_mut_slice(), count);
}
