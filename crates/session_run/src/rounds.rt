//! The rounds of a script on the io_context with one lock.
use book_context::{BookContext, Session};
use op_handlers::CompletionHandler;
use reactor_trait::Reactor;
use session_script::{Round, Script};
use std::sync::Wait;
use std::thread;
use std::thread::Threads;

/// The most workers of a round, in both versions of the script.
const MOST_WORKERS: usize = 16;

/// A thread that calls `run` in a round.
#[derive(Clone, Copy)]
struct Worker;

/// The workers of a round each call `run`, at the same time where threads can be had, and else one
/// after another.
fn run_workers<
    'a,
    R: Threads + Wait + Sync,
    X: Reactor + Send,
    H: CompletionHandler + Send,
    N: Session + Send + Sync,
>(rt: &R, context: &BookContext<'a, X, H, N>, workers: &mut [Worker]) {
    let threads = workers.len().max(1);
    thread::for_each_mut(rt, workers, threads, &|_, _| context.run(rt));
}

/// One round: it restarts where the script says so, its workers run, and it closes. The caller runs
/// what they left.
fn run_round<
    'a,
    R: Threads + Wait + Sync,
    X: Reactor + Send,
    H: CompletionHandler + Send,
    N: Session + Send + Sync,
>(
    rt: &R,
    round: &Round,
    context: &mut BookContext<'a, X, H, N>,
    workers: &mut [Worker; MOST_WORKERS],
) {
    if round.restart {
        context.restart();
    }
    // The grammar allows no more than there are.
    let count = usize::from(round.workers).min(MOST_WORKERS);
    run_workers(rt, context, &mut workers[..count]);
    context.close_round(rt);
}

/// Runs the rounds of a script on its context with one lock, in their order, each by as many threads
/// as it names, as far as the system has them. No clause can say that a handler was executed or by
/// which thread: what isn't done here, the end of the context does. Takes no memory; the threads are
/// the system's. May wait, as a guard that is never released does.
pub fn run_rounds<
    'a,
    R: Threads + Wait + Sync,
    X: Reactor + Send,
    H: CompletionHandler + Send,
    N: Session + Send + Sync,
>(rt: &R, script: &Script, context: &mut BookContext<'a, X, H, N>) {
    let mut workers = [Worker; MOST_WORKERS];
    for round in script.rounds() {
        run_round(rt, round, context, &mut workers);
    }
}
