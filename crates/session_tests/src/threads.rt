//! A context on several threads, which has only to be proved.

use book_context::{BookContext, Session};
use op_handlers::CompletionHandler;
use reactor_trait::Reactor;
use std::sync::Wait;
use std::thread;
use std::thread::Threads;

/// Threads may run a context at the same time, where its parts may be sent to a thread.
pub(crate) fn run_on_threads<
    'a,
    R: Threads + Wait + Sync,
    X: Reactor + Send,
    H: CompletionHandler + Send,
    N: Session + Send + Sync,
>(rt: &R, context: &BookContext<'a, X, H, N>, workers: &mut [u8]) {
    let threads = workers.len().max(1);
    thread::for_each_mut(rt, workers, threads, &|_, _| context.run(rt));
}
