ghost use Rattle.std.specs.Prelude.{◌≡◌, ◌<◌, ◌≤◌, ◌+◌, IfOk, OnErr, vec_len};

use crate::context::Context;
use crate::executing::Rhythm;
use crate::worker::Worker;
use asio_types::NoMemory;
use io_handlers::Handler;
use io_history::Named;
use io_reactor::Reactor;
use std::alloc::Global;
use std::sync::Wait;
use std::sync::ledger::Share;
use std::thread;
use std::thread::Threads;

/// A worker that never pauses looks at the clock and at the sockets that are listed once in so many handlers.
const LOOKS_EACH: u64 = 16;

/// And at the outside once in so many.
const GLANCES_EACH: u64 = 64;

impl<H: Handler, C: Named, W: Reactor> Context<H, C, W> {
    /// Executes handlers until the context is stopped or out of work (`io_context::run`), and answers how
    /// many it executed. Waits complete once their timers' expiries have passed. Any number of threads may call it at the same time, each with a worker of its own.
    pub fn run<R: Wait>(&self, rt: &R, worker: &mut Worker<H, C>) -> u64
        ensures { worker.new.executed ≡ worker.old.executed + result }
    {
        self.serve(rt, worker, true)
    }

    /// Executes handlers until none may begin (`io_context::poll`), those of waits that are due too, and answers how many it executed.
    pub fn poll<R: Wait>(&self, rt: &R, worker: &mut Worker<H, C>) -> u64
        ensures { worker.new.executed ≡ worker.old.executed + result }
    {
        self.serve(rt, worker, false)
    }

    /// Executes handlers until none may begin; a worker that waits does while more may come.
    fn serve<R: Wait>(&self, rt: &R, worker: &mut Worker<H, C>, waits: bool) -> u64
        ensures { worker.new.executed ≡ worker.old.executed + result }
    {
        let mut next = self.first(rt, waits);
        for executed in 0..u64::MAX {
            match next {
                None => return executed,
                Some(invocation) => {
                    let rhythm = Rhythm {
                        reads: executed % LOOKS_EACH == 0,
                        glances: executed % GLANCES_EACH == GLANCES_EACH - 1,
                        waits,
                    };
                    next = self.execute(rt, invocation, worker, rhythm);
                }
            }
        }
        // so many are never executed
        for _ in rt.forever() {}
        unreachable!()
    }
}

/// Gives the memory of all workers back, and their shares to this one.
fn destroy_all<H: Handler, C: Named>(workers: Vec<Worker<H, C>>, share: &mut Share<C>)
    ensures amount { share.old.amount ≤ share.new.amount }
    ensures parts { share.new.parts ≡ share.old.parts + vec_len workers }
{
    let mut left = workers;
    'workers: while let Some(worker) = left.pop() {
        worker.destroy(share);
    }
    left.destroy_empty();
}

/// So many workers of a context, whose shares are cut off this one.
fn make_workers<H: Handler, C: Named, W: Reactor>(
    alloc: Global,
    context: &Context<H, C, W>,
    many: usize,
    share: &mut Share<C>,
) -> Result<Vec<Worker<H, C>>, NoMemory>
    requires { many < share.old.parts }
    ensures made { IfOk result (λ workers. share.new.parts + vec_len workers ≡ share.old.parts) }
    ensures refused { OnErr result (share.new.parts ≡ share.old.parts) }
    ensures amount { share.old.amount ≤ share.new.amount }
{
    let mut workers = Vec::with_capacity(alloc, many)?;
    'workers: for _ in 0..many {
        match context.worker(alloc, share) {
            Ok(worker) => workers.push_reserved(worker),
            Err(refused) => {
                destroy_all(workers, share);
                return Err(refused);
            }
        }
    }
    Ok(workers)
}

/// Calls `run` on so many threads, until all are back; how many handlers they executed is added to this
/// share. Takes the memory of their workers first; `NoMemory` where it is refused, and then nothing ran.
pub fn run_on_threads<
    R: Threads + Wait + Sync,
    H: Handler + Send,
    C: Named + Send + Sync,
    W: Reactor + Sync,
>(
    rt: &R,
    alloc: Global,
    context: &Context<H, C, W>,
    threads: usize,
    share: &mut Share<C>,
) -> Result<(), NoMemory>
where
    H::State: Send,
    W::Socket: Send,
    W::Poll: Send,
    requires { threads < share.old.parts }
    ensures parts { share.new.parts ≡ share.old.parts }
    ensures amount { share.old.amount ≤ share.new.amount }
{
    let mut workers = make_workers(alloc, context, threads, share)?;
    thread::for_each_mut(
        rt,
        workers.as_mut_slice(),
        threads.max(1),
        &|_, worker| {
            context.run(rt, worker);
        },
    );
    destroy_all(workers, share);
    Ok(())
}
