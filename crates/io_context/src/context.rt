ghost use Rattle.std.specs.Prelude.{◌≡◌, ◌<◌, ◌+◌, ◌∷◌, if◌then◌else◌, IfOk, None, OnErr};
ghost use Rattle.io_rules.specs.declared.control.Control.TheVariants as control;
ghost use Rattle.io_rules.specs.declared.event.Event.TheVariants as event;
ghost use Rattle.io_rules.specs.Legal.{state_of};
ghost use Rattle.io_context.specs.Naming.{most_parts};
ghost use Rattle.io_scheduler.specs.Tallied.{is_at_rest};

use crate::new_context::NewContext;
use crate::poller::Poller;
use crate::shared::Shared;
use crate::sleepers::Wake;
use crate::sockets::SocketSet;
use crate::worker::Worker;
use asio_types::NoMemory;
use io_handlers::Handler;
use io_history::{HistoryTable, Keeper, Named};
use io_reactor::{Edges, Reactor};
use io_rules::Limits;
use io_scheduler::{Scheduler, Section};
use std::alloc::Global;
use std::sync::atomic::{AtomicBool, Ordering};
use std::sync::ledger::Share;
use std::sync::{Condvar, Mutex, Wait};

/// An `io_context`. It must be finished.
pub struct Context<H: Handler, C: Named, W: Reactor> {
    pub(crate) table: HistoryTable,
    pub(crate) limits: Limits,
    pub(crate) shared: Mutex<Shared<H, C, W::Socket>>,
    pub(crate) reactor: W,
    // with the one that waits for the reactor
    pub(crate) poller: Mutex<Poller<W>>,
    // whether waiting has failed
    pub(crate) failed: AtomicBool,
    // where all others sleep
    pub(crate) more: Condvar,
    ghost named: { table ≡ C.table },
}

impl<H: Handler, C: Named, W: Reactor> Context<H, C, W> {
    /// A new context over this reactor, whose clock it has, and the share of which those of its workers are
    /// cut. Takes memory for all that the context may ever keep; `NoMemory` where it is refused, and then the
    /// reactor is finished.
    pub fn make(
        alloc: Global,
        new: NewContext,
        reactor: W,
        poll: W::Poll,
    ) -> Result<(Context<H, C, W>, Share<C>), NoMemory>
        requires table { new.table ≡ C.table }
        requires limits { new.limits ≡ C.limits }
        requires name { new.name ≡ C.name }
        requires parts { new.parts ≡ C.parts }
        ensures none { IfOk result (λ made. made.1.amount ≡ 0) }
        ensures all { IfOk result (λ made. made.1.parts ≡ C.parts) }
        ensures many { C.parts ≡ most_parts }
    {
        let NewContext {
            table,
            seat,
            limits,
            ledger,
        } = new;
        let Ok(edges) = Edges::make(alloc) else {
            reactor.finish(poll);
            return Err(NoMemory);
        };
        let poller = Poller { poll, edges };
        let Ok(set) = SocketSet::make(alloc, limits.streams, &reactor) else {
            poller.finish(reactor);
            return Err(NoMemory);
        };
        let (ended, share) = ledger.open::<C>();
        match Scheduler::make(alloc, limits, Keeper::of(seat, ended)) {
            Ok(scheduler) => Ok((
                Context {
                    table,
                    limits,
                    shared: Mutex::new(Shared::new(scheduler, set)),
                    reactor,
                    poller: Mutex::new(poller),
                    failed: AtomicBool::new(false),
                    more: Condvar::new(),
                },
                share,
            )),
            Err(_) => {
                set.close_all(&reactor);
                poller.finish(reactor);
                Err(NoMemory)
            }
        }
    }

    /// What one more thread calls `run` with; its share is cut off this one. Takes memory for the calls of
    /// one handler; `NoMemory` where it is refused, and then nothing is cut off.
    pub fn worker(&self, alloc: Global, share: &mut Share<C>) -> Result<Worker<H, C>, NoMemory>
        requires { 1 < share.old.parts }
        ensures none { IfOk result (λ worker. worker.executed ≡ 0) }
        ensures cut { IfOk result (λ worker. share.new.parts + 1 ≡ share.old.parts) }
        ensures refused { OnErr result (share.new.parts ≡ share.old.parts) }
        ensures amount { share.new.amount ≡ share.old.amount }
    {
        Worker::with_room(alloc, self.limits.staged, share)
    }

    /// Notifies these sleepers.
    pub(crate) fn wake(&self, wake: Wake) {
        match wake {
            Wake::Nobody => {}
            Wake::One => self.more.notify_one(),
            Wake::Watcher => self.reactor.wake(),
            Wake::All => {
                self.more.notify_all();
                self.reactor.wake();
            }
        }
    }

    /// Whether waiting for the reactor has failed, which stops the context: calls of `run` return as after
    /// `stop`.
    pub fn has_failed(&self) -> bool {
        self.failed.load(Ordering::SeqCst)
    }

    /// No handler begins any more, and calls of `run` return as soon as they can (`io_context::stop`).
    pub fn stop<R: Wait>(&self, rt: &R) -> Section<C>
        ensures { result.after ≡ event.Changed None control.Stop ∷ result.before }
    {
        let mut shared = self.shared.lock(rt);
        let (section, wake) = shared.stop(&self.table);
        drop(shared);
        self.wake(wake);
        section
    }

    /// Handlers may begin again (`io_context::restart`). Answers whether it has: none executes meanwhile,
    /// since whoever runs the context borrows it.
    pub fn restart(&mut self) -> (bool, Section<C>)
        ensures restarted { result.0 ≡ is_at_rest (state_of C.limits result.1.before) }
        ensures noted { result.1.after ≡ (if result.0 then event.Restarted ∷ result.1.before else result.1.before) }
    {
        let (restarted, wake) = self.shared.get_mut().restart(&self.table);
        self.wake(wake);
        restarted
    }
}
