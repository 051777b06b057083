ghost use Rattle.std.specs.Prelude.{◌≡◌, ◌+◌, []};

use crate::context::Context;
use crate::invocation::{Freed, Invocation, Looks, Next, Pause, invoke};
use crate::shared::Shared;
use crate::sockets::close_those;
use crate::system_call::{SystemCall, close, make_all};
use crate::worker::Worker;
use io_handlers::{Handler, Staging};
use io_history::Named;
use io_reactor::Reactor;
use std::sync::atomic::Ordering;
use std::sync::{MutexGuard, Wait};

/// What a worker does besides when a handler has returned.
#[derive(Clone, Copy)]
pub(crate) struct Rhythm {
    /// It reads the clock, and looks at the sockets that are listed before it takes a handler.
    pub(crate) reads: bool,
    /// It looks at the outside.
    pub(crate) glances: bool,
    /// It waits where there is nothing.
    pub(crate) waits: bool,
}

/// With the lock of what a context keeps, what a worker does next.
type Locked<'a, H, C, S> = (MutexGuard<'a, Shared<H, C, S>>, Next<H, C, S>);

/// Retires all states that are to be, and this one.
fn retire_those<H: Handler>(state: Option<H::State>, staging: &mut Staging<H, H::State>)
    ensures { staging.new ≡ record staging.old { retired = [] } }
{
    'states: while let Some(state) = staging.next_retired() {
        H::retire(state);
    }
    match state {
        None => {}
        Some(state) => H::retire(state),
    }
}

impl<H: Handler, C: Named, W: Reactor> Context<H, C, W> {
    /// How a worker looks for what is next that has read the clock.
    fn looks(&self, waits: bool) -> Looks {
        Looks {
            now: Some(self.reactor.now()),
            waits,
            glances: false,
            calls_first: false,
        }
    }

    /// The first handler that a worker invokes. One that doesn't wait looks at the outside before.
    pub(crate) fn first<R: Wait>(&self, rt: &R, waits: bool) -> Option<Invocation<H, C>> {
        let looks = Looks {
            now: Some(self.reactor.now()),
            waits,
            glances: !waits,
            calls_first: true,
        };
        let mut shared = self.enter(rt);
        let next = shared.begin(&self.table, looks);
        self.go_on(rt, shared, next, waits)
    }

    /// Invokes a handler with the lock free, ends it, and takes the next one, behind what is due if the
    /// worker looks at the clock. It does, too, where an expiry counts from when the handler has returned.
    pub(crate) fn execute<R: Wait>(
        &self,
        rt: &R,
        invocation: Invocation<H, C>,
        worker: &mut Worker<H, C>,
        rhythm: Rhythm,
    ) -> Option<Invocation<H, C>>
        ensures { worker.new.executed ≡ worker.old.executed + 1 }
    {
        let Invocation {
            running,
            handler,
            done,
            state,
        } = invocation;
        let mut staging = match worker.staging.take() {
            None => unreachable!(),
            Some(staging) => staging,
        };
        let mut io = staging.begin(running.places(), running.spares());
        let (mark, state) = invoke(handler, done, state, &mut io);
        staging = io.returned();
        let looks = Looks {
            now: self.read_if(rhythm.reads || staging.delays()),
            waits: rhythm.waits,
            glances: rhythm.glances,
            calls_first: rhythm.reads,
        };
        let mut shared = self.enter(rt);
        let by = &mut worker.share;
        let ended = shared.end(&self.table, running, state, mark, &mut staging, by, looks);
        let (shared, next) = match ended {
            Ok(next) => (shared, next),
            Err(freed) => self.retire(rt, shared, freed, &mut staging, rhythm.waits),
        };
        match worker.staging.replace(staging) {
            None => {}
            Some(_) => unreachable!(),
        }
        self.go_on(rt, shared, next, rhythm.waits)
    }

    /// Retires the states of strands that are forgotten, with the lock free; what is next then.
    #[inline(never)]
    fn retire<'a, R: Wait>(
        &'a self,
        rt: &R,
        shared: MutexGuard<'a, Shared<H, C, W::Socket>>,
        freed: Freed<H::State>,
        staging: &mut Staging<H, H::State>,
        waits: bool,
    ) -> Locked<'a, H, C, W::Socket>
        ensures { staging.new ≡ record staging.old { retired = [] } }
    {
        let Freed { state, wake } = freed;
        drop(shared);
        self.wake(wake);
        retire_those::<H>(state, staging);
        self.begin_again(rt, waits)
    }

    /// What the clock shows, if it is to be read.
    fn read_if(&self, reads: bool) -> Option<u64> {
        if reads {
            Some(self.reactor.now())
        } else {
            None
        }
    }

    /// Invokes what begins, with the lock free.
    #[inline(always)]
    fn go_on<'a, R: Wait>(
        &'a self,
        rt: &R,
        shared: MutexGuard<'a, Shared<H, C, W::Socket>>,
        next: Next<H, C, W::Socket>,
        waits: bool,
    ) -> Option<Invocation<H, C>> {
        match next {
            Next::Invoke(invocation, wake) => {
                drop(shared);
                self.wake(wake);
                Some(invocation)
            }
            Next::Pause(pause) => self.pause(rt, shared, pause, waits),
        }
    }

    /// Waits for the outside until this time, or until it is woken. Where that fails the context stops.
    #[inline(never)]
    fn watch<'a, R: Wait>(
        &'a self,
        rt: &R,
        until: u64,
        waits: bool,
    ) -> Locked<'a, H, C, W::Socket> {
        let mut poller = self.poller.lock(rt);
        let waited = poller.wait(rt, &self.reactor, until);
        let looks = self.looks(waits);
        if waited.is_err() {
            self.failed.store(true, Ordering::SeqCst);
            let _section = self.stop(rt);
        }
        let mut shared = self.enter(rt);
        let next = shared.begin_watched(&self.table, poller.edges.as_slice(), looks);
        drop(poller);
        (shared, next)
    }

    /// What system calls have answered takes effect; what is next then.
    #[inline(never)]
    fn put_back<'a, R: Wait>(
        &'a self,
        rt: &R,
        calls: Vec<SystemCall<W::Socket>>,
        waits: bool,
    ) -> Locked<'a, H, C, W::Socket> {
        let looks = Looks {
            now: None,
            waits,
            glances: false,
            calls_first: false,
        };
        let mut shared = self.enter(rt);
        let next = shared.put_back(&self.table, calls, looks);
        (shared, next)
    }

    /// Looks again for what is next.
    #[inline(never)]
    fn begin_again<'a, R: Wait>(&'a self, rt: &R, waits: bool) -> Locked<'a, H, C, W::Socket> {
        let looks = self.looks(waits);
        let mut shared = self.enter(rt);
        let next = shared.begin(&self.table, looks);
        (shared, next)
    }

    /// Sleeps until it is called; what is next then.
    #[inline(never)]
    fn sleep<'a, R: Wait>(
        &'a self,
        rt: &R,
        shared: MutexGuard<'a, Shared<H, C, W::Socket>>,
        waits: bool,
    ) -> Locked<'a, H, C, W::Socket> {
        let mut shared = self.more.wait(rt, shared);
        let next = shared.begin_awake(&self.table, self.looks(waits));
        (shared, next)
    }

    /// What is done where no handler begins, and what is next then; `None` where a call of `run` is to return.
    fn pause_once<'a, R: Wait>(
        &'a self,
        rt: &R,
        shared: MutexGuard<'a, Shared<H, C, W::Socket>>,
        pause: Pause<W::Socket>,
        waits: bool,
    ) -> Option<Locked<'a, H, C, W::Socket>> {
        match pause {
            Pause::Over(wake) | Pause::Nothing(wake) => {
                drop(shared);
                self.wake(wake);
                None
            }
            Pause::Call(closing, calls, wake) => {
                drop(shared);
                self.wake(wake);
                close(&self.reactor, closing);
                let mut calls = calls;
                make_all(&self.reactor, &mut calls);
                Some(self.put_back(rt, calls, waits))
            }
            Pause::Close(leaving, calls, wake) => {
                drop(shared);
                self.wake(wake);
                close_those(&self.reactor, Some(leaving));
                Some(self.put_back(rt, calls, waits))
            }
            Pause::Again(wake) => {
                drop(shared);
                self.wake(wake);
                Some(self.begin_again(rt, waits))
            }
            Pause::Rest(wake) => {
                self.wake(wake);
                Some(self.sleep(rt, shared, waits))
            }
            Pause::Watch(until, wake) => {
                drop(shared);
                self.wake(wake);
                Some(self.watch(rt, until, waits))
            }
        }
    }

    /// Waits until a handler begins, if the worker waits; `None` where its call of `run` is to return.
    #[inline(never)]
    fn pause<'a, R: Wait>(
        &'a self,
        rt: &R,
        shared: MutexGuard<'a, Shared<H, C, W::Socket>>,
        pause: Pause<W::Socket>,
        waits: bool,
    ) -> Option<Invocation<H, C>> {
        let mut shared = shared;
        let mut pause = pause;
        for _ in rt.forever() {
            let Some(locked) = self.pause_once(rt, shared, pause, waits) else {
                return None;
            };
            let (guard, next) = locked;
            match next {
                Next::Invoke(invocation, wake) => {
                    drop(guard);
                    self.wake(wake);
                    return Some(invocation);
                }
                Next::Pause(next) => {
                    shared = guard;
                    pause = next;
                }
            }
        }
        unreachable!()
    }
}
