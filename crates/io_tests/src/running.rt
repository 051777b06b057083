//! Contexts of counting handlers.

ghost use Rattle.std.specs.Prelude.{◌≡◌, ◌≤◌, ◌<◌};

use crate::chain::chain;
use crate::grant::grant;
use crate::handlers::{Counting, Counts, Task, count};
use crate::making::make_strands;
use crate::many::{initiate_and_run, stop_and_finish};
use crate::meeting::meet;
use crate::order::dispatch;
use crate::timing::{cancel, expire, make_own, wait_earlier, watch};
use io_context::{
    ClockReactor, Context, Handler, Lane, Limits, Named, NewContext, Reactor, Refusal, Refused,
    run_on_threads,
};
use std::alloc::Global;
use std::marker::Brand;
use std::process::Abort;
use std::sync::Wait;
use std::sync::ledger::Share;
use std::thread::Threads;
use std::time::Clock;

pub(crate) const MEMORY: &str = "memory";

/// What is done on a context.
#[derive(Clone, Copy)]
pub(crate) enum Scenario {
    /// Two handlers wait for each other.
    Meet,
    /// A handler posts the next one, so many times.
    Chain(u64),
    /// Many threads initiate while others run.
    Many,
    /// It is stopped, restarted and finished with handlers left.
    Stop,
    /// A handler posts and dispatches to its own strand.
    Dispatch,
    /// A thread posts as much as it can while a handler executes.
    Grant,
    /// Waits are due one after another.
    Expire,
    /// Waits are cancelled.
    Cancel,
    /// A wait is due before another one.
    Earlier,
    /// A handler executes until the next wait is due.
    Watch,
    /// A handler makes a timer, which others set again and destroy.
    Own,
    /// Handlers make strands and free them.
    Strands,
}

/// Room for so many operations and strands, and two timers.
pub(crate) fn limits(operations: u32, strands: u32) -> Limits {
    Limits {
        operations,
        strands,
        timers: 2,
        slots: 0,
        streams: 0,
        grant: 2,
        staged: 8,
        held: 0,
    }
}

/// A share of which those of 64 workers can be cut.
pub(crate) struct Part<C: Named> {
    pub(crate) share: Share<C>,
    ghost many: { 64 < share.parts },
}

impl<C: Named> Part<C> {
    /// Runs a context on so many threads.
    pub(crate) fn run<'a, R: Abort + Threads + Wait + Sync, W: Reactor + Sync>(
        &mut self,
        rt: &R,
        alloc: Global,
        context: &Context<Counting<'a>, C, W>,
        threads: usize,
    )
    where
        C: Send + Sync,
        W::Socket: Send,
        W::Poll: Send,
        requires { threads ≤ 64 }
    {
        run_on_threads(rt, alloc, context, threads, &mut self.share).expect(rt, MEMORY);
    }
}

/// A context of counting handlers, and the share of its workers.
pub(crate) struct Case<'a, C: Named, W: Reactor> {
    pub(crate) context: Context<Counting<'a>, C, W>,
    pub(crate) part: Part<C>,
    pub(crate) counts: &'a Counts,
}

impl<'a, C: Named, W: Reactor> Case<'a, C, W> {
    /// The lane of a new strand, or none where no strand is free.
    pub(crate) fn new_strand<R: Wait>(&self, rt: &R) -> Lane {
        match self.context.make_strand(rt, self.counts) {
            Ok((name, _)) => Lane::Strand(name),
            Err(
                Refused {
                    back,
                    why: _,
                    section: _,
                },
            ) => {
                Counting::retire(back);
                Lane::Own
            }
        }
    }

    /// Posts a handler, and counts it where it is refused; answers why.
    pub(crate) fn post<R: Wait>(&self, rt: &R, lane: Lane, task: Task) -> Option<Refusal> {
        post(rt, &self.context, lane, task, self.counts)
    }

    /// Runs the context on so many threads.
    pub(crate) fn run<R: Abort + Threads + Wait + Sync>(
        &mut self,
        rt: &R,
        alloc: Global,
        threads: usize,
    )
    where
        C: Send + Sync,
        W: Sync,
        W::Socket: Send,
        W::Poll: Send,
        requires { threads ≤ 64 }
    {
        self.part.run(rt, alloc, &self.context, threads);
    }

    /// Destroys the context.
    pub(crate) fn finish<R: Wait>(self, rt: &R) {
        let Case {
            context,
            part,
            counts: _,
        } = self;
        let Part { share } = part;
        let _history = context.finish(rt, share);
    }
}

/// Posts a handler, and counts it where it is refused; answers why.
pub(crate) fn post<'a, R: Wait, C: Named, W: Reactor>(
    rt: &R,
    context: &Context<Counting<'a>, C, W>,
    lane: Lane,
    task: Task,
    counts: &'a Counts,
) -> Option<Refusal> {
    match context.post(rt, lane, Counting { task, counts }) {
        Ok(_) => None,
        Err(
            Refused {
                back,
                why,
                section: _,
            },
        ) => {
            let Counting { task: _, counts } = back;
            count(&counts.refused);
            Some(why)
        }
    }
}

/// Does it on the context of this name.
fn play<'a, R: Abort + Threads + Wait + Clock + Sync + Copy, C: Named + Send + Sync>(
    rt: &R,
    alloc: Global,
    new: NewContext,
    counts: &'a Counts,
    scenario: Scenario,
)
    requires table { new.table ≡ C.table }
    requires limits { new.limits ≡ C.limits }
    requires name { new.name ≡ C.name }
    requires parts { new.parts ≡ C.parts }
{
    let (reactor, poll) = ClockReactor::make(*rt);
    let made = Context::<Counting<'a>, C, ClockReactor<R>>::make(alloc, new, reactor, poll);
    let (context, share) = made.expect(rt, MEMORY);
    let part = Part { share };
    let case = Case {
        context,
        part,
        counts,
    };
    match scenario {
        Scenario::Meet => meet(rt, alloc, case),
        Scenario::Chain(length) => chain(rt, alloc, case, length),
        Scenario::Many => initiate_and_run(rt, alloc, case),
        Scenario::Stop => stop_and_finish(rt, alloc, case),
        Scenario::Dispatch => dispatch(rt, alloc, case),
        Scenario::Grant => grant(rt, alloc, case),
        Scenario::Expire => expire(rt, alloc, case),
        Scenario::Cancel => cancel(rt, alloc, case),
        Scenario::Earlier => wait_earlier(rt, alloc, case),
        Scenario::Watch => watch(rt, alloc, case),
        Scenario::Own => make_own(rt, alloc, case),
        Scenario::Strands => make_strands(rt, alloc, case),
    }
}

/// Does it on a new context with such limits.
pub(crate) fn play_new<R: Abort + Threads + Wait + Clock + Sync + Copy>(
    rt: &R,
    alloc: Global,
    limits: Limits,
    counts: &Counts,
    scenario: Scenario,
) {
    let new = NewContext::with_limits(alloc, limits).expect(rt, MEMORY);
    play::<R, Brand>(rt, alloc, new, counts, scenario)
}
