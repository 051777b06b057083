ghost use Rattle.std.specs.Prelude.{◌≡◌, IfSome};
ghost use Rattle.std.specs.Option.{is_some};
ghost use Rattle.io_context.specs.Invoked.{IsHandlerOf, IsInvoked};
ghost use Rattle.io_context.specs.Sleeping.{SleepWhileIdle, is_any_listed};
ghost use Rattle.io_scheduler.specs.Told.{IsOnLane};

use crate::sleepers::{Rest, Sleepers, Wake};
use crate::sockets::{Leaving, SocketSet};
use crate::system_call::SystemCall;
use io_handlers::{Completion, Handler, Initiator};
use io_history::{HistoryTable, Named};
use io_scheduler::{Begun, Running, Scheduler};
use std::marker::Model;

/// A handler that has begun, with all that it is called with.
pub(crate) struct Invocation<H: Handler, C: Named> {
    pub(crate) running: Running<C>,
    pub(crate) handler: H,
    pub(crate) done: Completion,
    pub(crate) state: Option<H::State>,
}

impl<H: Handler, C: Named> Model for Invocation<H, C> {
    ghost use Rattle.io_scheduler.specs.Running.{Execution};
    ghost use Rattle.io_context.specs.Invoked.{IsHandlerOf};

    ghost Value = { Execution };

    ghost view = { λ i. i.running };

    ghost invariant = { λ i. IsHandlerOf H.marks i.running i.handler i.state };
}

/// What a worker does next, with the lock free.
pub(crate) enum Next<H: Handler, C: Named, S> {
    /// It invokes a handler.
    Invoke(Invocation<H, C>, Wake),
    /// No handler begins.
    Pause(Pause<S>),
}

/// What a worker does where no handler begins.
pub(crate) enum Pause<S> {
    /// It closes this socket, if there is one, and makes these system calls.
    Call(Option<S>, Vec<SystemCall<S>>, Wake),
    /// It closes sockets. These system calls have returned.
    Close(Leaving<S>, Vec<SystemCall<S>>, Wake),
    /// It looks again, since other workers have all lists of system calls.
    Again(Wake),
    /// It sleeps.
    Rest(Wake),
    /// It waits for the outside until this time.
    Watch(u64, Wake),
    /// Nothing for now, and it doesn't wait.
    Nothing(Wake),
    /// Nothing more: its call of `run` returns.
    Over(Wake),
}

/// States of strands that are forgotten when a handler has ended, to be retired with the lock free: that of its
/// own strand, if so, beside those that are staged to be.
pub(crate) struct Freed<T> {
    pub(crate) state: Option<T>,
    pub(crate) wake: Wake,
}

/// How a worker looks for what is to be done next.
#[derive(Clone, Copy)]
pub(crate) struct Looks {
    /// What the clock shows, if it was read.
    pub(crate) now: Option<u64>,
    /// Whether the worker waits where there is nothing.
    pub(crate) waits: bool,
    /// Whether it looks at the outside first.
    pub(crate) glances: bool,
    /// Whether system calls come before handlers.
    pub(crate) calls_first: bool,
}

/// The handler that has begun.
fn to_invoke<H: Handler, C: Named>(begun: Begun<H, C>) -> Invocation<H, C>
    requires { IsOnLane begun.running → IsHandlerOf H.marks begun.running begun.handler begun.state }
{
    let Begun {
        running,
        handler,
        done,
        state,
    } = begun;
    running.learn();
    Invocation {
        running,
        handler,
        done,
        state,
    }
}

/// The clock was read, unless it can't be, and all waits that are due complete.
fn look<H: Handler, C: Named>(
    scheduler: &mut Scheduler<H, C>,
    table: &HistoryTable,
    now: Option<u64>,
)
    requires { table.now ≡ C.table }
{
    if let Some(now) = now {
        scheduler.pass(table, now);
    }
}

/// What no handler that may begin leaves to be done: a worker that waits is to sleep, unless it is to return.
#[inline(never)]
fn take_rest<H: Handler, C: Named, S>(
    scheduler: &mut Scheduler<H, C>,
    sleepers: &mut Sleepers,
    table: &HistoryTable,
    waits: bool,
    listed: bool,
) -> Pause<S>
    requires table { table.now ≡ C.table }
    ensures sleepers { SleepWhileIdle sleepers.new scheduler.new listed }
{
    if scheduler.is_over() {
        scheduler.returned(table);
        return Pause::Over(sleepers.call(scheduler, listed));
    }
    if !waits {
        return Pause::Nothing(sleepers.call(scheduler, listed));
    }
    match sleepers.rest(scheduler.next_expiry()) {
        Rest::Sleep => Pause::Rest(sleepers.call(scheduler, listed)),
        Rest::Watch(until) => Pause::Watch(until, sleepers.call(scheduler, listed)),
    }
}

/// System calls on sockets that are listed, if any may be made.
fn take_calls<H: Handler, C: Named, S>(
    scheduler: &mut Scheduler<H, C>,
    sleepers: &mut Sleepers,
    set: &mut SocketSet<S>,
    table: &HistoryTable,
) -> Option<Pause<S>>
    requires table { table.now ≡ C.table }
    ensures sleepers { IfSome result (λ _. SleepWhileIdle sleepers.new scheduler.new (is_any_listed set.new)) }
{
    let Some(mut calls) = set.lists.take() else {
        if scheduler.is_stopped() || !set.is_any_listed() {
            return None;
        }
        return Some(Pause::Again(sleepers.call(scheduler, set.is_any_listed())));
    };
    match set.look(scheduler, table, &mut calls) {
        None => {
            if calls.is_empty() {
                set.lists.give(calls);
                return None;
            }
            let wake = sleepers.call(scheduler, set.is_any_listed());
            Some(Pause::Call(None, calls, wake))
        }
        closing => {
            let wake = sleepers.call(scheduler, set.is_any_listed());
            Some(Pause::Call(closing, calls, wake))
        }
    }
}

/// Where no handler may begin, system calls are made; else a worker that waits is to sleep, unless it is to
/// return.
fn take_pause<H: Handler, C: Named, S>(
    scheduler: &mut Scheduler<H, C>,
    sleepers: &mut Sleepers,
    set: &mut SocketSet<S>,
    table: &HistoryTable,
    waits: bool,
) -> Pause<S>
    requires table { table.now ≡ C.table }
    ensures sleepers { SleepWhileIdle sleepers.new scheduler.new (is_any_listed set.new) }
{
    match take_calls(scheduler, sleepers, set, table) {
        Some(pause) => pause,
        None => take_rest(scheduler, sleepers, table, waits, set.is_any_listed()),
    }
}

/// The next handler begins, if one may; else system calls are made, or the worker pauses.
fn take_handler<H: Handler, C: Named, S>(
    scheduler: &mut Scheduler<H, C>,
    sleepers: &mut Sleepers,
    set: &mut SocketSet<S>,
    table: &HistoryTable,
    waits: bool,
) -> Next<H, C, S>
    requires table { table.now ≡ C.table }
    ensures sleepers { SleepWhileIdle sleepers.new scheduler.new (is_any_listed set.new) }
{
    match scheduler.begin(table) {
        Some(begun) => Next::Invoke(
            to_invoke(begun),
            sleepers.call(scheduler, set.is_any_listed()),
        ),
        None => Next::Pause(take_pause(scheduler, sleepers, set, table, waits)),
    }
}

/// All waits that are due complete, if the clock was read. Then the next handler begins, or system calls on
/// sockets are made, if any may be; else a worker that waits is to sleep, unless it is to return.
pub(crate) fn take_next<H: Handler, C: Named, S>(
    scheduler: &mut Scheduler<H, C>,
    sleepers: &mut Sleepers,
    set: &mut SocketSet<S>,
    table: &HistoryTable,
    looks: Looks,
) -> Next<H, C, S>
    requires table { table.now ≡ C.table }
    ensures sleepers { SleepWhileIdle sleepers.new scheduler.new (is_any_listed set.new) }
{
    look(scheduler, table, looks.now);
    if looks.glances && sleepers.glance() {
        return Next::Pause(Pause::Watch(0, sleepers.call(scheduler, set.is_any_listed())));
    }
    if looks.calls_first || set.are_many_listed() {
        if let Some(pause) = take_calls(scheduler, sleepers, set, table) {
            return Next::Pause(pause);
        }
    }
    take_handler(scheduler, sleepers, set, table, looks.waits)
}

/// Invokes a handler, with the state of its strand if it has one; answers its mark and the state.
pub(crate) fn invoke<H: Handler>(
    handler: H,
    done: Completion,
    state: Option<H::State>,
    io: &mut Initiator<H, H::State>,
) -> (u64, Option<H::State>)
    ensures mark { result.0 ≡ (H.marks handler).run }
    ensures state { is_some result.1 ≡ is_some state }
    ensures granted { io.new.granted ≡ io.old.granted }
    ensures kept { io.new.kept ≡ io.old.kept }
    ensures may { IsInvoked H.may H.may_free handler done state result.1 io.old io.new }
{
    match state {
        None => (handler.call_free(done, io), None),
        Some(state) => {
            let mut state = state;
            let mark = handler.call(done, &mut state, io);
            (mark, Some(state))
        }
    }
}
