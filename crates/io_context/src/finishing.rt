ghost use Rattle.std.specs.Prelude.{◌≡◌, [], None};
ghost use Rattle.io_rules.specs.History.{times};
ghost use Rattle.io_rules.specs.Legal.{IsLegal, IsWhole, state_of};
ghost use Rattle.io_history.specs.Seats.{is_end};
ghost use Rattle.io_context.specs.Laws.{KeepsLaws};

use crate::context::Context;
use crate::history::History;
use crate::shared::Shared;
use io_handlers::Handler;
use io_history::{HistoryTable, Keeper, Named};
use io_reactor::Reactor;
use io_rules::{
    each_handler_is_called_once, handlers_of_a_strand_are_alone,
    handlers_of_a_strand_begin_in_order, nothing_begins_while_stopped,
};
use io_scheduler::{Remains, Scheduler, States};
use io_timers::waits_complete_by_expiry;
use std::sync::Wait;
use std::sync::ledger::Share;

/// Waits until no handler executes.
fn at_rest<H: Handler, C: Named, R: Wait>(
    rt: &R,
    scheduler: Scheduler<H, C>,
    table: &HistoryTable,
) -> Remains<H, C>
    requires { table.now ≡ C.table }
{
    let mut scheduler = scheduler;
    for _ in rt.forever() {
        match scheduler.finishing(table) {
            Ok(left) => return left,
            Err(back) => scheduler = back,
        }
    }
    unreachable!()
}

/// Discards all handlers that are left.
fn discard_all<H: Handler, C: Named>(left: &mut Remains<H, C>, table: &HistoryTable)
    requires { table.now ≡ C.table }
    ensures { left.new.ops ≡ [] }
{
    'handlers: while let Some(handler) = left.drop_next(table) {
        handler.discard();
    }
}

/// Retires all states that are left.
fn retire_all<H: Handler>(states: States<H, H::State>) {
    let mut left = states;
    'states: while let Some(state) = left.next() {
        H::retire(state);
    }
    left.destroy();
}

/// The history of a keeper that knows a whole one.
fn history<C: Named>(table: HistoryTable, keeper: Keeper<C>, executed: Share<C>) -> History<C>
    requires table { table ≡ C.table }
    requires whole { IsWhole (state_of C.limits keeper.past) }
    requires none { keeper.held ≡ None }
    ensures legal { IsLegal C.limits result }
    ensures whole { IsWhole (state_of C.limits result) }
    ensures laws { KeepsLaws C.limits result }
    ensures executed { executed.parts ≡ C.parts → times is_end result ≡ executed.amount }
{
    let mut keeper = keeper;
    let mut executed = executed;
    keeper.audit(&mut executed);
    keeper.learn(&table);
    each_handler_is_called_once();
    handlers_of_a_strand_are_alone();
    handlers_of_a_strand_begin_in_order();
    nothing_begins_while_stopped();
    waits_complete_by_expiry();
    History { table, keeper }
}

impl<H: Handler, C: Named, W: Reactor> Context<H, C, W> {
    /// Destroys the context (`io_context::~io_context`), and answers its whole history. Each handler that is
    /// left is discarded, in the order of the calls, and each strand's state is retired. Waits while a
    /// handler executes; none does, since whoever runs the context borrows it. Where the shares of all
    /// workers have come back, just as many handlers were executed as they say.
    pub fn finish<R: Wait>(self, rt: &R, executed: Share<C>) -> History<C>
        ensures legal { IsLegal C.limits result }
        ensures whole { IsWhole (state_of C.limits result) }
        ensures laws { KeepsLaws C.limits result }
        ensures executed { executed.parts ≡ C.parts → times is_end result ≡ executed.amount }
    {
        let Context {
            table,
            limits: _,
            shared,
            reactor,
            poller,
            failed: _,
            more: _,
        } = self;
        let Shared {
            scheduler,
            sleepers: _,
            set,
        } = shared.into_inner();
        set.close_all(&reactor);
        poller.into_inner().finish(reactor);
        let mut left = at_rest(rt, scheduler, &table);
        discard_all(&mut left, &table);
        let (keeper, states) = left.into_parts();
        retire_all::<H>(states);
        history(table, keeper, executed)
    }
}
