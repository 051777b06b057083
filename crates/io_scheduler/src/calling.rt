ghost use Rattle.std.specs.Prelude.{◌≡◌, ◌<◌, ◌∷◌, ◌&&◌, nat_lt, true, false, None, Some};
ghost use Rattle.io_rules.specs.declared.control.Control.TheVariants as control;
ghost use Rattle.io_rules.specs.declared.event.Event.TheVariants as event;
ghost use Rattle.io_rules.specs.declared.operation.Operation.TheVariants as operation;
ghost use Rattle.io_rules.specs.declared.request.Gone.TheVariants as gone;
ghost use Rattle.io_rules.specs.Calls.{gone_of, is_timer_gone};
ghost use Rattle.io_rules.specs.Legal.{IsLegal, IsStep, MayHappen, state_of};
ghost use Rattle.io_rules.specs.Operations.{is_posting, timer_of};
ghost use Rattle.io_rules.specs.Strands.{entry_of_dispatch, entry_of_kind, is_same_strand};
ghost use Rattle.io_handlers.specs.Initiated.{is_initiated, is_offered_kind};
ghost use Rattle.io_names.specs.Tables.{names_of};
ghost use Rattle.io_scheduler.specs.Accepted.{waiting_on};
ghost use Rattle.io_scheduler.specs.Called.{gone_for, is_any_gone, lane_left};
ghost use Rattle.io_scheduler.specs.Counted.{counts_of};
ghost use Rattle.io_scheduler.specs.Posted.{counts_called, posting};
ghost use Rattle.io_scheduler.specs.Running.{MayGive};
ghost use Rattle.io_scheduler.specs.Staged.{GoesOn, IsCalled};

use crate::accepting::tie;
use crate::counts::Counts;
use crate::entering::enter;
use crate::initiating::is_there;
use crate::noting::{note_called, note_stopped_by};
use crate::outside::note_of;
use crate::running::Running;
use crate::scheduler::Scheduler;
use crate::waiting::Waiting;
use asio_types::Code;
use io_handlers::Handler;
use io_history::{HistoryTable, Keeper, Named};
use io_names::NameTables;
use io_rules::{Gone, Lane, Name, Operation};
use io_strands::ReadyOp;
use std::marker::Brand;

/// Whether these are one strand.
fn is_same_strand(from: Lane, to: Lane) -> bool
    ensures { result ≡ is_same_strand from to }
{
    match (from, to) {
        (Lane::Strand(from), Lane::Strand(to)) => {
            from.place == to.place && from.generation == to.generation
        }
        _ => false,
    }
}

/// Whether what a handler posts goes before all that is ready: what it dispatches to its own strand.
fn goes_first(from: Lane, to: Lane, kind: Operation) -> bool
    requires { is_posting kind ≡ true }
    ensures { entry_of_kind from to kind ≡ entry_of_dispatch result }
{
    match kind {
        Operation::Dispatch => is_same_strand(from, to),
        _ => false,
    }
}

/// Whether its own place is left to a handler behind one more operation.
fn own_left(own: bool, grant: u32) -> bool
    ensures { result ≡ (own && nat_lt 0 grant) }
{
    own && grant > 0
}

/// Whether the timer that an operation waits for is gone.
fn is_timer_gone(names: &NameTables, kind: Operation) -> bool
    ensures { result ≡ is_timer_gone (names_of names.now) (timer_of kind) }
{
    match kind {
        Operation::Wait { timer } => !names.timers.is_alive(timer),
        _ => false,
    }
}

/// What is gone of what an operation names.
fn what_is_gone(names: &NameTables, lane: Lane, kind: Operation) -> Gone
    ensures { result ≡ gone_for (names_of names.now) lane kind }
{
    if !is_there(names, lane) {
        return Gone::Strand;
    }
    if is_timer_gone(names, kind) {
        Gone::Other
    } else {
        Gone::Nothing
    }
}

/// Where the handler of an operation executes, of which this is gone.
pub(crate) fn lane_left(lane: Lane, given: Gone) -> Lane
    ensures { result ≡ lane_left lane given }
{
    match given {
        Gone::Strand => Lane::Own,
        _ => lane,
    }
}

/// A handler that executes initiates an operation, and gives one of its places to it.
pub(crate) fn begin_call<H: Handler, C: Named>(
    table: &HistoryTable,
    keeper: &mut Keeper<C>,
    counts: &mut Counts,
    running: Running<C>,
    lane: Lane,
    kind: Operation,
    handler: &H,
    given: Gone,
) -> Running<C>
    requires table { table.now ≡ C.table }
    requires none { keeper.old.held ≡ None }
    requires counts { counts.old ≡ counts_of (state_of C.limits keeper.old.past) }
    requires going { (state_of C.limits keeper.old.past).finishing ≡ false }
    requires offered { is_initiated kind ≡ true }
    requires given { given ≡ gone_of (state_of C.limits keeper.old.past) (posting lane kind (H.marks handler.now)) }
    requires place { 0 < running.places }
    ensures may { MayHappen (state_of C.limits keeper.old.past)
        (event.Called counts.old.next (Some running.op) (posting lane kind (H.marks handler.now)) given) }
    ensures past { keeper.new.past
        ≡ event.Called counts.old.next (Some running.op) (posting lane kind (H.marks handler.now)) given ∷ keeper.old.past }
    ensures none { keeper.new.held ≡ None }
    ensures legal { IsLegal C.limits keeper.old.past }
    ensures gives { MayGive (state_of C.limits keeper.old.past) running }
    ensures below { counts.old.next < 18446744073709551615 }
    ensures called { counts.new ≡ counts_called counts.old }
    ensures goes_on { GoesOn 1 running.spares running result }
{
    let Running {
        claim,
        op: by,
        lane: from,
        own,
        grant,
        spares,
    } = running;
    keeper.take_back(table, claim);
    keeper.learn(table);
    note_called::<H, C, Brand>(table, keeper, counts.next, by, lane, kind, handler, given);
    counts.take_kept();
    let claim = keeper.give_out(table);
    Running {
        claim,
        op: by,
        lane: from,
        own: own_left(own, grant),
        grant: grant.saturating_sub(1),
        spares,
    }
}

impl<H: Handler, C: Named> Scheduler<H, C> {
    /// A handler that executes posts another one, or waits, which completes at once where something that it
    /// names is gone.
    pub(crate) fn call_by(
        &mut self,
        table: &HistoryTable,
        running: Running<C>,
        lane: Lane,
        kind: Operation,
        handler: H,
    ) -> Running<C>
        requires table { table.now ≡ C.table }
        requires offered { is_offered_kind kind ≡ true }
        requires place { 0 < running.places }
        ensures called { IsCalled running.op (posting lane kind (H.marks handler)) self.old self.new }
        ensures goes_on { GoesOn 1 running.spares running result }
    {
        match what_is_gone(&self.names, lane, kind) {
            Gone::Nothing => self.call_there(table, running, lane, kind, handler),
            given => self.refuse_by(table, running, lane, kind, handler, given),
        }
    }

    /// Likewise, where all that it names is there.
    fn call_there(
        &mut self,
        table: &HistoryTable,
        running: Running<C>,
        lane: Lane,
        kind: Operation,
        handler: H,
    ) -> Running<C>
        requires table { table.now ≡ C.table }
        requires offered { is_offered_kind kind ≡ true }
        requires place { 0 < running.places }
        requires there { gone.Nothing ≡ gone_for self.old.names lane kind }
        ensures called { IsCalled running.op (posting lane kind (H.marks handler)) self.old self.new }
        ensures goes_on { GoesOn 1 running.spares running result }
    {
        match kind {
            Operation::Wait { timer } => self.wait_by(table, running, lane, timer, handler),
            _ => self.post_by(table, running, lane, kind, handler),
        }
    }

    /// A handler that executes posts another one, to a strand that is there or to none.
    fn post_by(
        &mut self,
        table: &HistoryTable,
        running: Running<C>,
        lane: Lane,
        kind: Operation,
        handler: H,
    ) -> Running<C>
        requires table { table.now ≡ C.table }
        requires posting { is_posting kind ≡ true }
        requires place { 0 < running.places }
        requires there { gone.Nothing ≡ gone_for self.old.names lane kind }
        ensures called { IsCalled running.op (posting lane kind (H.marks handler)) self.old self.new }
        ensures goes_on { GoesOn 1 running.spares running result }
    {
        let number = self.counts.next;
        let first = goes_first(running.lane(), lane, kind);
        let left = begin_call(
            table,
            &mut self.keeper,
            &mut self.counts,
            running,
            lane,
            kind,
            &handler,
            Gone::Nothing,
        );
        self.tally.call();
        let ready = ReadyOp {
            number,
            code: Code::Ok,
            size: 0,
            buffer: None,
            made: None,
            handler,
        };
        enter(&mut self.strands, &mut self.jobs, first, lane, ready);
        left
    }

    /// A handler that executes waits for a timer, which is there, and so is the strand.
    fn wait_by(
        &mut self,
        table: &HistoryTable,
        running: Running<C>,
        lane: Lane,
        timer: Name,
        handler: H,
    ) -> Running<C>
        requires table { table.now ≡ C.table }
        requires place { 0 < running.places }
        requires there { gone.Nothing ≡ gone_for self.old.names lane (operation.Wait timer) }
        ensures called { IsCalled running.op (waiting_on lane timer (H.marks handler)) self.old self.new }
        ensures goes_on { GoesOn 1 running.spares running result }
    {
        let number = self.counts.next;
        let left = begin_call(
            table,
            &mut self.keeper,
            &mut self.counts,
            running,
            lane,
            Operation::Wait { timer },
            &handler,
            Gone::Nothing,
        );
        tie(&mut self.strands, lane);
        self.timers.wait(number, timer, Waiting { lane, handler });
        left
    }

    /// A handler that executes initiates an operation that names something gone: it completes at once, and is
    /// ready, without a strand where that one is gone.
    fn refuse_by(
        &mut self,
        table: &HistoryTable,
        running: Running<C>,
        lane: Lane,
        kind: Operation,
        handler: H,
        given: Gone,
    ) -> Running<C>
        requires table { table.now ≡ C.table }
        requires offered { is_offered_kind kind ≡ true }
        requires place { 0 < running.places }
        requires given { given ≡ gone_for self.old.names lane kind }
        requires gone { is_any_gone given ≡ true }
        ensures called { IsCalled running.op (posting lane kind (H.marks handler)) self.old self.new }
        ensures goes_on { GoesOn 1 running.spares running result }
    {
        let number = self.counts.next;
        let left = begin_call(
            table,
            &mut self.keeper,
            &mut self.counts,
            running,
            lane,
            kind,
            &handler,
            given,
        );
        let ready = ReadyOp {
            number,
            code: Code::Bad,
            size: 0,
            buffer: None,
            made: None,
            handler,
        };
        note_of::<H, C, Brand>(table, &mut self.keeper, &ready);
        self.tally.call();
        enter(
            &mut self.strands,
            &mut self.jobs,
            false,
            lane_left(lane, given),
            ready,
        );
        left
    }

    /// A handler that executes stops the context.
    pub(crate) fn stop_by(&mut self, table: &HistoryTable, running: Running<C>) -> Running<C>
        requires table { table.now ≡ C.table }
        ensures step { IsStep self.old (event.Changed (Some running.op) control.Stop) self.new }
        ensures goes_on { GoesOn 0 running.spares running result }
    {
        let Running {
            claim,
            op: by,
            lane,
            own,
            grant,
            spares,
        } = running;
        self.keeper.take_back(table, claim);
        note_stopped_by::<C, Brand>(table, &mut self.keeper, by);
        self.counts.stopped = true;
        let claim = self.keeper.give_out(table);
        Running {
            claim,
            op: by,
            lane,
            own,
            grant,
            spares,
        }
    }
}
