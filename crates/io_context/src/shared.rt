ghost use Rattle.std.specs.Prelude.{◌≡◌, ◌<◌, ◌+◌, nat_lt, [], false, true, IfErr, IfOk, IfSome, None, OnErr, OnOk, Some};
ghost use Rattle.std.specs.Option.{is_some};
ghost use Rattle.io_rules.specs.declared.control.Control.TheVariants as control;
ghost use Rattle.io_rules.specs.declared.event.Event.TheVariants as event;
ghost use Rattle.io_rules.specs.declared.name.Kind.TheVariants as kind;
ghost use Rattle.io_rules.specs.declared.request.Gone.TheVariants as gone;
ghost use Rattle.io_rules.specs.Legal.{state_of};
ghost use Rattle.io_rules.specs.Names.{any_free, is_alive};
ghost use Rattle.io_rules.specs.Operations.{is_posting};
ghost use Rattle.io_context.specs.Refused.{NoStrandWasFree, TransferWasRefused, WaitWasRefused, WasRefused};
ghost use Rattle.io_handlers.specs.Initiated.{with_none};
ghost use Rattle.io_scheduler.specs.Accepted.{waiting_on};
ghost use Rattle.io_scheduler.specs.Begun.{is_strand};
ghost use Rattle.io_scheduler.specs.Closing.{closings};
ghost use Rattle.io_scheduler.specs.Come.{NotesAll, NotesAllIf, changes};
ghost use Rattle.io_scheduler.specs.Ended.{mark_of};
ghost use Rattle.io_scheduler.specs.Holding.{may_hold};
ghost use Rattle.io_scheduler.specs.Posted.{posting};
ghost use Rattle.io_scheduler.specs.Sections.{Notes, NotesIf, NotesNothing};
ghost use Rattle.io_scheduler.specs.Tallied.{is_at_rest};
ghost use Rattle.io_scheduler.specs.Timing.{control_of};
ghost use Rattle.io_scheduler.specs.Transferred.{is_transfer, settled_at_once, transfers};

use crate::invocation::{Freed, Looks, Next, Pause, take_next};
use crate::refused::{Refused, refuse, refuse_strand, refuse_transfer, refuse_wait};
use crate::sleepers::{Sleepers, Wake};
use crate::sockets::{Leaving, SocketSet};
use crate::system_call::SystemCall;
use io_handlers::{Handler, Staging};
use io_history::{HistoryTable, Named};
use io_reactor::Edge;
use io_rules::{Lane, Name, Operation};
use io_scheduler::{Receipt, Running, Scheduler, Section, TimerChange, Transfer};
use io_sockets::WaitType;
use std::marker::Model;
use std::sync::ledger::Share;

/// What lies under the lock of a context. Contracts see the state of its history so far.
pub(crate) struct Shared<H: Handler, C: Named, S> {
    pub(crate) scheduler: Scheduler<H, C>,
    pub(crate) sleepers: Sleepers,
    pub(crate) set: SocketSet<S>,
}

impl<H: Handler, C: Named, S> Model for Shared<H, C, S> {
    ghost use Rattle.io_rules.specs.State.{ContextState};
    ghost use Rattle.io_context.specs.Sleeping.{SleepWhileIdle, is_any_listed};

    ghost Value = { ContextState };

    ghost view = { λ s. s.scheduler };

    ghost invariant = { λ s. SleepWhileIdle s.sleepers s.scheduler (is_any_listed s.set) };
}

impl<H: Handler, C: Named, S> Shared<H, C, S> {
    /// Of a new context.
    pub(crate) fn new(scheduler: Scheduler<H, C>, set: SocketSet<S>) -> Shared<H, C, S>
        ensures { result ≡ scheduler }
    {
        Shared {
            scheduler,
            sleepers: Sleepers::none(),
            set,
        }
    }

    /// Posts a handler from outside of all handlers.
    pub(crate) fn initiate(
        &mut self,
        table: &HistoryTable,
        lane: Lane,
        kind: Operation,
        handler: H,
    ) -> (Result<Receipt<C>, Refused<H, C>>, Wake)
        requires table { table.now ≡ C.table }
        requires posting { is_posting kind ≡ true }
        ensures called { IfOk result.0 (λ receipt. Notes C.limits
            (event.Called receipt.op None (posting lane kind (H.marks handler)) gone.Nothing)
            receipt.section.before receipt.section.after self.old self.new) }
        ensures refused { IfErr result.0 (λ refused. WasRefused C.limits lane refused.why refused.section.after) }
        ensures nothing { IfErr result.0 (λ refused.
            NotesNothing C.limits refused.section.before refused.section.after self.old) }
        ensures same { OnErr result.0 (self.new ≡ self.old) }
        ensures back { IfErr result.0 (λ refused. refused.back ≡ handler) }
    {
        match self.scheduler.initiate(table, lane, kind, handler) {
            Ok(receipt) => (
                Ok(receipt),
                self.sleepers
                    .call(&self.scheduler, self.set.is_any_listed()),
            ),
            Err(back) => (
                Err(refuse(&mut self.scheduler, table, lane, back)),
                self.sleepers
                    .call(&self.scheduler, self.set.is_any_listed()),
            ),
        }
    }

    /// The next handler begins, if one may, or the next system call; else a worker that waits is to sleep.
    pub(crate) fn begin(&mut self, table: &HistoryTable, looks: Looks) -> Next<H, C, S>
        requires { table.now ≡ C.table }
    {
        take_next(
            &mut self.scheduler,
            &mut self.sleepers,
            &mut self.set,
            table,
            looks,
        )
    }

    /// Likewise, by a worker that slept.
    pub(crate) fn begin_awake(&mut self, table: &HistoryTable, looks: Looks) -> Next<H, C, S>
        requires { table.now ≡ C.table }
    {
        self.sleepers.awake();
        take_next(
            &mut self.scheduler,
            &mut self.sleepers,
            &mut self.set,
            table,
            looks,
        )
    }

    /// Likewise, by a worker that has waited for the outside, and found these edges.
    pub(crate) fn begin_watched(
        &mut self,
        table: &HistoryTable,
        edges: &[Edge],
        looks: Looks,
    ) -> Next<H, C, S>
        requires { table.now ≡ C.table }
    {
        self.sleepers.watched();
        self.set.note_edges(edges);
        take_next(
            &mut self.scheduler,
            &mut self.sleepers,
            &mut self.set,
            table,
            looks,
        )
    }

    /// System calls have returned. Then the next handler begins, if one may; sockets that are to be closed are,
    /// before.
    pub(crate) fn put_back(
        &mut self,
        table: &HistoryTable,
        calls: Vec<SystemCall<S>>,
        looks: Looks,
    ) -> Next<H, C, S>
        requires { table.now ≡ C.table }
    {
        match self.set.put_all_back(&mut self.scheduler, table, calls) {
            None => take_next(
                &mut self.scheduler,
                &mut self.sleepers,
                &mut self.set,
                table,
                looks,
            ),
            Some((leaving, calls)) => {
                let listed = self.set.is_any_listed();
                Next::Pause(Pause::Close(
                    leaving,
                    calls,
                    self.sleepers.call(&self.scheduler, listed),
                ))
            }
        }
    }

    /// A handler has returned this mark, which counts in the share of its worker, and the clock was read or
    /// not. What it initiated takes effect. Then the next one begins, if one may.
    pub(crate) fn end(
        &mut self,
        table: &HistoryTable,
        running: Running<C>,
        state: Option<H::State>,
        mark: u64,
        staging: &mut Staging<H, H::State>,
        by: &mut Share<C>,
        looks: Looks,
    ) -> Result<Next<H, C, S>, Freed<H::State>>
        requires table { table.now ≡ C.table }
        requires mark { mark_of running.held ≡ Some mark }
        requires state { is_some state ≡ is_strand running.lane }
        requires granted { staging.old.granted ≡ running.places }
        requires kept { staging.old.kept ≡ running.spares }
        requires part { 0 < by.old.parts }
        ensures counted { by.new.amount ≡ by.old.amount + 1 }
        ensures parts { by.new.parts ≡ by.old.parts }
        ensures taken { staging.new ≡ with_none staging.new.retired staging.old }
        ensures none { OnOk result (staging.new.retired ≡ []) }
    {
        let closed = self.set.touch(staging);
        let retired = self
            .scheduler
            .end(table, running, state, mark, staging, by, looks.now);
        if closed {
            self.set.list_listeners(&self.scheduler);
        }
        match retired {
            None if !staging.retires() => Ok(take_next(
                &mut self.scheduler,
                &mut self.sleepers,
                &mut self.set,
                table,
                looks,
            )),
            state => {
                let listed = self.set.is_any_listed();
                let wake = self.sleepers.call(&self.scheduler, listed);
                Err(Freed { state, wake })
            }
        }
    }

    /// No handler begins any more.
    pub(crate) fn stop(&mut self, table: &HistoryTable) -> (Section<C>, Wake)
        requires { table.now ≡ C.table }
        ensures { Notes C.limits (event.Changed None control.Stop)
            result.0.before result.0.after self.old self.new }
    {
        let section = self.scheduler.stop(table);
        (
            section,
            self.sleepers
                .call(&self.scheduler, self.set.is_any_listed()),
        )
    }

    /// Handlers may begin again.
    pub(crate) fn restart(&mut self, table: &HistoryTable) -> ((bool, Section<C>), Wake)
        requires { table.now ≡ C.table }
        ensures restarted { result.0.0 ≡ is_at_rest self.old }
        ensures noted { NotesIf result.0.0 C.limits event.Restarted
            result.0.1.before result.0.1.after self.old self.new }
    {
        let restarted = self.scheduler.restart(table);
        (
            restarted,
            self.sleepers
                .call(&self.scheduler, self.set.is_any_listed()),
        )
    }

    /// One more work guard.
    pub(crate) fn hold(&mut self, table: &HistoryTable) -> ((bool, Section<C>), Wake)
        requires { table.now ≡ C.table }
        ensures held { result.0.0 ≡ may_hold self.old }
        ensures noted { NotesIf result.0.0 C.limits (event.Changed None control.Hold)
            result.0.1.before result.0.1.after self.old self.new }
    {
        let held = self.scheduler.hold(table);
        (
            held,
            self.sleepers
                .call(&self.scheduler, self.set.is_any_listed()),
        )
    }

    /// A work guard is reset.
    pub(crate) fn release(&mut self, table: &HistoryTable) -> (Section<C>, Wake)
        requires { table.now ≡ C.table }
        ensures { NotesIf (nat_lt 0 self.old.holds) C.limits (event.Changed None control.Release)
            result.0.before result.0.after self.old self.new }
    {
        let section = release_one(&mut self.scheduler, table);
        (
            section,
            self.sleepers
                .call(&self.scheduler, self.set.is_any_listed()),
        )
    }

    /// Makes a strand with this state.
    pub(crate) fn make_strand(
        &mut self,
        table: &HistoryTable,
        state: H::State,
    ) -> (Result<(Name, Section<C>), Refused<H::State, C>>, Wake)
        requires table { table.now ≡ C.table }
        ensures made { IfOk result.0 (λ made. Notes C.limits
            (event.Changed None (control.Make kind.Strand made.0)) made.1.before made.1.after self.old self.new) }
        ensures refused { IfErr result.0 (λ refused. NoStrandWasFree C.limits refused.section.after) }
        ensures nothing { IfErr result.0 (λ refused.
            NotesNothing C.limits refused.section.before refused.section.after self.old) }
        ensures same { OnErr result.0 (self.new ≡ self.old) }
        ensures back { IfErr result.0 (λ refused. refused.back ≡ state) }
    {
        match self.scheduler.make_strand(table, state) {
            Ok(made) => (
                Ok(made),
                self.sleepers
                    .call(&self.scheduler, self.set.is_any_listed()),
            ),
            Err(back) => (
                Err(refuse_strand(&mut self.scheduler, table, back)),
                self.sleepers
                    .call(&self.scheduler, self.set.is_any_listed()),
            ),
        }
    }

    /// The name of a strand is gone; answers its state where nothing is left on it.
    pub(crate) fn free_strand(
        &mut self,
        table: &HistoryTable,
        name: Name,
    ) -> ((Option<H::State>, Section<C>), Wake)
        requires { table.now ≡ C.table }
        ensures { NotesIf (is_alive self.old.names.strands name) C.limits
            (event.Changed None (control.Free kind.Strand name)) result.0.1.before result.0.1.after self.old self.new }
    {
        let freed = self.scheduler.free_strand(table, name);
        (
            freed,
            self.sleepers
                .call(&self.scheduler, self.set.is_any_listed()),
        )
    }

    /// Makes a timer.
    pub(crate) fn make_timer(
        &mut self,
        table: &HistoryTable,
    ) -> (Result<(Name, Section<C>), Section<C>>, Wake)
        requires { table.now ≡ C.table }
        ensures made { IfOk result.0 (λ made. Notes C.limits
            (event.Changed None (control.Make kind.Timer made.0)) made.1.before made.1.after self.old self.new) }
        ensures refused { IfErr result.0 (λ section. any_free (state_of C.limits section.after).names.timers ≡ false) }
        ensures nothing { IfErr result.0 (λ section. NotesNothing C.limits section.before section.after self.old) }
    {
        match self.scheduler.make_timer(table) {
            Some(made) => (
                Ok(made),
                self.sleepers
                    .call(&self.scheduler, self.set.is_any_listed()),
            ),
            None => (
                Err(self.scheduler.look(table)),
                self.sleepers
                    .call(&self.scheduler, self.set.is_any_listed()),
            ),
        }
    }

    /// Changes a timer.
    pub(crate) fn change_timer(
        &mut self,
        table: &HistoryTable,
        timer: Name,
        change: TimerChange,
    ) -> (Section<C>, Wake)
        requires { table.now ≡ C.table }
        ensures { NotesAllIf (is_alive self.old.names.timers timer) C.limits
            (changes None (control_of timer change) self.old) result.0.before result.0.after self.old self.new }
    {
        let section = self.scheduler.change_timer(table, timer, change);
        (
            section,
            self.sleepers
                .call(&self.scheduler, self.set.is_any_listed()),
        )
    }

    /// Waits for a timer.
    pub(crate) fn wait(
        &mut self,
        table: &HistoryTable,
        lane: Lane,
        timer: Name,
        handler: H,
    ) -> (Result<Receipt<C>, Refused<H, C>>, Wake)
        requires table { table.now ≡ C.table }
        ensures called { IfOk result.0 (λ receipt. Notes C.limits
            (event.Called receipt.op None (waiting_on lane timer (H.marks handler)) gone.Nothing)
            receipt.section.before receipt.section.after self.old self.new) }
        ensures refused { IfErr result.0 (λ refused.
            WaitWasRefused C.limits lane timer refused.why refused.section.after) }
        ensures nothing { IfErr result.0 (λ refused.
            NotesNothing C.limits refused.section.before refused.section.after self.old) }
        ensures back { IfErr result.0 (λ refused. refused.back ≡ handler) }
    {
        match self.scheduler.wait(table, lane, timer, handler) {
            Ok(receipt) => (
                Ok(receipt),
                self.sleepers
                    .call(&self.scheduler, self.set.is_any_listed()),
            ),
            Err(back) => (
                Err(refuse_wait(&mut self.scheduler, table, lane, timer, back)),
                self.sleepers
                    .call(&self.scheduler, self.set.is_any_listed()),
            ),
        }
    }

    /// Makes a listener.
    pub(crate) fn make_listener(
        &mut self,
        table: &HistoryTable,
    ) -> (Option<(Name, Section<C>)>, Wake)
        requires table { table.now ≡ C.table }
        ensures made { IfSome result.0 (λ made. Notes C.limits
            (event.Changed None (control.Make kind.Listener made.0)) made.1.before made.1.after self.old self.new) }
    {
        let made = self.scheduler.make_listener(table);
        (
            made,
            self.sleepers
                .call(&self.scheduler, self.set.is_any_listed()),
        )
    }

    /// The socket of a listener is here; what is to be closed comes out.
    pub(crate) fn add_socket(&mut self, name: Name, socket: S) -> (Option<Leaving<S>>, Wake)
        ensures { self.new ≡ self.old }
    {
        let left = self.set.add(name, socket);
        (
            left,
            self.sleepers
                .call(&self.scheduler, self.set.is_any_listed()),
        )
    }

    /// Initiates an operation on a stream or a listener, whose socket is to be looked at.
    pub(crate) fn transfer(
        &mut self,
        table: &HistoryTable,
        transfer: Transfer<H>,
        place: u32,
        wait: WaitType,
    ) -> (Result<Receipt<C>, Refused<Transfer<H>, C>>, Wake)
        requires table { table.now ≡ C.table }
        requires kind { is_transfer transfer.kind ≡ true }
        ensures called { IfOk result.0 (λ receipt. NotesAll C.limits
            (transfers receipt.op None (posting transfer.lane transfer.kind (H.marks transfer.handler))
            (settled_at_once self.old transfer.kind))
            receipt.section.before receipt.section.after self.old self.new) }
        ensures refused { IfErr result.0 (λ refused.
            TransferWasRefused C.limits transfer.lane transfer.kind refused.why refused.section.after) }
        ensures nothing { IfErr result.0 (λ refused.
            NotesNothing C.limits refused.section.before refused.section.after self.old) }
        ensures back { IfErr result.0 (λ refused. refused.back ≡ transfer) }
    {
        self.set.list(place, wait);
        match self.scheduler.transfer(table, transfer) {
            Ok(receipt) => (
                Ok(receipt),
                self.sleepers
                    .call(&self.scheduler, self.set.is_any_listed()),
            ),
            Err(back) => (
                Err(refuse_transfer(&mut self.scheduler, table, back)),
                self.sleepers
                    .call(&self.scheduler, self.set.is_any_listed()),
            ),
        }
    }

    /// Closes a stream or a listener.
    pub(crate) fn close(&mut self, table: &HistoryTable, name: Name) -> (Section<C>, Wake)
        requires { table.now ≡ C.table }
        ensures { NotesAllIf (is_alive self.old.names.streams name) C.limits
            (closings name self.old) result.0.before result.0.after self.old self.new }
    {
        let section = self.scheduler.close(table, name);
        self.set.list(name.place, WaitType::Read);
        self.set.list_listeners(&self.scheduler);
        (
            section,
            self.sleepers
                .call(&self.scheduler, self.set.is_any_listed()),
        )
    }
}

/// A work guard is reset, if one is out.
fn release_one<H: Handler, C: Named>(
    scheduler: &mut Scheduler<H, C>,
    table: &HistoryTable,
) -> Section<C>
    requires { table.now ≡ C.table }
    ensures { NotesIf (nat_lt 0 scheduler.old.holds) C.limits (event.Changed None control.Release)
        result.before result.after scheduler.old scheduler.new }
{
    if scheduler.has_guards() {
        scheduler.release(table)
    } else {
        scheduler.look(table)
    }
}
