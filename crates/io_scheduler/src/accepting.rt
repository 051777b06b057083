ghost use Rattle.std.specs.Prelude.{◌≡◌, ◌∷◌, false, true, IfErr, IfOk, None, OnErr};
ghost use Rattle.io_rules.specs.declared.event.Event.TheVariants as event;
ghost use Rattle.io_rules.specs.declared.request.Gone.TheVariants as gone;
ghost use Rattle.io_rules.specs.Legal.{IsStep, MayHappen, state_of};
ghost use Rattle.io_strands.specs.declared.ready.ReadyOp.{ReadyOp};
ghost use Rattle.io_names.specs.Tables.{names_of};
ghost use Rattle.io_scheduler.specs.Accepted.{MayBeTiedTo, later_cells, may_wait, waiting_on};
ghost use Rattle.io_scheduler.specs.Sections.{Notes};
ghost use Rattle.io_scheduler.specs.Shown.{Shows};
ghost use Rattle.io_scheduler.specs.Waits.{ShowsWaits};

use crate::counts::Counts;
use crate::receipt::Receipt;
use crate::scheduler::Scheduler;
use crate::section::Section;
use crate::waiting::Waiting;
use io_handlers::Handler;
use io_history::{Happening, HistoryTable, Keeper, Named};
use io_jobs::Jobs;
use io_names::NameTables;
use io_rules::{Lane, Name};
use io_strands::{ReadyOp, Strand};
use io_timers::Timers;
use std::marker::Brand;

/// One more operation is tied to the strand of a lane, which isn't ready.
pub(crate) fn tie<H, S>(strands: &mut Vec<Strand<H, S>>, lane: Lane)
    requires { MayBeTiedTo lane strands.old.items }
    ensures { (op : ReadyOp H) → strands.new.items ≡ later_cells lane op strands.old.items }
{
    match lane {
        Lane::Own => {}
        Lane::Strand(name) => strands[name.place as usize].call_later(),
    }
}

/// Notes that a wait is initiated from outside, and answers the critical section.
fn note_waiting<H: Handler, C: Named, E: Happening>(
    table: &HistoryTable,
    keeper: &mut Keeper<C>,
    op: u64,
    lane: Lane,
    timer: Name,
    handler: &H,
) -> Section<C>
    requires table { table.now ≡ C.table }
    requires event { E.event ≡ event.Called op None (waiting_on lane timer (H.marks handler.now)) gone.Nothing }
    requires may { MayHappen (state_of C.limits keeper.old.past) E.event }
    requires none { keeper.old.held ≡ None }
    ensures past { keeper.new.past ≡ E.event ∷ keeper.old.past }
    ensures none { keeper.new.held ≡ None }
    ensures before { result.before ≡ keeper.old.past }
    ensures after { result.after ≡ E.event ∷ keeper.old.past }
{
    let before = keeper.tell(table);
    keeper.note::<E>(table);
    let after = keeper.tell(table);
    Section { before, after }
}

/// Accepts a wait from outside of all handlers, where it may be.
fn accept_wait<H: Handler, C: Named>(
    table: &HistoryTable,
    keeper: &mut Keeper<C>,
    counts: &mut Counts,
    names: &NameTables,
    timers: &mut Timers<Waiting<H>>,
    strands: &mut Vec<Strand<H, H::State>>,
    jobs: &Jobs<ReadyOp<H>>,
    lane: Lane,
    timer: Name,
    handler: H,
) -> Receipt<C>
    requires table { table.now ≡ C.table }
    requires none { keeper.old.held ≡ None }
    requires may { may_wait (state_of C.limits keeper.old.past) lane timer ≡ true }
    requires shows { Shows H.marks C.limits counts.old (names_of names.now) strands.old.items jobs.now
        (state_of C.limits keeper.old.past) }
    requires waits { ShowsWaits H.marks C.limits timers.old (state_of C.limits keeper.old.past) }
    ensures may { MayHappen (state_of C.limits keeper.old.past)
        (event.Called result.op None (waiting_on lane timer (H.marks handler)) gone.Nothing) }
    ensures past { keeper.new.past
        ≡ event.Called result.op None (waiting_on lane timer (H.marks handler)) gone.Nothing ∷ keeper.old.past }
    ensures before { result.section.before ≡ keeper.old.past }
    ensures after { result.section.after
        ≡ event.Called result.op None (waiting_on lane timer (H.marks handler)) gone.Nothing ∷ keeper.old.past }
    ensures none { keeper.new.held ≡ None }
    ensures shows { Shows H.marks C.limits counts.new (names_of names.now) strands.new.items jobs.now
        (state_of C.limits keeper.new.past) }
    ensures waits { ShowsWaits H.marks C.limits timers.new (state_of C.limits keeper.new.past) }
{
    keeper.learn(table);
    let op = counts.next;
    let section = note_waiting::<H, C, Brand>(table, keeper, op, lane, timer, &handler);
    counts.next += 1;
    counts.room -= 1;
    tie(strands, lane);
    timers.wait(op, timer, Waiting { lane, handler });
    Receipt { op, section }
}

impl<H: Handler, C: Named> Scheduler<H, C> {
    /// Waits for a timer from outside of all handlers (`basic_waitable_timer::async_wait`), and answers that
    /// the call stands in the history; gives the handler back where no place or no number is free, or the
    /// strand or the timer is gone.
    pub fn wait(
        &mut self,
        table: &HistoryTable,
        lane: Lane,
        timer: Name,
        handler: H,
    ) -> Result<Receipt<C>, H>
        requires table { table.now ≡ C.table }
        ensures initiated { IfOk result (λ receipt. IsStep self.old
            (event.Called receipt.op None (waiting_on lane timer (H.marks handler)) gone.Nothing) self.new) }
        ensures noted { IfOk result (λ receipt. Notes C.limits
            (event.Called receipt.op None (waiting_on lane timer (H.marks handler)) gone.Nothing)
            receipt.section.before receipt.section.after self.old self.new) }
        ensures refused { OnErr result (may_wait self.old lane timer ≡ false) }
        ensures same { OnErr result (self.new ≡ self.old) }
        ensures back { IfErr result (λ back. back ≡ handler) }
    {
        if !self.may_post(lane) || !self.names.timers.is_alive(timer) {
            return Err(handler);
        }
        Ok(self.wait_alive(table, lane, timer, handler))
    }

    /// Likewise, where it may.
    fn wait_alive(
        &mut self,
        table: &HistoryTable,
        lane: Lane,
        timer: Name,
        handler: H,
    ) -> Receipt<C>
        requires table { table.now ≡ C.table }
        requires may { may_wait self.old lane timer ≡ true }
        ensures initiated { IsStep self.old
            (event.Called result.op None (waiting_on lane timer (H.marks handler)) gone.Nothing) self.new }
        ensures noted { Notes C.limits
            (event.Called result.op None (waiting_on lane timer (H.marks handler)) gone.Nothing)
            result.section.before result.section.after self.old self.new }
    {
        accept_wait(
            table,
            &mut self.keeper,
            &mut self.counts,
            &self.names,
            &mut self.timers,
            &mut self.strands,
            &self.jobs,
            lane,
            timer,
            handler,
        )
    }
}
