ghost use Rattle.std.specs.Prelude.{◌≡◌, true, false, IfErr, IfOk, None, OnErr, not};
ghost use Rattle.io_rules.specs.declared.event.Event.TheVariants as event;
ghost use Rattle.io_rules.specs.declared.request.Gone.TheVariants as gone;
ghost use Rattle.io_rules.specs.Calls.{is_lane_gone};
ghost use Rattle.io_rules.specs.Legal.{IsStep};
ghost use Rattle.io_rules.specs.Operations.{is_posting};
ghost use Rattle.io_names.specs.Tables.{names_of};
ghost use Rattle.io_scheduler.specs.Counted.{may_post};
ghost use Rattle.io_scheduler.specs.Posted.{posting};
ghost use Rattle.io_scheduler.specs.Sections.{Notes};

use crate::entering::enter;
use crate::noting::note_posted;
use crate::receipt::Receipt;
use crate::scheduler::Scheduler;
use asio_types::Code;
use io_handlers::Handler;
use io_history::{HistoryTable, Named};
use io_names::NameTables;
use io_rules::{Lane, Operation};
use io_strands::ReadyOp;
use std::marker::Brand;

/// Whether the strand of a lane is there, if it is a strand's.
pub(crate) fn is_there(names: &NameTables, lane: Lane) -> bool
    ensures { result ≡ not (is_lane_gone (names_of names.now) lane) }
{
    match lane {
        Lane::Own => true,
        Lane::Strand(name) => names.strands.is_alive(name),
    }
}

impl<H: Handler, C: Named> Scheduler<H, C> {
    /// Whether an operation may be posted there from outside of all handlers.
    pub fn may_post(&self, lane: Lane) -> bool
        ensures { result ≡ may_post self.now lane }
    {
        self.counts.room > 0 && self.counts.numbers_left() > 0 && is_there(&self.names, lane)
    }

    /// Posts a handler from outside of all handlers (`post`, `defer`, `dispatch`), and answers that the
    /// call stands in the history; gives it back where no place or no number is free, or the strand is gone.
    pub fn initiate(
        &mut self,
        table: &HistoryTable,
        lane: Lane,
        kind: Operation,
        handler: H,
    ) -> Result<Receipt<C>, H>
        requires table { table.now ≡ C.table }
        requires posting { is_posting kind ≡ true }
        ensures initiated { IfOk result (λ receipt. IsStep self.old
            (event.Called receipt.op None (posting lane kind (H.marks handler)) gone.Nothing) self.new) }
        ensures noted { IfOk result (λ receipt. Notes C.limits
            (event.Called receipt.op None (posting lane kind (H.marks handler)) gone.Nothing)
            receipt.section.before receipt.section.after self.old self.new) }
        ensures refused { OnErr result (may_post self.old lane ≡ false) }
        ensures same { OnErr result (self.new ≡ self.old) }
        ensures back { IfErr result (λ back. back ≡ handler) }
    {
        if !self.may_post(lane) {
            return Err(handler);
        }
        Ok(self.post(table, lane, kind, handler))
    }

    /// Posts a handler where it may.
    fn post(&mut self, table: &HistoryTable, lane: Lane, kind: Operation, handler: H) -> Receipt<C>
        requires table { table.now ≡ C.table }
        requires posting { is_posting kind ≡ true }
        requires may { may_post self.old lane ≡ true }
        ensures initiated { IsStep self.old
            (event.Called result.op None (posting lane kind (H.marks handler)) gone.Nothing) self.new }
        ensures noted { Notes C.limits
            (event.Called result.op None (posting lane kind (H.marks handler)) gone.Nothing)
            result.section.before result.section.after self.old self.new }
    {
        self.keeper.learn(table);
        let op = self.counts.next;
        let section = note_posted::<H, C, Brand>(table, &mut self.keeper, op, lane, kind, &handler);
        self.counts.next += 1;
        self.counts.room -= 1;
        self.tally.call();
        let ready = ReadyOp {
            number: op,
            code: Code::Ok,
            size: 0,
            buffer: None,
            made: None,
            handler,
        };
        enter(&mut self.strands, &mut self.jobs, false, lane, ready);
        Receipt { op, section }
    }
}
