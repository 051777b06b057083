ghost use Rattle.std.specs.Prelude.{◌≡◌, ◌<◌, false, true, None, Some};
ghost use Rattle.io_rules.specs.Calls.{is_lane_gone, is_target_gone};
ghost use Rattle.io_rules.specs.Operations.{target_of};
ghost use Rattle.io_handlers.specs.Initiated.{IsOfferedCall, is_transfer, request_of};
ghost use Rattle.io_scheduler.specs.Posted.{posting};
ghost use Rattle.io_scheduler.specs.Staged.{GoesOn, IsCalled};
ghost use Rattle.io_scheduler.specs.Transferred.{code_at_once, gone_for_transfer, settled_at_once};

use crate::accepting::tie;
use crate::calling::{begin_call, lane_left};
use crate::entering::enter;
use crate::initiating::is_there;
use crate::outside::note_of;
use crate::running::Running;
use crate::scheduler::Scheduler;
use crate::streaming::Streaming;
use crate::target::{is_transfer, target_of};
use crate::transferring::{Transfer, is_first};
use asio_types::Code;
use io_handlers::{Handler, Initiating};
use io_history::{HistoryTable, Named};
use io_rules::Gone;
use io_strands::ReadyOp;
use std::marker::Brand;

impl<H: Handler, C: Named> Scheduler<H, C> {
    /// A handler that executes initiates an operation.
    pub(crate) fn initiate_by(
        &mut self,
        table: &HistoryTable,
        running: Running<C>,
        call: Initiating<H>,
    ) -> Running<C>
        requires table { table.now ≡ C.table }
        requires offered { IsOfferedCall call }
        requires place { 0 < running.places }
        ensures called { IsCalled running.op (request_of H.marks call) self.old self.new }
        ensures goes_on { GoesOn 1 running.spares running result }
    {
        let Initiating {
            lane,
            binding: _,
            kind,
            buffer,
            handler,
        } = call;
        if is_transfer(kind) {
            let transfer = Transfer {
                lane,
                kind,
                buffer,
                handler,
            };
            self.transfer_by(table, running, transfer)
        } else {
            self.call_by(table, running, lane, kind, handler)
        }
    }

    /// An operation on a stream or a listener, which completes at once where its strand or its stream is gone.
    fn transfer_by(
        &mut self,
        table: &HistoryTable,
        running: Running<C>,
        transfer: Transfer<H>,
    ) -> Running<C>
        requires table { table.now ≡ C.table }
        requires kind { is_transfer transfer.kind ≡ true }
        requires place { 0 < running.places }
        ensures called { IsCalled running.op
            (posting transfer.lane transfer.kind (H.marks transfer.handler)) self.old self.new }
        ensures goes_on { GoesOn 1 running.spares running result }
    {
        if !is_there(&self.names, transfer.lane) {
            return self.transfer_over(table, running, transfer, Gone::Strand, Code::Bad);
        }
        if self.is_target_gone(transfer.kind) {
            return self.transfer_over(table, running, transfer, Gone::Other, Code::Bad);
        }
        match self.settled_at_once(transfer.kind) {
            None => self.transfer_on(table, running, transfer),
            Some(code) => self.transfer_over(table, running, transfer, Gone::Nothing, code),
        }
    }

    /// Likewise, where it is pending then.
    fn transfer_on(
        &mut self,
        table: &HistoryTable,
        running: Running<C>,
        transfer: Transfer<H>,
    ) -> Running<C>
        requires table { table.now ≡ C.table }
        requires kind { is_transfer transfer.kind ≡ true }
        requires place { 0 < running.places }
        requires lane { is_lane_gone self.old.names transfer.lane ≡ false }
        requires there { is_target_gone self.old transfer.kind (target_of transfer.kind) ≡ false }
        requires pending { settled_at_once self.old transfer.kind ≡ None }
        ensures called { IsCalled running.op
            (posting transfer.lane transfer.kind (H.marks transfer.handler)) self.old self.new }
        ensures goes_on { GoesOn 1 running.spares running result }
    {
        let number = self.counts.next;
        let Transfer {
            lane,
            kind,
            buffer,
            handler,
        } = transfer;
        let left = begin_call(
            table,
            &mut self.keeper,
            &mut self.counts,
            running,
            lane,
            kind,
            &handler,
            Gone::Nothing,
        );
        self.tally.pend();
        tie(&mut self.strands, lane);
        let target = target_of(kind);
        let _first = is_first(&self.streams, target);
        self.streams.accept(
            number,
            target.stream,
            target.side,
            Streaming {
                lane,
                kind,
                moved: 0,
                cancelled: false,
                buffer,
                handler,
            },
        );
        left
    }

    /// Likewise, where it completes at once, and gives its buffer back: since something that it names is gone,
    /// or it has an empty buffer, or there is no connection.
    fn transfer_over(
        &mut self,
        table: &HistoryTable,
        running: Running<C>,
        transfer: Transfer<H>,
        given: Gone,
        code: Code,
    ) -> Running<C>
        requires table { table.now ≡ C.table }
        requires kind { is_transfer transfer.kind ≡ true }
        requires place { 0 < running.places }
        requires given { given ≡ gone_for_transfer self.old transfer.lane transfer.kind }
        requires code { code_at_once self.old transfer.kind given ≡ Some code }
        ensures called { IsCalled running.op
            (posting transfer.lane transfer.kind (H.marks transfer.handler)) self.old self.new }
        ensures goes_on { GoesOn 1 running.spares running result }
    {
        let number = self.counts.next;
        let Transfer {
            lane,
            kind,
            buffer,
            handler,
        } = transfer;
        let _target = target_of(kind);
        self.streams.holds();
        let left = begin_call(
            table,
            &mut self.keeper,
            &mut self.counts,
            running,
            lane,
            kind,
            &handler,
            given,
        );
        let ready = ReadyOp {
            number,
            code,
            size: 0,
            buffer,
            made: None,
            handler,
        };
        note_of::<H, C, Brand>(table, &mut self.keeper, &ready);
        self.tally.call();
        let to = lane_left(lane, given);
        enter(&mut self.strands, &mut self.jobs, false, to, ready);
        left
    }
}
