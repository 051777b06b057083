ghost use Rattle.std.specs.Prelude.{◌≡◌, ◌<◌, false, length, true, IfErr, IfOk, None, OnErr, Some};
ghost use Rattle.std.specs.Bool.{OnFalse, OnTrue};
ghost use Rattle.io_rules.specs.Calls.{is_target_gone};
ghost use Rattle.io_rules.specs.Operations.{at, target_of};
ghost use Rattle.io_rules.specs.Serving.{first_of};
ghost use Rattle.io_rules.specs.State.{stream_at};
ghost use Rattle.io_handlers.specs.Initiated.{is_transfer};
ghost use Rattle.io_streams.specs.declared.pending.PendingOp.{PendingOp};
ghost use Rattle.io_streams.specs.Pending.{IsHead};
ghost use Rattle.io_scheduler.specs.declared.streaming.Streaming.{Streaming};
ghost use Rattle.io_scheduler.specs.Come.{NotesAll};
ghost use Rattle.io_scheduler.specs.Posted.{posting};
ghost use Rattle.io_scheduler.specs.Transferred.{may_transfer, settled_at_once, transfers};

use crate::accepting::tie;
use crate::entering::enter;
use crate::noting::note_posted;
use crate::outside::note_of;
use crate::receipt::Receipt;
use crate::scheduler::Scheduler;
use crate::section::Section;
use crate::streaming::Streaming;
use crate::target::{Target, is_accept, settled_now, target_of};
use asio_types::Code;
use io_handlers::Handler;
use io_history::{HistoryTable, Named};
use io_rules::{Lane, Operation};
use io_strands::ReadyOp;
use io_streams::Streams;
use std::marker::Brand;

/// An operation on a stream or a listener that is to be initiated, with its handler.
pub struct Transfer<H> {
    /// Where its handler is to execute.
    pub lane: Lane,
    /// What it does.
    pub kind: Operation,
    /// The buffer of a read or a write.
    pub buffer: Option<Vec<u8>>,
    /// Its handler.
    pub handler: H,
}

/// Whether nothing is pending on a side.
pub(crate) fn is_first<H>(streams: &Streams<Streaming<H>>, target: Target) -> bool
    requires { target.stream.place < length streams.now.streams }
    ensures none { OnTrue result (first_of target.side (stream_at streams.now.streams target.stream) ≡ None) }
    ensures head { OnFalse result ((op : PendingOp (Streaming H)) × IsHead target.stream target.side streams.now op) }
{
    match streams.first(target.stream, target.side) {
        None => true,
        Some(place) => {
            let _op = streams.get(place);
            false
        }
    }
}

impl<H: Handler, C: Named> Scheduler<H, C> {
    /// Initiates an operation on a stream or a listener from outside of all handlers
    /// (`basic_stream_socket::async_read_some`, `async_write_some`, `async_write`,
    /// `basic_socket_acceptor::async_accept`), and answers that the call stands in the history. It completes
    /// at once where it is the first of its side and has an empty buffer, or there is no connection. Gives it
    /// back where no place or no number is free, or the strand or the stream is gone.
    pub fn transfer(
        &mut self,
        table: &HistoryTable,
        transfer: Transfer<H>,
    ) -> Result<Receipt<C>, Transfer<H>>
        requires table { table.now ≡ C.table }
        requires kind { is_transfer transfer.kind ≡ true }
        ensures noted { IfOk result (λ receipt. NotesAll C.limits
            (transfers receipt.op None (posting transfer.lane transfer.kind (H.marks transfer.handler))
            (settled_at_once self.old transfer.kind))
            receipt.section.before receipt.section.after self.old self.new) }
        ensures refused { OnErr result (may_transfer self.old transfer.lane transfer.kind ≡ false) }
        ensures same { OnErr result (self.new ≡ self.old) }
        ensures back { IfErr result (λ back. back ≡ transfer) }
    {
        if !self.may_post(transfer.lane) || self.is_target_gone(transfer.kind) {
            return Err(transfer);
        }
        Ok(self.transfer_alive(table, transfer))
    }

    /// Whether the stream or the listener of an operation is gone, or isn't one for it.
    pub(crate) fn is_target_gone(&self, kind: Operation) -> bool
        requires { is_transfer kind ≡ true }
        ensures { result ≡ is_target_gone self.now kind (target_of kind) }
    {
        let target = target_of(kind);
        if !self.names.streams.is_alive(target.stream) {
            return true;
        }
        is_accept(kind) != self.streams.is_listener(target.stream)
    }

    /// How an operation that is initiated completes at once, if it does.
    pub(crate) fn settled_at_once(&self, kind: Operation) -> Option<Code>
        requires kind { is_transfer kind ≡ true }
        requires there { is_target_gone self.now kind (target_of kind) ≡ false }
        ensures { result ≡ settled_at_once self.now kind }
    {
        let target = target_of(kind);
        if is_first(&self.streams, target) {
            settled_now(self.streams.is_linked(target.stream), kind)
        } else {
            None
        }
    }

    /// Likewise, where it may.
    fn transfer_alive(&mut self, table: &HistoryTable, transfer: Transfer<H>) -> Receipt<C>
        requires table { table.now ≡ C.table }
        requires kind { is_transfer transfer.kind ≡ true }
        requires may { may_transfer self.old transfer.lane transfer.kind ≡ true }
        ensures noted { NotesAll C.limits
            (transfers result.op None (posting transfer.lane transfer.kind (H.marks transfer.handler))
            (settled_at_once self.old transfer.kind))
            result.section.before result.section.after self.old self.new }
    {
        match self.settled_at_once(transfer.kind) {
            None => self.transfer_pending(table, transfer),
            Some(code) => self.transfer_settled(table, transfer, code),
        }
    }

    /// Likewise, where it is pending then.
    fn transfer_pending(&mut self, table: &HistoryTable, transfer: Transfer<H>) -> Receipt<C>
        requires table { table.now ≡ C.table }
        requires kind { is_transfer transfer.kind ≡ true }
        requires may { may_transfer self.old transfer.lane transfer.kind ≡ true }
        requires pending { settled_at_once self.old transfer.kind ≡ None }
        ensures noted { NotesAll C.limits
            (transfers result.op None (posting transfer.lane transfer.kind (H.marks transfer.handler)) None)
            result.section.before result.section.after self.old self.new }
    {
        self.keeper.learn(table);
        let op = self.counts.next;
        let Transfer {
            lane,
            kind,
            buffer,
            handler,
        } = transfer;
        let section = note_posted::<H, C, Brand>(table, &mut self.keeper, op, lane, kind, &handler);
        self.counts.next += 1;
        self.counts.room -= 1;
        self.tally.pend();
        tie(&mut self.strands, lane);
        let target = target_of(kind);
        let _first = is_first(&self.streams, target);
        self.streams.accept(
            op,
            target.stream,
            target.side,
            Streaming {
                lane,
                kind,
                moved: 0,
                cancelled: false,
                buffer,
                handler,
            },
        );
        Receipt { op, section }
    }

    /// Likewise, where it completes at once.
    fn transfer_settled(
        &mut self,
        table: &HistoryTable,
        transfer: Transfer<H>,
        code: Code,
    ) -> Receipt<C>
        requires table { table.now ≡ C.table }
        requires kind { is_transfer transfer.kind ≡ true }
        requires may { may_transfer self.old transfer.lane transfer.kind ≡ true }
        requires settled { settled_at_once self.old transfer.kind ≡ Some code }
        ensures noted { NotesAll C.limits
            (transfers result.op None (posting transfer.lane transfer.kind (H.marks transfer.handler)) (Some code))
            result.section.before result.section.after self.old self.new }
    {
        self.keeper.learn(table);
        let op = self.counts.next;
        let Transfer {
            lane,
            kind,
            buffer,
            handler,
        } = transfer;
        let _target = target_of(kind);
        let called = note_posted::<H, C, Brand>(table, &mut self.keeper, op, lane, kind, &handler);
        let Section { before, after: _ } = called;
        let ready = ReadyOp {
            number: op,
            code,
            size: 0,
            buffer,
            made: None,
            handler,
        };
        note_of::<H, C, Brand>(table, &mut self.keeper, &ready);
        self.counts.next += 1;
        self.counts.room -= 1;
        self.tally.call();
        enter(&mut self.strands, &mut self.jobs, false, lane, ready);
        let after = self.keeper.tell(table);
        let section = Section { before, after };
        Receipt { op, section }
    }
}
