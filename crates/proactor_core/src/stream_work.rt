ghost use Rattle.std.specs.Prelude.{◌≡◌, ◌<◌, ◌≤◌, [], IfOk, IfSome, IsTrue, OnOk, false, length};
ghost use Rattle.asio_types.specs.Faults.{CountsFaults};
ghost use Rattle.composed_ops.specs.StreamOperation.{most_moved};
ghost use Rattle.composed_ops.specs.Machine.{progress_of};
ghost use Rattle.composed_ops.specs.Progress.{new_progress, IsUnderWay};
ghost use Rattle.history_rules.specs.Performing.{all_of_stream, bad};
ghost use Rattle.proactor_core.specs.Counts.{within_32_bits};
ghost use Rattle.proactor_core.specs.Due.{listed};
ghost use Rattle.proactor_core.specs.Pending.{reading_asked, writing_asked};
ghost use Rattle.proactor_core.specs.Reactor.{tells, whole_told, ChangesOne, IsServable};
ghost use Rattle.proactor_core.specs.Reading.{AsksToRead};
ghost use Rattle.proactor_core.specs.Streams.{aborts_of_op, bad_if_closed, closed_view, new_stream_view, pending_on, queues_in, read_begun, without_op, write_begun, IsStreamServed, StreamGives};
ghost use Rattle.proactor_core.specs.Untold.{AreUnderWay};
ghost use Rattle.proactor_core.specs.Writing.{AsksToWrite};

use crate::aborting::{abort_all, abort_in};
use crate::counts::in_32_bits;
use crate::due::DueList;
use crate::held::HeldBytes;
use crate::pending::{PendingOp, serve_reads, serve_writes};
use asio_types::{Code, Failed, NoMemory, OpNo, StreamNo};
use composed_ops::Machine;
use reactor_trait::Reactor;
use std::alloc::Global;
use std::collections::VecDeque;
use std::marker::Model;
use stream_rules::Completion;

/// A stream of a proactor (Asio reference, `basic_stream_socket`): the bytes that were read and not
/// consumed, and its reads and writes that haven't completed, in order of acceptance. No call but
/// `make` takes memory.
#[derive(Drop)]
pub(crate) struct StreamWork<'a> {
    closed: bool,
    held: HeldBytes,
    reads: VecDeque<PendingOp<'a>>,
    writes: VecDeque<PendingOp<'a>>,
}

impl<'a> Model for StreamWork<'a> {
    ghost use Rattle.std.specs.Prelude.{map};
    ghost use Rattle.std.specs.VecDeque.{deque_capacity};
    ghost use Rattle.proactor_core.specs.Pending.{pending_read, pending_write};
    ghost use Rattle.proactor_core.specs.Streams.{StreamView};
    ghost use Rattle.proactor_core.specs.StreamWork.{IsWork};

    ghost Value = { StreamView };

    ghost view = { λ w. record {
      held = w.held.bytes;
      room = w.held.room;
      closed = w.closed;
      reads = map pending_read w.reads.items;
      writes = map pending_write w.writes.items;
      reads_room = deque_capacity w.reads;
      writes_room = deque_capacity w.writes;
    } };

    ghost invariant = { λ w. IsWork w.closed w.held w.reads.items w.writes.items };
}

/// An operation on a closed stream completes at once.
fn bad(op: OpNo) -> Completion
    ensures { result ≡ bad op }
{
    Completion {
        op,
        outcome: (Code::Bad, 0),
    }
}

impl<'a> StreamWork<'a> {
    /// An open stream without operations. Takes memory for so many reads and writes, and for reads
    /// of at most `room` bytes.
    pub(crate) fn make(
        alloc: Global,
        room: u32,
        reads: u32,
        writes: u32,
    ) -> Result<StreamWork<'a>, NoMemory>
        ensures { IfOk result (λ work. work ≡ new_stream_view room reads writes) }
    {
        let held = HeldBytes::with_room(alloc, room)?;
        let reads = VecDeque::with_capacity(alloc, reads as usize)?;
        let writes = VecDeque::with_capacity(alloc, writes as usize)?;
        Ok(StreamWork {
            closed: false,
            held,
            reads,
            writes,
        })
    }

    /// A read is pending, unless the stream is closed: then it completes at once.
    pub(crate) fn accept_read(
        &mut self,
        op: OpNo,
        accepted: u32,
        machine: Machine<'a>,
        due: &mut DueList,
    )
        requires fresh { progress_of machine ≡ new_progress (progress_of machine).asks }
        requires reads { AsksToRead (progress_of machine).asks }
        requires under_way { IsUnderWay (progress_of machine) }
        requires holds { most_moved (progress_of machine).asks ≤ self.old.room }
        requires room { length self.old.reads < self.old.reads_room }
        requires spare { 0 < due.old.spare }
        ensures accepted { self.new
            ≡ read_begun op accepted (reading_asked (progress_of machine.entry).asks) self.old }
        ensures due { due.new ≡ bad_if_closed op self.old due.old }
    {
        if self.closed {
            due.push_reserved(bad(op));
            return;
        }
        self.reads.push_back_reserved(PendingOp {
            op,
            accepted,
            machine,
        });
    }

    /// A write likewise.
    pub(crate) fn accept_write(
        &mut self,
        op: OpNo,
        accepted: u32,
        machine: Machine<'a>,
        due: &mut DueList,
    )
        requires fresh { progress_of machine ≡ new_progress (progress_of machine).asks }
        requires writes { AsksToWrite (progress_of machine).asks }
        requires under_way { IsUnderWay (progress_of machine) }
        requires room { length self.old.writes < self.old.writes_room }
        requires spare { 0 < due.old.spare }
        ensures accepted { self.new
            ≡ write_begun op accepted (writing_asked (progress_of machine.entry).asks) self.old }
        ensures due { due.new ≡ bad_if_closed op self.old due.old }
    {
        if self.closed {
            due.push_reserved(bad(op));
            return;
        }
        self.writes.push_back_reserved(PendingOp {
            op,
            accepted,
            machine,
        });
    }

    /// One operation is cancelled, if it is pending here, and reports the bytes that it moved so
    /// far (`cancellation_signal::emit`). Costs the length of its queue.
    pub(crate) fn cancel(&mut self, op: OpNo, due: &mut DueList)
        requires { pending_on self.old ≤ due.old.spare }
        ensures cancelled { self.new ≡ without_op op self.old }
        ensures due { due.new ≡ listed (aborts_of_op op self.old) due.old }
    {
        abort_in(op, &mut self.reads, due);
        abort_in(op, &mut self.writes, due);
    }

    /// All its operations are cancelled in order of acceptance, and its held bytes are dropped
    /// (`basic_stream_socket::close`).
    pub(crate) fn close(&mut self, due: &mut DueList)
        requires { pending_on self.old ≤ due.old.spare }
        ensures closed { self.new ≡ closed_view self.old }
        ensures due { due.new ≡ listed (all_of_stream self.old.reads self.old.writes) due.old }
    {
        self.closed = true;
        self.held.clear();
        abort_all(&mut self.reads, &mut self.writes, due);
    }

    /// How many operations are pending here.
    pub(crate) fn pending(&self) -> u32
        ensures { result ≡ within_32_bits (pending_on self.now) }
    {
        in_32_bits(self.reads.len()).saturating_add(in_32_bits(self.writes.len()))
    }

    /// Whether it was closed.
    pub(crate) fn is_closed(&self) -> bool
        ensures { result ≡ self.now.closed }
    {
        self.closed
    }

    /// What stays in its queues has something left to move. A law: it runs nothing.
    pub(crate) fn stays_under_way(&self)
        ensures { AreUnderWay (queues_in self.now) }
    {
        let _ = &self.closed;
    }

    /// Serves its reads from the head, and then its writes, and lists what completed. Costs the
    /// bytes that it moves and the operations that complete.
    pub(crate) fn serve<X: Reactor>(
        &mut self,
        buffer: &mut [u8],
        stream: StreamNo,
        reactor: &mut X,
        due: &mut DueList,
    ) -> Result<(), Failed>
        requires servable { self.old.closed ≡ false →
            IsServable (X.state reactor.old) (X.told reactor.old) stream }
        requires buffer { self.old.room ≤ length buffer.old }
        requires spare { pending_on self.old ≤ due.old.spare }
        ensures keeps { X.state reactor.new ≡ X.state reactor.old }
        ensures counts { CountsFaults result (X.faults reactor.old) (X.faults reactor.new) }
        ensures later { X.faults reactor.old ≤ X.faults reactor.new }
        ensures tells { tells (X.told reactor.new) ≡ tells (X.told reactor.old) }
        ensures told { OnOk result (ChangesOne stream (X.told reactor.old) (X.told reactor.new)) }
        ensures same { self.new
            ≡ record self.old
            { held = self.new.held; reads = self.new.reads; writes = self.new.writes } }
        ensures gives { OnOk result (StreamGives self.old self.new due.old due.new) }
        ensures served { OnOk result (IfSome (X.told reactor.old) (λ _.
            IsStreamServed self.old self.new
            (whole_told self.old.held (X.told reactor.old) stream)
            (whole_told self.new.held (X.told reactor.new) stream) due.old due.new)) }
        ensures reads_after_last { IsTrue (X.state reactor.old).last →
            OnOk result (self.new.reads ≡ []) }
        ensures writes_after_last { IsTrue (X.state reactor.old).last →
            OnOk result (self.new.writes ≡ []) }
    {
        if self.closed {
            return Ok(());
        }
        let room = self.held.room() as usize;
        let piece = &mut buffer[..room];
        serve_reads(&mut self.reads, &mut self.held, piece, stream, reactor, due)?;
        serve_writes(&mut self.writes, stream, reactor, due)?;
        Ok(())
    }
}
