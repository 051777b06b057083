ghost use Rattle.std.specs.Prelude.{◌≡◌, ◌<◌, ◌≤◌, ℕ, [], false, length, slice_index_or, vec_len, Some, IfOk, IfSome, IsTrue, OnOk};
ghost use Rattle.asio_types.specs.Faults.{CountsFaults};
ghost use Rattle.composed_ops.specs.StreamOperation.{most_moved};
ghost use Rattle.composed_ops.specs.Machine.{progress_of};
ghost use Rattle.composed_ops.specs.Progress.{new_progress, IsUnderWay};
ghost use Rattle.history_rules.specs.Performing.{all_of_stream};
ghost use Rattle.session_script.specs.Script.{act_of};
ghost use Rattle.session_script.specs.declared.act.Act.{Act as act};
ghost use Rattle.proactor_core.specs.Counts.{within_32_bits};
ghost use Rattle.proactor_core.specs.Due.{listed};
ghost use Rattle.proactor_core.specs.Pending.{reading_asked, writing_asked};
ghost use Rattle.proactor_core.specs.Reactor.{tells, whole_told, ChangesOne, IsServable};
ghost use Rattle.proactor_core.specs.Reading.{AsksToRead};
ghost use Rattle.proactor_core.specs.Rooms.{acts_below};
ghost use Rattle.proactor_core.specs.StreamRooms.{is_on_side, bytes_asked_at};
ghost use Rattle.proactor_core.specs.Streams.{aborts_of_op, bad_if_closed, closed_view, closes_state, closes_told, new_stream_view, pending_on, pending_in_all, queues_in, read_begun, stream_in, with_stream_in, without_op, write_begun, AreServable, AreServedBelow, IsStreamServed, StreamGives};
ghost use Rattle.proactor_core.specs.Untold.{AreUnderWay};
ghost use Rattle.proactor_core.specs.Writing.{AsksToWrite};

use crate::due::DueList;
use crate::stream_rooms::{StreamSide, operation_counts, read_sizes};
use crate::stream_work::StreamWork;
use asio_types::{Failed, NoMemory, OpNo, StreamNo};
use composed_ops::Machine;
use reactor_trait::Reactor;
use session_script::Script;
use std::alloc::Global;
use std::marker::Model;

/// The streams of a proactor. Contracts see each as `StreamWork` is seen. No call takes memory.
#[derive(Drop)]
pub(crate) struct Streams<'a> {
    streams: Vec<StreamWork<'a>>,
    /// Where a call of the reactor puts what it reads.
    buffer: Vec<u8>,
}

impl<'a> Model for Streams<'a> {
    ghost use Rattle.std.specs.Prelude.{◌≤◌, All, List, vec_len};
    ghost use Rattle.proactor_core.specs.Streams.{StreamView};

    ghost Value = { List StreamView };

    ghost view = { λ s. s.streams.items };

    ghost invariant = { λ s. All (λ view. view.room ≤ vec_len s.buffer) s.streams.items };
}

/// The greatest of some sizes.
fn greatest(sizes: &[u32]) -> u32
    ensures { (stream : ℕ) → stream < length sizes.now →
        slice_index_or sizes.now stream 0 ≤ result }
{
    let mut most = 0u32;
    for size in sizes {
        most = most.max(*size);
    }
    most
}

/// A buffer of so many bytes.
fn buffer_of(alloc: Global, size: u32) -> Result<Vec<u8>, NoMemory>
    ensures { IfOk result (λ buffer. vec_len buffer ≡ size) }
{
    Ok(vec![in alloc; 0u8; size as usize]?)
}

/// Open streams without operations, with room for so many reads and writes, and for reads of at
/// most so many bytes.
fn open_streams<'a>(
    alloc: Global,
    sizes: &[u32],
    reads: &[u32],
    writes: &[u32],
) -> Result<Vec<StreamWork<'a>>, NoMemory>
    requires reads { length reads.now ≡ length sizes.now }
    requires writes { length writes.now ≡ length sizes.now }
    ensures count { IfOk result (λ made. length made.items ≡ length sizes.now) }
    ensures each { IfOk result (λ made.
        (stream : ℕ) → stream < length sizes.now →
        stream_in made.items stream
        ≡ new_stream_view (slice_index_or sizes.now stream 0)
        (slice_index_or reads.now stream 0) (slice_index_or writes.now stream 0)) }
{
    let mut made = Vec::with_capacity(alloc, sizes.len())?;
    for stream in 0..sizes.len() {
        made.push(StreamWork::make(alloc, sizes[stream], reads[stream], writes[stream])?)?;
    }
    Ok(made)
}

impl<'a> Streams<'a> {
    /// The streams of a script before anything was taken. Takes memory for each operation of a
    /// stream once, and for the greatest read of each stream; `NoMemory` where it is refused.
    pub(crate) fn make(alloc: Global, script: &Script) -> Result<Streams<'a>, NoMemory>
        ensures count { IfOk result (λ made. length made ≡ script.now.world.streams) }
        ensures open { IfOk result (λ made.
            (stream : ℕ) → stream < script.now.world.streams → let view =
            stream_in made stream in view
            ≡ new_stream_view view.room view.reads_room view.writes_room) }
        ensures rooms { IfOk result (λ made.
            (n stream : ℕ) (act : act) → stream < script.now.world.streams →
            act_of script.now n ≡ Some act →
            bytes_asked_at stream act ≤ (stream_in made stream).room) }
        ensures reads { IfOk result (λ made.
            (stream : ℕ) → stream < script.now.world.streams →
            (stream_in made stream).reads_room
            ≡ acts_below (is_on_side StreamSide.Reads stream) script.now (length script.now.acts)) }
        ensures writes { IfOk result (λ made.
            (stream : ℕ) → stream < script.now.world.streams →
            (stream_in made stream).writes_room
            ≡ acts_below (is_on_side StreamSide.Writes stream) script.now
            (length script.now.acts)) }
    {
        let sizes = read_sizes(alloc, script)?;
        let reads = operation_counts(alloc, StreamSide::Reads, script)?;
        let writes = operation_counts(alloc, StreamSide::Writes, script)?;
        Streams::with_rooms(alloc, sizes.as_slice(), reads.as_slice(), writes.as_slice())
    }

    /// The same, with room for so many reads and writes of each stream, and for reads of at most so
    /// many bytes.
    pub(crate) fn with_rooms(
        alloc: Global,
        sizes: &[u32],
        reads: &[u32],
        writes: &[u32],
    ) -> Result<Streams<'a>, NoMemory>
        requires reads { length reads.now ≡ length sizes.now }
        requires writes { length writes.now ≡ length sizes.now }
        ensures count { IfOk result (λ made. length made ≡ length sizes.now) }
        ensures each { IfOk result (λ made.
            (stream : ℕ) → stream < length sizes.now →
            stream_in made stream
            ≡ new_stream_view (slice_index_or sizes.now stream 0)
            (slice_index_or reads.now stream 0) (slice_index_or writes.now stream 0)) }
    {
        let buffer = buffer_of(alloc, greatest(sizes))?;
        let streams = open_streams(alloc, sizes, reads, writes)?;
        Ok(Streams { streams, buffer })
    }

    /// How many operations are pending on all streams. Costs the number of streams.
    pub(crate) fn pending(&self) -> u32
        ensures { result ≡ within_32_bits (pending_in_all self.now) }
    {
        let mut pending = 0u32;
        for stream in 0..self.streams.len() {
            pending = pending.saturating_add(self.streams[stream].pending());
        }
        pending
    }

    /// Whether a stream was closed.
    pub(crate) fn is_closed(&self, stream: StreamNo) -> bool
        requires { stream < length self.now }
        ensures { result ≡ (stream_in self.now stream).closed }
    {
        self.streams[stream as usize].is_closed()
    }

    /// A read of a stream is pending (`async_read_some`, `async_read`, `async_read_until`), unless
    /// the stream is closed: then it completes at once.
    pub(crate) fn accept_read(
        &mut self,
        op: OpNo,
        stream: StreamNo,
        accepted: u32,
        machine: Machine<'a>,
        due: &mut DueList,
    )
        requires known { stream < length self.old }
        requires fresh { progress_of machine ≡ new_progress (progress_of machine).asks }
        requires reads { AsksToRead (progress_of machine).asks }
        requires under_way { IsUnderWay (progress_of machine) }
        requires holds { most_moved (progress_of machine).asks ≤ (stream_in self.old stream).room }
        requires room { length (stream_in self.old stream).reads
            < (stream_in self.old stream).reads_room }
        requires spare { 0 < due.old.spare }
        ensures accepted { self.new
            ≡ with_stream_in stream
            (read_begun op accepted (reading_asked (progress_of machine.entry).asks)) self.old }
        ensures due { due.new ≡ bad_if_closed op (stream_in self.old stream) due.old }
    {
        let work = &mut self.streams[stream as usize];
        work.accept_read(op, accepted, machine, due);
    }

    /// A write of a stream likewise (`async_write_some`, `async_write`).
    pub(crate) fn accept_write(
        &mut self,
        op: OpNo,
        stream: StreamNo,
        accepted: u32,
        machine: Machine<'a>,
        due: &mut DueList,
    )
        requires known { stream < length self.old }
        requires fresh { progress_of machine ≡ new_progress (progress_of machine).asks }
        requires writes { AsksToWrite (progress_of machine).asks }
        requires under_way { IsUnderWay (progress_of machine) }
        requires room { length (stream_in self.old stream).writes
            < (stream_in self.old stream).writes_room }
        requires spare { 0 < due.old.spare }
        ensures accepted { self.new
            ≡ with_stream_in stream
            (write_begun op accepted (writing_asked (progress_of machine.entry).asks)) self.old }
        ensures due { due.new ≡ bad_if_closed op (stream_in self.old stream) due.old }
    {
        let work = &mut self.streams[stream as usize];
        work.accept_write(op, accepted, machine, due);
    }

    /// An operation of a stream is cancelled, if it is pending, and reports the bytes that it moved
    /// so far. Costs the length of its queue.
    pub(crate) fn cancel(&mut self, op: OpNo, stream: StreamNo, due: &mut DueList)
        requires known { stream < length self.old }
        requires spare { pending_on (stream_in self.old stream) ≤ due.old.spare }
        ensures cancelled { self.new ≡ with_stream_in stream (without_op op) self.old }
        ensures due { due.new ≡ listed (aborts_of_op op (stream_in self.old stream)) due.old }
    {
        let work = &mut self.streams[stream as usize];
        work.cancel(op, due);
    }

    /// A stream is closed (`basic_stream_socket::close`): its operations are cancelled in order of
    /// acceptance, and its bytes there and its room are dropped. The reactor is told once.
    pub(crate) fn close<X: Reactor>(&mut self, stream: StreamNo, reactor: &mut X, due: &mut DueList)
        requires known { stream < length self.old }
        requires servable { (stream_in self.old stream).closed ≡ false →
            IsServable (X.state reactor.old) (X.told reactor.old) stream }
        requires spare { pending_on (stream_in self.old stream) ≤ due.old.spare }
        ensures closed { self.new ≡ with_stream_in stream closed_view self.old }
        ensures due { due.new
            ≡ listed
            (all_of_stream (stream_in self.old stream).reads (stream_in self.old stream).writes)
            due.old }
        ensures state { X.state reactor.new
            ≡ closes_state (stream_in self.old stream).closed stream (X.state reactor.old) }
        ensures told { X.told reactor.new
            ≡ closes_told (stream_in self.old stream).closed stream (X.told reactor.old) }
        ensures counts { X.faults reactor.new ≡ X.faults reactor.old }
    {
        let work = &mut self.streams[stream as usize];
        if !work.is_closed() {
            reactor.close(stream);
        }
        work.close(due);
    }

    /// Serves a stream: its reads from the head, as long as the head completes, and then its
    /// writes.
    pub(crate) fn serve<X: Reactor>(
        &mut self,
        stream: StreamNo,
        reactor: &mut X,
        due: &mut DueList,
    ) -> Result<(), Failed>
        requires known { stream < length self.old }
        requires servable { (stream_in self.old stream).closed ≡ false →
            IsServable (X.state reactor.old) (X.told reactor.old) stream }
        requires spare { pending_on (stream_in self.old stream) ≤ due.old.spare }
        ensures keeps { X.state reactor.new ≡ X.state reactor.old }
        ensures counts { CountsFaults result (X.faults reactor.old) (X.faults reactor.new) }
        ensures later { X.faults reactor.old ≤ X.faults reactor.new }
        ensures tells { tells (X.told reactor.new) ≡ tells (X.told reactor.old) }
        ensures told { OnOk result (ChangesOne stream (X.told reactor.old) (X.told reactor.new)) }
        ensures others { self.new ≡ with_stream_in stream (λ view. record view {
          held = (stream_in self.new stream).held;
          reads = (stream_in self.new stream).reads;
          writes = (stream_in self.new stream).writes;
        }) self.old }
        ensures gives { OnOk result
            (StreamGives (stream_in self.old stream) (stream_in self.new stream) due.old due.new) }
        ensures served { OnOk result (IfSome (X.told reactor.old) (λ _.
            IsStreamServed (stream_in self.old stream) (stream_in self.new stream)
            (whole_told (stream_in self.old stream).held (X.told reactor.old) stream)
            (whole_told (stream_in self.new stream).held (X.told reactor.new) stream) due.old
            due.new)) }
        ensures reads_after_last { IsTrue (X.state reactor.old).last →
            OnOk result ((stream_in self.new stream).reads ≡ []) }
        ensures writes_after_last { IsTrue (X.state reactor.old).last →
            OnOk result ((stream_in self.new stream).writes ≡ []) }
        ensures under_way { AreUnderWay (queues_in (stream_in self.new stream)) }
    {
        let work = &mut self.streams[stream as usize];
        let served = work.serve(self.buffer.as_mut_slice(), stream, reactor, due);
        work.stays_under_way();
        served
    }

    /// Serves all streams by rising number. Costs what each costs.
    pub(crate) fn serve_all<X: Reactor>(
        &mut self,
        reactor: &mut X,
        due: &mut DueList,
    ) -> Result<(), Failed>
        requires servable { AreServable self.old (X.state reactor.old) (X.told reactor.old) }
        requires few { length self.old < 256 }
        requires spare { pending_in_all self.old ≤ due.old.spare }
        ensures keeps { X.state reactor.new ≡ X.state reactor.old }
        ensures counts { CountsFaults result (X.faults reactor.old) (X.faults reactor.new) }
        ensures later { X.faults reactor.old ≤ X.faults reactor.new }
        ensures tells { tells (X.told reactor.new) ≡ tells (X.told reactor.old) }
        ensures served { OnOk result
            (AreServedBelow (X.state reactor.old).last (length self.old) self.old self.new
            (X.told reactor.old) (X.told reactor.new) due.old due.new) }
        ensures under_way { OnOk result
            ((n : ℕ) → n < length self.new → AreUnderWay (queues_in (stream_in self.new n))) }
    {
        for stream in 0..self.streams.len() {
            self.serve(stream as StreamNo, reactor, due)?;
        }
        Ok(())
    }
}
