ghost use Rattle.std.specs.Prelude.{◌≡◌, ◌<◌, ◌≤◌, ◌+◌, ◌^◌, IfOk, IsNone, length, take};
ghost use Rattle.stream_rules.specs.Stream.{closed_stream, marked_last, new_stream, line_performed};
ghost use Rattle.stream_rules.specs.Asked.{reading_view, writing_view, IsCountable};
ghost use Rattle.stream_rules.specs.Moving.{moved_count, read_answer, write_answer};
ghost use Rattle.stream_rules.specs.Pipes.{fed, roomed, pipe_stream, IsMarked};
ghost use Rattle.stream_rules.specs.Queue.{reading_side, writing_side};
ghost use Rattle.stream_rules.specs.Serving.{Some_of, after_reading, after_writing};

use crate::inbound::Inbound;
use crate::outbound::Outbound;
use crate::serving::{Reading, Served, Writing, bytes_of, served_read, served_write};
use asio_types::{Moved, NoMemory, ReadMark, What, WriteMark};
use std::alloc::Global;

/// A stream in reserved memory.
#[derive(Debug, Drop)]
pub struct Pipe {
    pub inbound: Inbound,
    pub outbound: Outbound,
}

impl Pipe {
    /// A new stream, with memory for so many bytes and so much room.
    pub fn make(alloc: Global, bytes: u32, room: u32) -> Result<Pipe, NoMemory>
        ensures stream { IfOk result (λ pipe. pipe_stream pipe ≡ new_stream) }
        ensures bytes_left { IfOk result (λ pipe. pipe.inbound.left ≡ bytes) }
        ensures room_left { IfOk result (λ pipe. pipe.outbound.left ≡ room) }
    {
        Ok(Pipe {
            inbound: Inbound::make(alloc, bytes)?,
            outbound: Outbound::make(alloc, room)?,
        })
    }

    /// What a world line does.
    pub fn perform(&mut self, what: &What)
        requires bytes { fed what.now ≤ self.old.inbound.left }
        requires room { roomed what.now ≤ self.old.outbound.left }
        ensures stream { pipe_stream self.new ≡ line_performed what.now (pipe_stream self.old) }
        ensures marked { IsMarked self.old → IsMarked self.new }
        ensures bytes_left { self.new.inbound.left + fed what.now ≡ self.old.inbound.left }
        ensures room_left { self.new.outbound.left + roomed what.now ≡ self.old.outbound.left }
    {
        match what {
            What::Feed(bytes) => self.inbound.feed(bytes.as_slice()),
            What::End => self.inbound.set_mark(ReadMark::Eof),
            What::Reset => {
                self.inbound.set_mark(ReadMark::Reset);
                self.outbound.set_mark(WriteMark::Reset);
            }
            What::Room(count) => self.outbound.add_room(*count),
        }
    }

    /// No further time point exists.
    pub fn mark_last(&mut self)
        ensures stream { pipe_stream self.new ≡ marked_last (pipe_stream self.old) }
        ensures marked { IsMarked self.new }
        ensures bytes_left { self.new.inbound.left ≡ self.old.inbound.left }
        ensures room_left { self.new.outbound.left ≡ self.old.outbound.left }
    {
        self.inbound.set_mark(ReadMark::Eof);
        self.outbound.set_mark(WriteMark::Broken);
    }

    /// What a reading operation that got `moved` bytes before gives on this stream; it consumes
    /// what it used. Costs as `served_read` does.
    pub fn serve_read(&mut self, reading: Reading, moved: u32) -> Served
        ensures served { result
            ≡ reading_side.served (reading_view reading.entry) moved (pipe_stream self.old) }
        ensures stream { pipe_stream self.new
            ≡ reading_side.after (reading_view reading.entry) moved result.used
            (pipe_stream self.old) }
        ensures countable { IsNone result.outcome → moved + result.used < 2 ^ 32 }
        ensures bytes_left { self.new.inbound.left ≡ self.old.inbound.left }
        ensures room_left { self.new.outbound.left ≡ self.old.outbound.left }
    {
        let served = served_read(reading, moved, self.inbound.there(), self.inbound.mark());
        self.inbound.consume(served.used as usize);
        served
    }

    /// What a writing operation of which `moved` bytes were taken before gives on this stream; the
    /// bytes for which there was room are sent. Copies just these.
    pub fn serve_write(&mut self, writing: Writing, moved: u32) -> Served
        requires { IsCountable (writing_view writing) }
        ensures served { result
            ≡ writing_side.served (writing_view writing.entry) moved (pipe_stream self.old) }
        ensures stream { pipe_stream self.new
            ≡ writing_side.after (writing_view writing.entry) moved result.used
            (pipe_stream self.old) }
        ensures countable { IsNone result.outcome → moved + result.used < 2 ^ 32 }
        ensures bytes_left { self.new.inbound.left ≡ self.old.inbound.left }
        ensures room_left { self.new.outbound.left ≡ self.old.outbound.left }
    {
        let served = served_write(writing, moved, self.outbound.room(), self.outbound.mark());
        let bytes = bytes_of(writing);
        let left = &bytes[bytes.len().min(moved as usize)..];
        let sent = &left[..left.len().min(served.used as usize)];
        self.outbound.send(sent, served.used);
        served
    }

    /// Gives the next bytes, or says by the mark why none is there. Copies just what it gives.
    pub fn read(&mut self, buf: &mut [u8]) -> Moved
        requires { 0 < length buf.old }
        ensures answer { result ≡ read_answer (length buf.old) (pipe_stream self.old) }
        ensures bytes { take (moved_count result) buf.new
            ≡ take (moved_count result) self.old.inbound.arrived }
        ensures stream { pipe_stream self.new
            ≡ after_reading (moved_count result) (pipe_stream self.old) }
        ensures bytes_left { self.new.inbound.left ≡ self.old.inbound.left }
        ensures room_left { self.new.outbound.left ≡ self.old.outbound.left }
    {
        self.inbound.read(buf)
    }

    /// Takes the first bytes, as many as there is room for, or says by the mark why there is none.
    /// Copies just these.
    pub fn write(&mut self, bytes: &[u8]) -> Moved
        requires { 0 < length bytes.now }
        ensures answer { result ≡ write_answer bytes.now (pipe_stream self.old) }
        ensures stream { pipe_stream self.new
            ≡ after_writing (Some_of bytes.now) 0 (moved_count result) (pipe_stream self.old) }
        ensures bytes_left { self.new.inbound.left ≡ self.old.inbound.left }
        ensures room_left { self.new.outbound.left ≡ self.old.outbound.left }
    {
        self.outbound.write(bytes)
    }

    /// Drops the bytes there and the room.
    pub fn close(&mut self)
        ensures stream { pipe_stream self.new ≡ closed_stream (pipe_stream self.old) }
        ensures bytes_left { self.new.inbound.left ≡ self.old.inbound.left }
        ensures room_left { self.new.outbound.left ≡ self.old.outbound.left }
    {
        self.inbound.close();
        self.outbound.close();
    }
}
