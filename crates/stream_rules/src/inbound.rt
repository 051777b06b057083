ghost use Rattle.std.specs.Prelude.{◌≡◌, ◌<◌, ◌≤◌, ◌-◌, ◌++◌, [], None, IfOk, is_some, if◌then◌else◌, length, take, drop};
ghost use Rattle.std.specs.Option.{option_map};
ghost use Rattle.stream_rules.specs.Stream.{first_mark};
ghost use Rattle.stream_rules.specs.Moving.{moved_by, moved_count};
ghost use Rattle.stream_rules.specs.Serving.{ended_by, read_code, some_of};

use asio_types::{Moved, NoMemory, ReadMark};
use std::alloc::Global;
use std::marker::Model;

/// The reading side of a stream: what arrived and wasn't read, in reserved memory. Contracts see
/// that, the mark, and how many more bytes may arrive.
#[derive(Debug, Drop)]
pub struct Inbound {
    bytes: Vec<u8>,
    given: usize,
    mark: Option<ReadMark>,
    left: u32,
}

impl Model for Inbound {
    ghost use Rattle.std.specs.Prelude.{◌+◌, ◌<◌, ◌≤◌, ◌^◌, drop, vec_capacity, vec_len};
    ghost use Rattle.stream_rules.specs.Sides.{Arrivals};

    ghost Value = { Arrivals };

    ghost view = { λ s.
        record { arrived = drop s.given s.bytes.items; mark = s.mark; left = s.left } };

    ghost invariant = { λ s.
        (s.given ≤ vec_len s.bytes) × (vec_len s.bytes + s.left ≤ vec_capacity s.bytes)
        × (vec_len s.bytes + s.left < 2 ^ 32) };
}

fn moved_by_mark(mark: Option<ReadMark>) -> Moved
    ensures { result ≡ moved_by (ended_by (option_map read_code mark) 0) }
{
    match mark {
        None => Moved::NotYet,
        Some(ReadMark::Eof) => Moved::End,
        Some(ReadMark::Reset) => Moved::Reset,
    }
}

impl Inbound {
    /// Nothing arrived; so many bytes may.
    pub fn make(alloc: Global, left: u32) -> Result<Inbound, NoMemory>
        ensures { IfOk result (λ side. side ≡ record { arrived = []; mark = None; left = left }) }
    {
        Ok(Inbound {
            bytes: Vec::with_capacity(alloc, left as usize)?,
            given: 0,
            mark: None,
            left,
        })
    }

    /// These bytes arrive, unless the side has its mark. Copies just these.
    pub fn feed(&mut self, bytes: &[u8])
        requires { length bytes.now ≤ self.old.left }
        ensures arrived { self.new.arrived
            ≡ (if is_some self.old.mark then self.old.arrived else self.old.arrived ++ bytes.now) }
        ensures mark { self.new.mark ≡ self.old.mark }
        ensures left { self.new.left ≡ self.old.left - length bytes.now }
    {
        if self.mark.is_none() {
            let Ok(()) = self.bytes.extend_from_slice(bytes) else {
                unreachable!()
            };
        }
        self.left -= bytes.len() as u32;
    }

    /// The side gets this mark, unless it has one.
    pub fn set_mark(&mut self, mark: ReadMark)
        ensures arrived { self.new.arrived ≡ self.old.arrived }
        ensures mark { self.new.mark ≡ first_mark self.old.mark mark }
        ensures left { self.new.left ≡ self.old.left }
    {
        self.mark = self.mark.or(Some(mark));
    }

    /// The bytes there.
    pub fn there(&self) -> &[u8]
        ensures { result.now ≡ self.now.arrived }
    {
        &self.bytes[self.given..]
    }

    /// The mark, if the side has one.
    pub fn mark(&self) -> Option<ReadMark>
        ensures { result ≡ self.now.mark }
    {
        self.mark
    }

    /// So many of the bytes there are read. Copies nothing.
    pub fn consume(&mut self, count: usize)
        requires { count ≤ length self.old.arrived }
        ensures arrived { self.new.arrived ≡ drop count self.old.arrived }
        ensures mark { self.new.mark ≡ self.old.mark }
        ensures left { self.new.left ≡ self.old.left }
    {
        self.given += count;
    }

    /// Gives the next bytes, or says by the mark why none is there. Copies just what it gives.
    pub fn read(&mut self, buf: &mut [u8]) -> Moved
        requires { 0 < length buf.old }
        ensures answer { result
            ≡ moved_by
            (some_of (length buf.old) (length self.old.arrived)
            (option_map read_code self.old.mark)).outcome }
        ensures bytes { take (moved_count result) buf.new
            ≡ take (moved_count result) self.old.arrived }
        ensures arrived { self.new.arrived ≡ drop (moved_count result) self.old.arrived }
        ensures mark { self.new.mark ≡ self.old.mark }
        ensures left { self.new.left ≡ self.old.left }
    {
        let there = self.bytes.len() - self.given;
        if there == 0 {
            return moved_by_mark(self.mark);
        }
        let count = buf.len().min(there);
        buf[..count].copy_from_slice(&self.bytes[self.given..self.given + count]);
        self.given += count;
        Moved::Took(count as u32)
    }

    /// Drops the bytes there.
    pub fn close(&mut self)
        ensures arrived { self.new.arrived ≡ [] }
        ensures mark { self.new.mark ≡ self.old.mark }
        ensures left { self.new.left ≡ self.old.left }
    {
        self.bytes.clear();
        self.given = 0;
    }
}
