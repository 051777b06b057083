ghost use Rattle.std.specs.Prelude.{◌≡◌, ◌<◌, ◌≤◌, ◌+◌, ◌-◌, ◌++◌, [], None, IfOk, is_some, if◌then◌else◌, length, take};
ghost use Rattle.std.specs.Option.{option_map};
ghost use Rattle.stream_rules.specs.Stream.{first_mark};
ghost use Rattle.stream_rules.specs.Moving.{moved_by, moved_count};
ghost use Rattle.stream_rules.specs.Serving.{ended_by, some_of, write_code};

use asio_types::{Moved, NoMemory, WriteMark};
use std::alloc::Global;
use std::marker::Model;

/// The writing side of a stream: what was sent, in reserved memory. Contracts see that, the room,
/// the mark, and how much more room may come.
#[derive(Debug, Drop)]
pub struct Outbound {
    sent: Vec<u8>,
    room: u32,
    mark: Option<WriteMark>,
    left: u32,
}

impl Model for Outbound {
    ghost use Rattle.std.specs.Prelude.{◌+◌, ◌<◌, ◌≤◌, ◌^◌, vec_capacity, vec_len};
    ghost use Rattle.stream_rules.specs.Sides.{Departures};

    ghost Value = { Departures };

    ghost view = { λ s.
        record { sent = s.sent.items; room = s.room; mark = s.mark; left = s.left } };

    ghost invariant = { λ s.
        (vec_len s.sent + s.room + s.left ≤ vec_capacity s.sent)
        × (vec_len s.sent + s.room + s.left < 2 ^ 32) };
}

fn moved_by_mark(mark: Option<WriteMark>) -> Moved
    ensures { result ≡ moved_by (ended_by (option_map write_code mark) 0) }
{
    match mark {
        None => Moved::NotYet,
        Some(WriteMark::Broken) => Moved::End,
        Some(WriteMark::Reset) => Moved::Reset,
    }
}

impl Outbound {
    /// Nothing was sent and there is no room; so much may come.
    pub fn make(alloc: Global, left: u32) -> Result<Outbound, NoMemory>
        ensures { IfOk result
            (λ side. side ≡ record { sent = []; room = 0; mark = None; left = left }) }
    {
        Ok(Outbound {
            sent: Vec::with_capacity(alloc, left as usize)?,
            room: 0,
            mark: None,
            left,
        })
    }

    /// So much more room comes, unless the side has its mark.
    pub fn add_room(&mut self, count: u32)
        requires { count ≤ self.old.left }
        ensures sent { self.new.sent ≡ self.old.sent }
        ensures room { self.new.room
            ≡ (if is_some self.old.mark then self.old.room else self.old.room + count) }
        ensures mark { self.new.mark ≡ self.old.mark }
        ensures left { self.new.left ≡ self.old.left - count }
    {
        if self.mark.is_none() {
            self.room += count;
        }
        self.left -= count;
    }

    /// The side gets this mark, unless it has one.
    pub fn set_mark(&mut self, mark: WriteMark)
        ensures sent { self.new.sent ≡ self.old.sent }
        ensures room { self.new.room ≡ self.old.room }
        ensures mark { self.new.mark ≡ first_mark self.old.mark mark }
        ensures left { self.new.left ≡ self.old.left }
    {
        self.mark = self.mark.or(Some(mark));
    }

    /// The room there.
    pub fn room(&self) -> u32
        ensures { result ≡ self.now.room }
    {
        self.room
    }

    /// The mark, if the side has one.
    pub fn mark(&self) -> Option<WriteMark>
        ensures { result ≡ self.now.mark }
    {
        self.mark
    }

    /// These bytes are sent, and so much room is used. Copies just these.
    pub fn send(&mut self, bytes: &[u8], used: u32)
        requires within { length bytes.now ≤ used }
        requires there { used ≤ self.old.room }
        ensures sent { self.new.sent ≡ self.old.sent ++ bytes.now }
        ensures room { self.new.room ≡ self.old.room - used }
        ensures mark { self.new.mark ≡ self.old.mark }
        ensures left { self.new.left ≡ self.old.left }
    {
        let Ok(()) = self.sent.extend_from_slice(bytes) else {
            unreachable!()
        };
        self.room -= used;
    }

    /// Takes the first bytes, as many as there is room for, or says by the mark why there is none.
    /// Copies just these.
    pub fn write(&mut self, bytes: &[u8]) -> Moved
        requires { 0 < length bytes.now }
        ensures answer { result
            ≡ moved_by
            (some_of (length bytes.now) self.old.room
            (option_map write_code self.old.mark)).outcome }
        ensures sent { self.new.sent ≡ self.old.sent ++ take (moved_count result) bytes.now }
        ensures room { self.new.room ≡ self.old.room - moved_count result }
        ensures mark { self.new.mark ≡ self.old.mark }
        ensures left { self.new.left ≡ self.old.left }
    {
        if self.room == 0 {
            return moved_by_mark(self.mark);
        }
        let count = bytes.len().min(self.room as usize);
        self.send(&bytes[..count], count as u32);
        Moved::Took(count as u32)
    }

    /// Drops the room.
    pub fn close(&mut self)
        ensures sent { self.new.sent ≡ self.old.sent }
        ensures room { self.new.room ≡ 0 }
        ensures mark { self.new.mark ≡ self.old.mark }
        ensures left { self.new.left ≡ self.old.left }
    {
        self.room = 0;
    }

    /// What was sent.
    pub fn sent(&self) -> &[u8]
        ensures { result.now ≡ self.now.sent }
    {
        self.sent.as_slice()
    }
}
