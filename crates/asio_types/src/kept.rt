ghost use Rattle.std.specs.Prelude.{◌≡◌, ◌-◌, ◌≤◌, [], ◌++◌, length, take, min, IfOk};

use crate::failure::NoMemory;
use std::alloc::Global;
use std::marker::Model;

/// Bytes that were written into reserved memory, and the room that is left for more.
#[derive(Debug, Drop)]
pub(crate) struct Kept {
    bytes: Vec<u8>,
    // how many more may be written
    room: usize,
}

impl Model for Kept {
    ghost use Rattle.std.specs.Prelude.{◌+◌, ◌≤◌, vec_len, vec_capacity};
    ghost use Rattle.asio_types.specs.Sink.{Holding};

    ghost Value = { Holding };

    ghost view = { λ k. record { bytes = k.bytes.items; room = k.room } };

    ghost invariant = { λ k. vec_len k.bytes + k.room ≤ vec_capacity k.bytes };
}

impl Kept {
    /// Nothing, with room for so many bytes.
    pub(crate) fn make(alloc: Global, room: u32) -> Result<Kept, NoMemory>
        ensures { IfOk result (λ kept. kept ≡ record { bytes = []; room = room }) }
    {
        let room = room as usize;
        Ok(Kept {
            bytes: Vec::with_capacity(alloc, room)?,
            room,
        })
    }

    /// The bytes.
    pub(crate) fn as_slice(&self) -> &[u8]
        ensures { result.now ≡ self.now.bytes }
    {
        self.bytes.as_slice()
    }

    /// The room that is left.
    pub(crate) fn room(&self) -> usize
        ensures { result ≡ self.now.room }
    {
        self.room
    }

    /// Appends the first bytes, as many as there is room for, but at most `most`. Takes no memory.
    pub(crate) fn append(&mut self, bytes: &[u8], most: usize) -> usize
        ensures count { result ≡ min most (min (length bytes.now) self.old.room) }
        ensures appended { self.new.bytes ≡ self.old.bytes ++ take result bytes.now }
        ensures room { self.new.room ≡ self.old.room - result }
    {
        let n = most.min(bytes.len().min(self.room));
        let Ok(()) = self.bytes.extend_from_slice(&bytes[..n]) else {
            unreachable!()
        };
        self.room -= n;
        n
    }
}
