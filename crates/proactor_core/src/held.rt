ghost use Rattle.std.specs.Prelude.{◌≡◌, ◌+◌, ◌≤◌, IfOk, drop, length, vec_capacity, vec_len};
ghost use Rattle.proactor_core.specs.Held.{held_less, held_more, none_held};

use asio_types::NoMemory;
use std::alloc::Global;
use std::marker::Model;

/// The bytes of a stream that were read from the reactor and not consumed, as a read until a
/// delimiter leaves them. Contracts see these, and how many there may be at once. No call but
/// `with_room` takes memory; a byte is moved at most once for each byte that is consumed.
#[derive(Drop)]
pub(crate) struct HeldBytes {
    /// The bytes that were consumed, and then those that are held.
    bytes: Vec<u8>,
    /// How many were consumed.
    consumed: usize,
    /// How many may be held at once.
    room: usize,
}

impl Model for HeldBytes {
    ghost use Rattle.std.specs.Prelude.{◌+◌, ◌≤◌, ◌^◌, ◌<◌, drop, vec_capacity, vec_len};
    ghost use Rattle.proactor_core.specs.Held.{HeldBytes};

    ghost Value = { HeldBytes };

    ghost view = { λ h. record { bytes = drop h.consumed h.bytes.items; room = h.room } };

    ghost invariant = { λ h. record {
      within : h.consumed ≤ vec_len h.bytes;
      fit : vec_len h.bytes ≤ h.consumed + h.room;
      reserved : h.room + h.room ≤ vec_capacity h.bytes;
      few : h.room < 2 ^ 32;
    } };
}

/// Moves the bytes from this place on to the front.
fn drop_front(bytes: &mut Vec<u8>, count: usize)
    requires { count ≤ vec_len bytes.old }
    ensures items { bytes.new.items ≡ drop count bytes.old.items }
    ensures length { vec_len bytes.new + count ≡ vec_len bytes.old }
    ensures room { vec_capacity bytes.new ≡ vec_capacity bytes.old }
{
    let end = bytes.len();
    bytes.as_mut_slice().copy_within(count..end, 0);
    bytes.truncate(end - count);
}

impl HeldBytes {
    /// None is held, with room for so many. Takes memory for twice as many; `NoMemory` where it is
    /// refused.
    pub(crate) fn with_room(alloc: Global, room: u32) -> Result<HeldBytes, NoMemory>
        ensures { IfOk result (λ held. held ≡ none_held room) }
    {
        let room = room as usize;
        let bytes = Vec::with_capacity(alloc, room + room)?;
        Ok(HeldBytes {
            bytes,
            consumed: 0,
            room,
        })
    }

    /// How many may be held at once.
    pub(crate) fn room(&self) -> u32
        ensures { result ≡ self.now.room }
    {
        self.room as u32
    }

    /// The bytes that are held.
    pub(crate) fn as_slice(&self) -> &[u8]
        ensures value { result.now ≡ self.now.bytes }
        ensures few { length self.now.bytes ≤ self.now.room }
    {
        &self.bytes[self.consumed..]
    }

    /// How many are held.
    pub(crate) fn len(&self) -> u32
        ensures { result ≡ length self.now.bytes }
    {
        (self.bytes.len() - self.consumed) as u32
    }

    /// The first of them are consumed. Copies nothing.
    pub(crate) fn consume(&mut self, count: usize)
        requires { count ≤ length self.old.bytes }
        ensures { self.new ≡ held_less count self.old }
    {
        self.consumed += count;
    }

    /// These bytes came behind them.
    pub(crate) fn append(&mut self, piece: &[u8])
        requires { length self.old.bytes + length piece.now ≤ self.old.room }
        ensures { self.new ≡ held_more piece.now self.old }
    {
        if self.bytes.len() + piece.len() > self.room + self.room {
            drop_front(&mut self.bytes, self.consumed);
            self.consumed = 0;
        }
        let Ok(()) = self.bytes.extend_from_slice(piece) else {
            unreachable!()
        };
    }

    /// All of them are dropped.
    pub(crate) fn clear(&mut self)
        ensures { self.new ≡ none_held self.old.room }
    {
        self.bytes.clear();
        self.consumed = 0;
    }
}
