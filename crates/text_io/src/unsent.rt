ghost use Rattle.std.specs.Prelude.{◌≡◌, ◌≤◌, ◌↔◌, [], drop, length, if◌then◌else◌, IfOk, IsTrue};
ghost use Rattle.asio_types.specs.Sink.{holding_more};

use asio_types::NoMemory;
use std::alloc::Global;
use std::marker::Model;

/// Bytes in reserved memory that are on their way out, in order. Contracts see those that aren't
/// out, and the room behind them.
#[derive(Drop)]
pub(crate) struct Unsent {
    bytes: Vec<u8>,
    // how many of the first are out
    sent: usize,
    // how many there may be
    most: usize,
}

impl Model for Unsent {
    ghost use Rattle.std.specs.Prelude.{◌≤◌, ◌-◌, drop, length, vec_capacity, vec_len};
    ghost use Rattle.asio_types.specs.Sink.{Holding};

    ghost Value = { Holding };

    ghost view = { λ u. record {
      bytes = drop u.sent u.bytes.items;
      room = u.most - vec_len u.bytes;
    } };

    ghost invariant = { λ u. (u.sent ≤ length u.bytes.items) × (vec_len u.bytes ≤ u.most)
        × (u.most ≤ vec_capacity u.bytes) };
}

impl Unsent {
    /// None, with room for so many.
    pub(crate) fn make(alloc: Global, room: usize) -> Result<Unsent, NoMemory>
        ensures { IfOk result (λ unsent. unsent ≡ record { bytes = []; room = room }) }
    {
        Ok(Unsent {
            bytes: Vec::with_capacity(alloc, room)?,
            sent: 0,
            most: room,
        })
    }

    /// The bytes that aren't out.
    pub(crate) fn as_slice(&self) -> &[u8]
        ensures { result.now ≡ self.now.bytes }
    {
        &self.bytes.as_slice()[self.sent..]
    }

    /// Holds these bytes behind the others, where there is room for them all, and else none. Takes
    /// no memory.
    pub(crate) fn hold(&mut self, bytes: &[u8]) -> bool
        ensures fits { IsTrue result ↔ (length bytes.now ≤ self.old.room) }
        ensures held { self.new ≡ (if result then holding_more bytes.now self.old else self.old) }
    {
        if bytes.len() > self.most - self.bytes.len() {
            return false;
        }
        let Ok(()) = self.bytes.extend_from_slice(bytes) else {
            unreachable!()
        };
        true
    }

    /// So many of the first are out. Where that is all, there is room for as many as at first.
    pub(crate) fn let_go(&mut self, count: usize)
        requires { count ≤ length self.old.bytes }
        ensures bytes { self.new.bytes ≡ drop count self.old.bytes }
        ensures room { self.old.room ≤ self.new.room }
    {
        self.sent += count;
        if self.sent == self.bytes.len() {
            self.bytes.clear();
            self.sent = 0;
        }
    }
}
