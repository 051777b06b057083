ghost use Rattle.std.specs.Prelude.{◌≡◌, ℕ, ◌≤◌, List, length, take, drop, min, IfOk};

use crate::failure::NoMemory;
use std::alloc::Global;
use std::marker::Model;

/// Bytes in memory of which a front was read. Contracts see what is left.
#[derive(Debug, Drop)]
pub(crate) struct Unread {
    bytes: Vec<u8>,
    // how many were read
    at: usize,
}

impl Model for Unread {
    ghost Value = { List ℕ };

    ghost view = { λ u. drop u.at u.bytes.items };

    ghost invariant = { λ u. u.at ≤ length u.bytes.items };
}

impl Unread {
    /// A copy of these bytes, of which nothing was read.
    pub(crate) fn make(alloc: Global, bytes: &[u8]) -> Result<Unread, NoMemory>
        ensures { IfOk result (λ left. left ≡ bytes.now) }
    {
        Ok(Unread {
            bytes: Vec::from_slice(alloc, bytes)?,
            at: 0,
        })
    }

    /// Gives the next bytes, as many as the buffer takes, but at most `most`. Behind them the
    /// buffer stays as it was.
    pub(crate) fn give(&mut self, buf: &mut [u8], most: usize) -> usize
        ensures count { result ≡ min most (min (length buf.old) (length self.old)) }
        ensures given { take result buf.new ≡ take result self.old }
        ensures behind { drop result buf.new ≡ drop result buf.old }
        ensures rest { self.new ≡ drop result self.old }
    {
        let n = most.min(buf.len().min(self.bytes.len() - self.at));
        buf[..n].copy_from_slice(&self.bytes[self.at..self.at + n]);
        self.at += n;
        n
    }
}
