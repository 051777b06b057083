ghost use Rattle.std.specs.Prelude.{◌≡◌, ◌≢◌, ◌+◌, ◌-◌, ◌<◌, ◌≤◌, ℕ, [], ◌↔◌, drop, length, take, slice_index, IfOk, IfSome, IfNone, IsFalse, IsTrue, OnErr};
ghost use Rattle.asio_types.specs.Faults.{CountsFaults};
ghost use Rattle.asio_types.specs.Source.{KeepsLeft};
ghost use Rattle.run_reader.specs.Buffer.{GivesMore, HasNoLineFeed, IsSought, KeepsText, Moves, most_held};

use asio_types::{Failed, NoMemory, Source};
use std::alloc::Global;
use std::marker::Model;

/// The most bytes that are held: a line and its line feed are no longer.
pub const MOST_HELD: usize = 65_536;

/// What came of reading on.
#[derive(Clone, Copy)]
pub(crate) enum More {
    /// More bytes are held.
    Bytes,
    /// The source has no more.
    End,
    /// No more can be held.
    Full,
}

/// Where the next line ends.
#[derive(Clone, Copy)]
pub(crate) enum Sought {
    /// At the line feed in this place.
    Line(usize),
    /// Nothing is held or left.
    End,
    /// Nothing is left, and what is held has no line feed.
    Partial,
    /// No more can be held, and what is held has no line feed.
    Full,
}

/// Bytes that were read. Contracts see those that aren't consumed, and the room behind them.
#[derive(Drop)]
pub(crate) struct Buffer {
    bytes: Vec<u8>,
    start: usize,
    end: usize,
}

impl Model for Buffer {
    ghost use Rattle.std.specs.Prelude.{◌≡◌, ◌≤◌, ◌-◌, take, drop, length};
    ghost use Rattle.run_reader.specs.Buffer.{Held, most_held};

    ghost Value = { Held };

    ghost view = { λ b. record {
      bytes = take (b.end - b.start) (drop b.start b.bytes.items);
      room = length b.bytes.items - b.end;
    } };

    ghost invariant = { λ b. (b.start ≤ b.end) × (b.end ≤ most_held)
        × (length b.bytes.items ≡ most_held) };
}

impl Buffer {
    /// Room for all that is held at most.
    pub(crate) fn make(alloc: Global) -> Result<Buffer, NoMemory>
        ensures { IfOk result (λ buffer. buffer.bytes ≡ []) }
    {
        Ok(Buffer {
            bytes: vec![in alloc; 0; MOST_HELD]?,
            start: 0,
            end: 0,
        })
    }

    /// The bytes.
    pub(crate) fn held(&self) -> &[u8]
        ensures value { result.now ≡ self.now.bytes }
        ensures most { length self.now.bytes + self.now.room ≤ most_held }
    {
        &self.bytes[self.start..self.end]
    }

    /// How many more may follow them where they lie.
    pub(crate) fn room(&self) -> usize
        ensures value { result ≡ self.now.room }
        ensures most { length self.now.bytes + self.now.room ≤ most_held }
    {
        MOST_HELD - self.end
    }

    /// Lets the first bytes go.
    pub(crate) fn consume(&mut self, count: usize)
        requires { count ≤ length self.old.bytes }
        ensures { self.new.bytes ≡ drop count self.old.bytes }
    {
        self.start += count;
    }

    /// Makes room behind the bytes, if there can be any: moves them to the front where none is left.
    fn make_room(&mut self) -> bool
        ensures same { self.new.bytes ≡ self.old.bytes }
        ensures room { IsTrue result ↔ (0 < self.new.room) }
        ensures full { IsFalse result → length self.new.bytes ≡ most_held }
        ensures most { length self.new.bytes + self.new.room ≤ most_held }
    {
        if self.room() > 0 {
            return true;
        }
        self.move_to_front();
        self.room() > 0
    }

    /// Moves the bytes to the front, so that all room is behind them.
    fn move_to_front(&mut self)
        ensures same { self.new.bytes ≡ self.old.bytes }
        ensures room { length self.new.bytes + self.new.room ≡ most_held }
    {
        self.bytes.copy_within(self.start..self.end, 0);
        self.end -= self.start;
        self.start = 0;
    }

    /// Reads the next bytes behind the others, and answers how many: none exactly at the end.
    pub(crate) fn fill<S: Source>(&mut self, source: &mut S) -> Result<usize, Failed>
        requires { 0 < self.old.room }
        ensures moves { IfOk result
            (λ n. Moves n self.old.bytes (S.left source.old) self.new.bytes (S.left source.new)) }
        ensures longer { IfOk result
            (λ n. length self.new.bytes ≡ length self.old.bytes + n) }
        ensures front { IfOk result
            (λ _. take (length self.old.bytes) self.new.bytes ≡ self.old.bytes) }
        ensures room { IfOk result (λ n. self.new.room + n ≡ self.old.room) }
        ensures unchanged { OnErr result (self.new.bytes ≡ self.old.bytes) }
        ensures left { OnErr result (KeepsLeft (S.left source.old) (S.left source.new)) }
        ensures counts { CountsFaults result (S.faults source.old) (S.faults source.new) }
    {
        let n = source.read(&mut self.bytes[self.end..])?;
        self.end += n;
        Ok(n)
    }

    /// Reads on, if more can be held.
    fn more<S: Source>(&mut self, source: &mut S) -> Result<More, Failed>
        ensures gives { IfOk result
            (λ more. GivesMore more self.old.bytes (S.left source.old) self.new.bytes
            (S.left source.new)) }
        ensures keeps { KeepsText self.old.bytes (S.left source.old) self.new.bytes
            (S.left source.new) }
        ensures unchanged { OnErr result (self.new.bytes ≡ self.old.bytes) }
        ensures counts { CountsFaults result (S.faults source.old) (S.faults source.new) }
    {
        if !self.make_room() {
            return Ok(More::Full);
        }
        let n = self.fill(source)?;
        if n == 0 {
            Ok(More::End)
        } else {
            Ok(More::Bytes)
        }
    }

    /// Reads until a line feed is held, if there is one.
    pub(crate) fn seek<S: Source>(&mut self, source: &mut S) -> Result<Sought, Failed>
        ensures sought { IfOk result
            (λ sought. IsSought sought self.new.bytes (S.left source.old) (S.left source.new)) }
        ensures keeps { KeepsText self.old.bytes (S.left source.old) self.new.bytes
            (S.left source.new) }
        ensures counts { CountsFaults result (S.faults source.old) (S.faults source.new) }
    {
        loop {
            if let Some(at) = line_feed_at(self.held()) {
                return Ok(Sought::Line(at));
            }
            match self.more(source)? {
                More::Bytes => {}
                More::Full => return Ok(Sought::Full),
                More::End if self.held().is_empty() => return Ok(Sought::End),
                More::End => return Ok(Sought::Partial),
            }
        }
    }
}

/// Where the first line feed stands.
fn line_feed_at(bytes: &[u8]) -> Option<usize>
    ensures within { IfSome result (λ at. at < length bytes.now) }
    ensures there { IfSome result (λ at. slice_index bytes.now at ≡ 10) }
    ensures first { IfSome result (λ at. (k : ℕ) → k < at → slice_index bytes.now k ≢ 10) }
    ensures none { IfNone result (HasNoLineFeed bytes.now) }
{
    for (at, byte) in bytes.iter().enumerate() {
        if *byte == b'\n' {
            return Some(at);
        }
    }
    None
}
