ghost use Rattle.std.specs.Prelude.{◌≡◌, ◌==◌, if◌then◌else◌, IfOk, OnOk, ℕ, List, Some, None};
ghost use Rattle.std.specs.Str.{bytes_eq};
ghost use Rattle.run_verdict.specs.Uses.{ArePaired, IsNewUse, is_by, stream_at, stream_in, use_after, user_at};

use run_lines::{Doing, Word};
use std::alloc::{AllocError, Global};
use std::collections::HashMap;

/// The operations that a stream has one of at a time.
#[derive(Clone, Copy, PartialEq, Eq)]
pub(crate) enum Way {
    Read,
    Write,
}

/// The reads, or the writes, that are pending on streams.
#[derive(Drop)]
pub(crate) struct Uses {
    /// The stream of each operation.
    streams: HashMap<u64, u64>,
    /// The operation of each stream.
    users: HashMap<u64, u64>,
}

/// Whether letters are these.
pub(crate) fn is(letters: &[u8], wanted: &[u8]) -> bool
    ensures { result ≡ bytes_eq letters.now wanted.now }
{
    letters == wanted
}

/// Whether a word is that of a read, or of a write.
pub(crate) fn is_by(how: Way, word: &Word) -> bool
    ensures { result ≡ is_by how word.now }
{
    match word {
        Word::Other(other) => match how {
            Way::Read => is(other.as_slice(), b"read"),
            Way::Write => is(other.as_slice(), b"write"),
        },
        _ => false,
    }
}

/// The stream that a call reads, or writes.
fn stream_in(how: Way, word: &Word, thing: Option<u64>) -> Option<u64>
    ensures { result ≡ stream_in how word.now thing }
{
    if is_by(how, word) { thing } else { None }
}

impl Uses {
    pub(crate) fn new(alloc: Global) -> Self
        ensures paired { ArePaired result }
        ensures empty { (op : ℕ) → stream_at result op ≡ None }
    {
        Uses {
            streams: HashMap::new(alloc),
            users: HashMap::new(alloc),
        }
    }

    /// The operation that uses this stream.
    pub(crate) fn user(&self, stream: u64) -> Option<u64>
        ensures { result ≡ user_at self.now stream }
    {
        self.users.get(&stream).copied()
    }

    fn put(&mut self, op: u64, stream: u64) -> Result<(), AllocError>
        ensures streams { IfOk result (λ _. (other : ℕ) → stream_at self.new other
            ≡ (if op == other then Some stream else stream_at self.old other)) }
        ensures paired { OnOk result (ArePaired self.old → stream_at self.old op ≡ None → user_at self.old stream ≡ None
            → ArePaired self.new) }
    {
        self.streams.insert(op, stream)?;
        self.users.insert(stream, op)?;
        Ok(())
    }

    fn take_out(&mut self, op: u64)
        ensures streams { (other : ℕ) → stream_at self.new other ≡ (if op == other then None else stream_at self.old other) }
        ensures paired { ArePaired self.old → ArePaired self.new }
    {
        if let Some(stream) = self.streams.remove(&op) {
            self.users.remove(&stream);
        }
    }

    /// Puts an operation that is called, if it uses a stream in this way.
    fn call(&mut self, op: u64, stream: Option<u64>) -> Result<(), AllocError>
        ensures streams { IfOk result (λ _. stream_at self.old op ≡ None → (other : ℕ) → stream_at self.new other
            ≡ (if op == other then stream else stream_at self.old other)) }
        ensures paired { OnOk result (ArePaired self.old → stream_at self.old op ≡ None
            → ((used : ℕ) → stream ≡ Some used → user_at self.old used ≡ None) → ArePaired self.new) }
    {
        match stream {
            Some(stream) => self.put(op, stream),
            None => Ok(()),
        }
    }

    /// Follows a line.
    pub(crate) fn follow(&mut self, how: Way, does: &Doing) -> Result<(), AllocError>
        ensures streams { IfOk result (λ _. IsNewUse how self.old does.now → (op : ℕ) → stream_at self.new op
            ≡ use_after how does.now op (stream_at self.old op)) }
        ensures paired { OnOk result (ArePaired self.old → IsNewUse how self.old does.now → ArePaired self.new) }
    {
        match *does {
            Doing::Call {
                op,
                word,
                thing,
                ..
            } => self.call(op, stream_in(how, &word, thing)),
            Doing::Begin { op, .. } | Doing::Drop { op } => {
                self.take_out(op);
                Ok(())
            }
            _ => Ok(()),
        }
    }
}
