ghost use Rattle.std.specs.Prelude.{◌≡◌, ◌++◌, ◌==◌, ℕ, List, true, length, not, IfOk, OnErr, OnOk};
ghost use Rattle.http_handlers.specs.Connections.{Feeds, Gives, Said, SaysOnce, left_of, new_left};
ghost use Rattle.http_handlers.specs.Heads.{HasNoHead};

use crate::answer::{Answer, Status};
use crate::heads::{MOST_HEAD, head_size};
use crate::requests::answer_of;
use asio_types::NoMemory;
use std::alloc::Global;
use std::marker::Model;

/// A connection of HTTP/1.1 as a machine: it is fed what came, cut anywhere, and gives the answers that
/// are owed to all of it (RFC 9112, sections 2.2 and 9.3.2). Contracts see what isn't answered yet.
#[derive(Drop)]
pub struct Connection {
    /// What came behind the last head that was answered.
    kept: Vec<u8>,
    /// How many requests were answered.
    served: u64,
    /// Whether an answer has closed it.
    closed: bool,
}

impl Model for Connection {
    ghost use Rattle.http_handlers.specs.Connections.{Left};

    ghost Value = { Left };

    ghost view = { λ c. record { kept = c.kept.items; served = c.served; closed = c.closed } };
}

/// What is left of some bytes once they are answered.
#[derive(Drop)]
struct Rest<'a> {
    bytes: &'a [u8],
    served: u64,
    closed: bool,
}

/// What no head begins is left, unless it is too long for one.
fn end_of<'a>(bytes: &'a [u8], served: u64, out: &mut Vec<u8>) -> Result<Rest<'a>, NoMemory>
    requires { HasNoHead bytes.now }
    ensures { IfOk result (λ rest. Gives served bytes.now out.old.items out.new.items (left_of rest)) }
{
    if bytes.len() < MOST_HEAD {
        return Ok(Rest {
            bytes,
            served,
            closed: false,
        });
    }
    Answer::refusal(Status::HeaderFieldsTooLarge).write(out)?;
    Ok(Rest {
        bytes: &[],
        served,
        closed: true,
    })
}

/// Answers all heads of these bytes, up to the first that closes.
fn answer_all<'a>(bytes: &'a [u8], served: u64, out: &mut Vec<u8>) -> Result<Rest<'a>, NoMemory>
    ensures { IfOk result (λ rest. Gives served bytes.now out.old.items out.new.items (left_of rest)) }
{
    let mut rest = bytes;
    let mut served = served;
    'heads: while let Some(size) = head_size(rest) {
        let (head, behind) = rest.split_at(size);
        let answer = answer_of(served, head);
        answer.write(out)?;
        served = served.saturating_add(1);
        if !answer.keeps {
            return Ok(Rest {
                bytes: &[],
                served,
                closed: true,
            });
        }
        rest = behind;
    }
    end_of(rest, served, out)
}

impl Connection {
    /// One on which nothing has come.
    pub fn new(alloc: Global) -> Connection
        ensures { result ≡ new_left }
    {
        Connection {
            kept: Vec::new(alloc),
            served: 0,
            closed: false,
        }
    }

    /// Whether its last answer was given: what comes then is passed over.
    pub fn is_closed(&self) -> bool
        ensures { result ≡ self.now.closed }
    {
        self.closed
    }

    /// Whether a head has begun and isn't whole.
    pub fn has_begun(&self) -> bool
        ensures { result ≡ not (length self.now.kept == 0) }
    {
        !self.kept.is_empty()
    }

    /// Takes what came on one that isn't closed.
    fn take(&mut self, bytes: &[u8], out: &mut Vec<u8>) -> Result<(), NoMemory>
        ensures { OnOk result (Gives self.old.served (self.old.kept ++ bytes.now) out.old.items
            out.new.items self.new) }
    {
        self.kept.extend_from_slice(bytes)?;
        let Rest {
            bytes: left,
            served,
            closed,
        } = answer_all(self.kept.as_slice(), self.served, out)?;
        let size = left.len();
        let over = self.kept.len() - size;
        self.served = served;
        self.closed = closed;
        self.kept.rotate_left(over);
        self.kept.truncate(size);
        Ok(())
    }

    /// Takes what came, and appends the answers that are owed then: what has been given by all calls
    /// together is owed to all bytes together, whatever pieces they came in. A closed connection passes
    /// over what comes. Without memory the connection is closed.
    pub fn feed(&mut self, bytes: &[u8], out: &mut Vec<u8>) -> Result<(), NoMemory>
        ensures feeds { OnOk result (Feeds self.old bytes.now out.old.items out.new.items self.new) }
        ensures all { (came said : List ℕ) → Said 0 came said self.old →
            OnOk result (SaysOnce came said bytes.now out.old.items out.new.items self.new) }
        ensures failed { OnErr result (self.new.closed ≡ true) }
    {
        if self.closed {
            return Ok(());
        }
        let taken = self.take(bytes, out);
        if taken.is_err() {
            self.closed = true;
        }
        taken
    }
}
