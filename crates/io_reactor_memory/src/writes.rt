ghost use Rattle.std.specs.Prelude.{◌≡◌, ◌<◌, ◌++◌, [], length, take, IfOk};
ghost use Rattle.io_reactor.specs.Answers.{count_of};
ghost use Rattle.io_reactor.specs.Peer.{answer_over, takes_after};
ghost use Rattle.io_reactor_memory.specs.Ends.{write_error};
ghost use Rattle.io_reactor_memory.specs.declared.script.WriteEnd.TheVariants as write_end;

use crate::ahead::ahead;
use crate::room::{Room, total};
use crate::script::WriteEnd;
use asio_types::NoMemory;
use io_reactor::{Readiness, Transferred};
use std::alloc::Global;
use std::marker::Model;

/// The room that a peer has still to make, and what it took, in memory that is taken once. Contracts
/// see both.
#[derive(Drop)]
pub(crate) struct Writes<'s> {
    room: Room<'s>,
    end: WriteEnd,
    took: Vec<u8>,
    /// Whether an edge has told of the end.
    told_end: bool,
}

impl<'s> Model for Writes<'s> {
    ghost use Rattle.std.specs.Prelude.{◌≤◌, ◌+◌, length, vec_capacity};
    ghost use Rattle.io_reactor_memory.specs.Sides.{Outward, takes_of, total_of};

    ghost Value = { Outward };

    ghost view = { λ w. record { takes = takes_of w.room; end = w.end; took = w.took.items } };

    ghost invariant = { λ w.
        length w.took.items + total_of (takes_of w.room) ≤ vec_capacity w.took };
}

impl<'s> Writes<'s> {
    /// Nothing is taken yet. Takes the memory for all that will be.
    pub(crate) fn make(
        alloc: Global,
        takes: &'s [usize],
        end: WriteEnd,
    ) -> Result<Writes<'s>, NoMemory>
        ensures takes { IfOk result (λ writes. writes.takes ≡ takes.now) }
        ensures end { IfOk result (λ writes. writes.end ≡ end) }
        ensures took { IfOk result (λ writes. writes.took ≡ []) }
    {
        let Some(most) = total(takes) else {
            return Err(NoMemory);
        };
        let took = Vec::with_capacity(alloc, most)?;
        Ok(Writes {
            room: Room {
                begun: None,
                rest: takes,
            },
            end,
            took,
            told_end: false,
        })
    }

    /// Nothing can be written. Takes no memory.
    pub(crate) fn none(alloc: Global) -> Writes<'s>
        ensures takes { result.takes ≡ [] }
        ensures end { result.end ≡ write_end.Reset }
        ensures took { result.took ≡ [] }
    {
        Writes {
            room: Room {
                begun: None,
                rest: &[],
            },
            end: WriteEnd::Reset,
            took: Vec::new(alloc),
            told_end: false,
        }
    }

    /// What a write gives.
    pub(crate) fn write(&mut self, bytes: &[u8]) -> Transferred
        requires { 0 < length bytes.now }
        ensures answer { result
            ≡ answer_over (length bytes.now) self.old.takes (write_error self.old.end) }
        ensures takes { self.new.takes ≡ takes_after (count_of result) self.old.takes }
        ensures took { self.new.took ≡ self.old.took ++ take (count_of result) bytes.now }
        ensures end { self.new.end ≡ self.old.end }
    {
        let answer = self.room.answer(bytes.len(), self.end.error());
        if let Transferred::Bytes(count) = answer {
            let Ok(()) = self.took.extend_from_slice(&bytes[..count]) else {
                unreachable!()
            };
        }
        answer
    }

    /// Nothing more can be written.
    pub(crate) fn shut(&mut self)
        ensures takes { self.new.takes ≡ [] }
        ensures end { self.new.end ≡ write_end.Broken }
        ensures took { self.new.took ≡ self.old.took }
    {
        self.room = Room {
            begun: None,
            rest: &[],
        };
        self.end = WriteEnd::Broken;
    }

    /// What an edge tells of what comes behind, if anything comes.
    pub(crate) fn edge(&mut self) -> Readiness
        ensures { self.new ≡ self.old }
    {
        if self.told_end {
            return Readiness::Same;
        }
        let (more, waits) = self.room.ahead();
        let ahead = ahead(more, waits, self.end != WriteEnd::Full);
        self.told_end = ahead == Readiness::Closed;
        ahead
    }

    /// All that was taken.
    pub(crate) fn took(&self) -> &[u8]
        ensures { result.now ≡ self.now.took }
    {
        self.took.as_slice()
    }

    /// The same, at the end.
    pub(crate) fn into_took(self) -> Vec<u8>
        ensures { result.items ≡ self.entry.took }
    {
        let Writes {
            room: _,
            end: _,
            took,
            told_end: _,
        } = self;
        took
    }
}
