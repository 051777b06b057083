ghost use Rattle.std.specs.Prelude.{◌≡◌, ◌<◌, [], map, length, take, IfNone};
ghost use Rattle.io_reactor.specs.Answers.{count_of};
ghost use Rattle.io_reactor.specs.Peer.{answer_over, first_piece, sends_after};
ghost use Rattle.io_reactor_memory.specs.Ends.{read_error};
ghost use Rattle.io_reactor_memory.specs.Sides.{sends_of};

use crate::ahead::ahead;
use crate::room::at_end;
use crate::script::ReadEnd;
use io_reactor::{Readiness, Transferred};

/// What a peer has still to send.
#[derive(Drop)]
pub(crate) struct Reads<'s> {
    /// What is left of the piece that was begun.
    pub(crate) begun: Option<&'s [u8]>,
    pub(crate) pieces: &'s [Vec<u8>],
    pub(crate) end: ReadEnd,
    /// Whether an edge has told of the end.
    pub(crate) told_end: bool,
}

impl<'s> Reads<'s> {
    /// Nothing was given yet.
    pub(crate) fn of(pieces: &'s [Vec<u8>], end: ReadEnd) -> Reads<'s>
        ensures sends { sends_of result ≡ map (λ piece. piece.items) pieces.now }
        ensures end { result.end ≡ end }
    {
        Reads {
            begun: None,
            pieces,
            end,
            told_end: false,
        }
    }

    /// Begins the next piece, if none is begun.
    fn begin(&mut self)
        ensures same { sends_of self.new ≡ sends_of self.old }
        ensures end { self.new.end ≡ self.old.end }
        ensures none { IfNone self.new.begun (sends_of self.new ≡ []) }
    {
        if self.begun.is_none() {
            if let Some((first, others)) = self.pieces.split_first() {
                self.begun = Some(first.as_slice());
                self.pieces = others;
            }
        }
    }

    /// What a read gives.
    pub(crate) fn read(&mut self, buf: &mut [u8]) -> Transferred
        requires { 0 < length buf.old }
        ensures answer { result
            ≡ answer_over (length buf.old) (map length (sends_of self.old)) (read_error self.old.end) }
        ensures bytes { take (count_of result) buf.new
            ≡ take (count_of result) (first_piece (sends_of self.old)) }
        ensures read { sends_of self.new ≡ sends_after (count_of result) (sends_of self.old) }
        ensures end { self.new.end ≡ self.old.end }
    {
        self.begin();
        let Some(piece) = self.begun else {
            return at_end(self.end.error());
        };
        let count = piece.len().min(buf.len());
        buf[..count].copy_from_slice(&piece[..count]);
        self.begun = if count == piece.len() {
            None
        } else {
            Some(&piece[count..])
        };
        if piece.is_empty() {
            Transferred::WouldBlock
        } else {
            Transferred::Bytes(count)
        }
    }

    /// What an edge tells of what comes, if anything does.
    pub(crate) fn edge(&mut self) -> Readiness
        ensures same { sends_of self.new ≡ sends_of self.old }
        ensures end { self.new.end ≡ self.old.end }
    {
        if self.told_end {
            return Readiness::Same;
        }
        let more = self.begun.is_some() || !self.pieces.is_empty();
        let waits = self.pieces.iter().any(|piece| piece.is_empty());
        let ahead = ahead(more, waits, self.end != ReadEnd::Open);
        self.told_end = ahead == Readiness::Closed;
        ahead
    }
}
