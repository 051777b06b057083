ghost use Rattle.std.specs.Prelude.{◌≡◌};

use crate::count::Count;
use io_context::{Completion, Full, Handler, Initiator, Lane};
use std::sync::OnceLock;

/// How many strands count.
pub(crate) const STRANDS: usize = 4;

/// How many bytes a piece has, save the last.
const SIZE: usize = 64;

/// A piece of a text.
#[derive(Clone, Copy, Drop)]
pub(crate) struct Piece<'a> {
    text: &'a [u8],
    number: usize,
}

impl<'a> Piece<'a> {
    /// The piece of a text with this number.
    pub(crate) fn nth(text: &'a [u8], number: usize) -> Piece<'a> {
        Piece { text, number }
    }

    /// The piece that comes next on the same strand.
    fn next(self) -> Piece<'a> {
        Piece {
            text: self.text,
            number: self.number.saturating_add(STRANDS),
        }
    }

    fn start(self) -> usize {
        self.number.saturating_mul(SIZE)
    }

    /// Whether it lies behind the text.
    fn is_behind(self) -> bool {
        self.start() >= self.text.len()
    }

    /// Its count.
    fn count(self) -> Count {
        let start = self.start();
        if start >= self.text.len() {
            return Count::none();
        }
        let before = if start == 0 {
            b' '
        } else {
            self.text[start - 1]
        };
        let end = start.saturating_add(SIZE).min(self.text.len());
        Count::of(before, &self.text[start..end])
    }
}

/// A strand's count, and where it comes out.
#[derive(Drop)]
pub(crate) struct Tally<'a> {
    pub(crate) count: Count,
    pub(crate) total: &'a OnceLock<Count>,
}

/// A handler that counts a piece, and then posts the next.
#[derive(Drop)]
pub(crate) struct Counting<'a> {
    pub(crate) piece: Piece<'a>,
    pub(crate) lane: Lane,
}

impl<'a> Handler for Counting<'a> {
    type State = Tally<'a>;

    ghost marks = { λ _. record { run = 1; drop = 0 } };

    ghost may = { λ handler done old new io later. Unit {0} };

    ghost may_free = { λ handler done io later. Unit {0} };

    fn call(
        self,
        done: Completion,
        state: &mut Tally<'a>,
        io: &mut Initiator<Counting<'a>, Tally<'a>>,
    ) -> u64 {
        let _done = done;
        let Counting { piece, lane } = self;
        state.count = state.count.plus(piece.count());
        let piece = piece.next();
        if !piece.is_behind() {
            // There is always room for one.
            match io.post(lane, Counting { piece, lane }) {
                Ok(()) => {}
                Err(Full(_)) => {}
            }
        }
        1
    }

    fn call_free(self, done: Completion, io: &mut Initiator<Counting<'a>, Tally<'a>>) -> u64 {
        let _done = done;
        let _io = io;
        let _unused = self;
        1
    }

    fn discard(self) -> u64 {
        let _unused = self;
        0
    }

    fn retire(state: Tally<'a>) {
        let Tally { count, total } = state;
        let _ = total.try_set(count);
    }
}
