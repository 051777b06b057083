ghost use Rattle.std.specs.Prelude.{◌≡◌, ℕ, ◌+◌, ◌<◌};

use std::marker::Model;
use std::sync::ledger::{Blank, Book, Ledger, Share};

/// What counts steps, one at a time: for contracts `Steps`, and in tests what can be read as well.
pub(crate) trait Tally {
    /// How many steps it has counted.
    ghost count: { Self → ℕ };

    /// One step more.
    fn tick(&mut self)
        ensures { count self.new ≡ count self.old + 1 };
}

/// How many steps were taken, for contracts alone: it takes no bytes and its calls do nothing at
/// run time. A step of this crate is one counted comparison of two entries. Contracts see the
/// number of steps.
#[derive(Drop)]
pub struct Steps<L: Ledger> {
    // what was counted
    book: Book<L>,
    // the right to count in it
    share: Share<L>,
}

impl<L: Ledger> Model for Steps<L> {
    ghost use Rattle.std.specs.Prelude.{ℕ, ◌<◌};

    ghost Value = { ℕ };

    ghost view = { λ s. s.book.total };

    ghost invariant = { λ s. 0 < s.share.parts };
}

impl<L: Ledger> Steps<L> {
    /// No step yet, counted in a ledger that nothing else counts in.
    pub fn start(blank: Blank) -> Steps<L>
        requires name { blank.name ≡ L.name }
        requires parts { blank.parts ≡ L.parts }
        requires counts { 0 < blank.parts }
        ensures { result ≡ 0 }
    {
        let (book, share) = blank.open();
        Steps { book, share }
    }
}

impl<L: Ledger> Tally for Steps<L> {
    ghost count = { λ s. s };

    fn tick(&mut self) {
        self.book.add(&mut self.share, 1);
    }
}
