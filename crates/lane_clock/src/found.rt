ghost use Rattle.std.specs.Prelude.{◌≡◌};
ghost use Rattle.lane_clock.specs.ClockWord.{amount, found_of, IsParted};

/// What a step finds in the clock word: the clock, the outstanding work (Asio reference,
/// `io_context`, "Effect of exhausting the io_context's work") and the stops so far.
#[derive(Clone, Copy, Debug, PartialEq, Eq)]
pub struct Found {
    /// How many draws were made before.
    pub clock: u64,
    /// The outstanding work, modulo 2^16.
    pub work: u64,
    /// How often the context was stopped, modulo 2^16.
    pub stops: u64,
}

/// What a draw changes in the clock word beside the clock.
#[derive(Clone, Copy, Debug, PartialEq, Eq)]
pub enum Change {
    /// Nothing.
    Same,
    /// One piece of work more.
    Up,
    /// One piece of work less.
    Down,
    /// Two pieces of work less.
    DownTwo,
    /// One stop more.
    Stop,
}

// one more in the part that counts work
const ONE_WORK: u64 = 1 << 32;

/// What a draw adds to the word, where a sum of 2^64 counts as 0.
pub(crate) fn amount_of(change: Change) -> u64
    ensures { result ≡ amount change }
{
    match change {
        Change::Same => 1,
        Change::Up => ONE_WORK + 1,
        Change::Down => u64::MAX - ONE_WORK + 2,
        Change::DownTwo => u64::MAX - 2 * ONE_WORK + 2,
        Change::Stop => (1 << 48) + 1,
    }
}

impl Found {
    /// The three parts of a word.
    pub(crate) fn of_word(word: u64) -> Found
        ensures found { result ≡ found_of word }
        ensures parts { IsParted result }
    {
        Found {
            clock: word % (1 << 32),
            work: word / (1 << 32) % (1 << 16),
            stops: word / (1 << 48),
        }
    }
}
