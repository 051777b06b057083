//! When a worker keeps out of the way of others. No clause of the context rests on it: a worker that keeps
//! out reads, yields, and comes back.
use std::thread::yield_now;

/// How often a worker yields before it reads again, at first.
const FIRST_YIELDS: u32 = 4;

/// The same, where others proved quick while it took part.
const NEXT_YIELDS: u32 = 8;

/// The same, at most.
const MOST_YIELDS: u32 = 32;

/// A worker that takes part leaves where others draw more positions than this while it yields once.
const LEAVES_ABOVE: u64 = 1;

/// A worker that keeps out stays so where others draw more than this. With one threshold for both, workers
/// that contend slow each other down below it, and none leaves.
const STAYS_ABOVE: u64 = 2;

/// A worker that takes part looks this often for others in its way.
const TURNS_APART: u32 = 4;

/// What a worker does between two rounds of looks.
#[derive(Clone, Copy, Debug, PartialEq, Eq)]
enum Part {
    /// It takes part: it looks at lanes.
    Takes,
    /// It yields, to see whether others are quick without it.
    Watches,
    /// It keeps out of the way.
    KeepsOut,
}

/// Whether a worker takes part. Where handlers do nearly nothing, one more worker makes the steps of all
/// others dearer, since all draw from one clock; where they compute, it is needed. The clock tells: whoever
/// finds that others draw many positions while it yields isn't needed.
#[derive(Clone, Copy, Debug)]
pub(crate) struct Backoff {
    part: Part,
    // the clock that it read last, 0 before
    seen: u64,
    // how many positions it drew since
    own: u64,
    // rounds of looks since it came back
    turns: u32,
    // how often it yields before it reads again
    yields: u32,
}

impl Backoff {
    /// That of a worker that takes part from the beginning, or of one that looks on first.
    pub(crate) fn first(takes_part: bool) -> Backoff {
        Backoff {
            part: if takes_part {
                Part::Takes
            } else {
                Part::KeepsOut
            },
            seen: 0,
            own: 0,
            turns: 0,
            yields: FIRST_YIELDS,
        }
    }

    /// The worker drew so many positions more, or nearly so many.
    pub(crate) fn drew(&mut self, positions: u64) {
        self.own = self.own.saturating_add(positions);
    }

    /// The worker found nothing to do.
    pub(crate) fn found_nothing(&mut self) {
        self.part = Part::KeepsOut;
    }

    /// Whether others drew more than so many positions at each of its yields.
    fn is_above(&self, drawn: u64, most: u64) -> bool {
        drawn > most.saturating_mul(u64::from(self.yields))
    }

    /// Whether it looks at lanes now that it read this clock; if not, it waits.
    pub(crate) fn takes_part(&mut self, clock: u64) -> bool {
        let is_first = self.seen == 0;
        let own = self.own;
        let others = clock.saturating_sub(self.seen).saturating_sub(own);
        self.seen = clock;
        self.own = 0;
        match self.part {
            Part::Takes => self.goes_on(others, own),
            Part::Watches => self.has_watched(others),
            Part::KeepsOut => !is_first && self.comes_back(others),
        }
    }

    /// It took part: now and then, where others drew much beside it, it watches.
    fn goes_on(&mut self, others: u64, own: u64) -> bool {
        self.turns = self.turns.saturating_add(1);
        if own > 0 && others > own / 2 && self.turns % TURNS_APART == 1 {
            self.part = Part::Watches;
            return false;
        }
        true
    }

    /// It watched: where others were quick it keeps out.
    fn has_watched(&mut self, others: u64) -> bool {
        if self.is_above(others, LEAVES_ABOVE) {
            self.part = Part::KeepsOut;
            self.yields = NEXT_YIELDS;
            return false;
        }
        self.part = Part::Takes;
        true
    }

    /// It kept out: where others are still quick it does so for longer.
    fn comes_back(&mut self, others: u64) -> bool {
        if self.is_above(others, STAYS_ABOVE) {
            self.yields = self.yields.saturating_mul(2).min(MOST_YIELDS);
            return false;
        }
        self.part = Part::Takes;
        self.turns = 0;
        self.yields = FIRST_YIELDS;
        true
    }

    /// Lets other threads go first.
    pub(crate) fn wait(&self) {
        for _ in 0..self.yields {
            yield_now();
        }
    }
}
