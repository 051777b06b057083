ghost use Rattle.std.specs.Prelude.{◌<◌, ◌≤◌, IfOk};

use crate::failure::Failure;

/// How many steps a thread makes in one round; a seat of the clock draws no more.
pub(crate) const STEPS: u32 = 65_536;

const MOST_THREADS: u32 = 16;

const MOST_ROUNDS: u32 = 100_000;

/// How many threads take part in each round.
#[derive(Clone, Copy)]
pub(crate) struct Rounds {
    pub(crate) threads: u32,
    pub(crate) rounds: u32,
}

/// From 1 to 16 threads, and 1 to 100,000 rounds.
pub(crate) fn rounds_of(threads: u32, rounds: u32) -> Result<Rounds, Failure>
    ensures threads { IfOk result (λ r. (0 < r.threads) × (r.threads ≤ 16)) }
{
    if threads == 0 || threads > MOST_THREADS || rounds == 0 || rounds > MOST_ROUNDS {
        return Err(Failure::Usage);
    }
    Ok(Rounds { threads, rounds })
}

/// What the threads of a round counted, together.
pub(crate) fn sum_of(counts: &[u64]) -> u64 {
    let mut sum: u64 = 0;
    for count in counts {
        sum = sum.saturating_add(*count);
    }
    sum
}
