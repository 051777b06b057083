ghost use Rattle.std.specs.Prelude.{◌≡◌, ◌⊎◌, IfOk, IfSome};
ghost use Rattle.std.specs.List.{Contains};
ghost use Rattle.run_forced.specs.declared.clock.Seen.{Seen};

use std::alloc::{AllocError, Global};

/// How far a chain comes before a line: up to the line at this place.
#[derive(Clone, Copy, Debug, PartialEq, Eq)]
pub(crate) struct Seen {
    pub(crate) chain: u64,
    pub(crate) place: u64,
}

/// A clock names so many chains at most: those that began last. So memory and time for a line are bounded.
const MOST_NAMED: usize = 128;

/// How far chains come before a line in each order, by rising numbers of the chains.
#[derive(Drop)]
pub(crate) struct Clock {
    all: Vec<Seen>,
}

/// The later one of two lines of a chain.
fn later(one: Seen, other: Seen) -> Seen
    ensures { (result ≡ one) ⊎ (result ≡ other) }
{
    if one.place < other.place { other } else { one }
}

/// Goes on through the lines of chains below this one, and keeps them; where it stops.
fn keep_below(
    kept: &mut Vec<Seen>,
    all: &[Seen],
    from: usize,
    chain: u64,
) -> Result<usize, AllocError>
    ensures { IfOk result (λ _. (seen : Seen) → Contains kept.new.items seen → Contains kept.old.items seen ⊎ Contains all.now seen) }
{
    let mut at = from;
    while at < all.len() && all[at].chain < chain {
        kept.push(all[at])?;
        at += 1;
    }
    Ok(at)
}

/// Keeps the line of a chain, or the one that stands here, if it is of that chain and later; where to
/// go on.
fn keep_later(
    kept: &mut Vec<Seen>,
    all: &[Seen],
    at: usize,
    seen: Seen,
) -> Result<usize, AllocError>
    ensures { IfOk result (λ _. (other : Seen) → Contains kept.new.items other →
        Contains kept.old.items other ⊎ (Contains all.now other ⊎ (seen ≡ other))) }
{
    if at < all.len() && all[at].chain == seen.chain {
        kept.push(later(all[at], seen))?;
        Ok(at + 1)
    } else {
        kept.push(seen)?;
        Ok(at)
    }
}

/// The newest of these chains.
fn newest(alloc: Global, all: Vec<Seen>) -> Result<Vec<Seen>, AllocError>
    ensures { IfOk result (λ kept. (seen : Seen) → Contains kept.items seen → Contains all.items seen) }
{
    if all.len() <= MOST_NAMED {
        return Ok(all);
    }
    let from = all.len() - MOST_NAMED;
    let mut kept = Vec::new(alloc);
    keep_below(&mut kept, &all, from, u64::MAX)?;
    Ok(kept)
}

impl Clock {
    ghost use Rattle.run_forced.specs.Clocks.{names};

    pub(crate) fn new(alloc: Global) -> Clock
        ensures { (seen : Seen) → names result seen → ⊥ }
    {
        Clock {
            all: Vec::new(alloc),
        }
    }

    /// How far this chain comes before the line.
    pub(crate) fn of(&self, chain: u64) -> Option<Seen>
        ensures { IfSome result (λ seen. names self.now seen × (seen.chain ≡ chain)) }
    {
        let Ok(at) = self.all.binary_search_by_key(&chain, |seen| seen.chain) else {
            return None;
        };
        let seen = self.all[at];
        if seen.chain == chain {
            Some(seen)
        } else {
            None
        }
    }

    /// How far each chain comes before the line.
    pub(crate) fn seen(&self) -> &[Seen]
        ensures { result.now ≡ self.now.all.items }
    {
        &self.all
    }

    /// The lines of chains that come before both lines, or before one.
    fn merged(&self, alloc: Global, other: &[Seen]) -> Result<Vec<Seen>, AllocError>
        ensures { IfOk result (λ kept. (seen : Seen) → Contains kept.items seen → names self.now seen ⊎ Contains other.now seen) }
    {
        let mut kept = Vec::new(alloc);
        let mut at = 0;
        for seen in other {
            at = keep_below(&mut kept, &self.all, at, seen.chain)?;
            at = keep_later(&mut kept, &self.all, at, *seen)?;
        }
        keep_below(&mut kept, &self.all, at, u64::MAX)?;
        Ok(kept)
    }

    /// Adds what comes before another line.
    pub(crate) fn merge(&mut self, alloc: Global, other: &Clock) -> Result<(), AllocError>
        ensures { IfOk result (λ _. (seen : Seen) → names self.new seen → names self.old seen ⊎ names other.now seen) }
    {
        let merged = self.merged(alloc, &other.all)?;
        self.all = newest(alloc, merged)?;
        Ok(())
    }

    /// Adds a line of a chain.
    pub(crate) fn put(&mut self, alloc: Global, seen: Seen) -> Result<(), AllocError>
        ensures { IfOk result (λ _. (other : Seen) → names self.new other → names self.old other ⊎ (seen ≡ other)) }
    {
        self.all = self.merged(alloc, &[seen])?;
        Ok(())
    }
}
