ghost use Rattle.std.specs.Prelude.{◌≡◌, ◌⊎◌, ℕ, IfOk, IfSome, IsTrue, List, None};
ghost use Rattle.run_lines.specs.declared.line.Line.{Line};

use crate::clock::{Clock, Seen};
use std::alloc::{AllocError, Global};
use std::collections::{HashMap, HashSet};

/// Chains of lines, each of which comes before the next one in each order.
#[derive(Drop)]
pub(crate) struct Chains {
    /// The chain of each line, by its place.
    by_place: HashMap<u64, u64>,
    /// The place of the last line of each chain.
    tips: HashMap<u64, u64>,
    /// The chains on which no execution goes on.
    free: HashSet<u64>,
    /// How many there are.
    count: u64,
}

impl Chains {
    ghost use Rattle.run_forced.specs.Chains.{AreChains, IsKnown, IsPut, MayGoOn, Reaches, chain_of, tip_of};

    pub(crate) fn new(alloc: Global) -> Chains
        ensures { (run : List Line) → AreChains run 0 result }
    {
        Chains {
            by_place: HashMap::new(alloc),
            tips: HashMap::new(alloc),
            free: HashSet::new(alloc),
            count: 0,
        }
    }

    /// The chain of a line.
    pub(crate) fn of(&self, place: u64) -> Option<u64>
        ensures { result ≡ chain_of self.now place }
    {
        self.by_place.get(&place).copied()
    }

    /// Whether a clock says that the line at this place comes before.
    pub(crate) fn knows(&self, clock: &Clock, place: u64) -> bool
        ensures { IsTrue result → IsKnown self.now clock.now place }
    {
        match self.of(place) {
            Some(chain) => match clock.of(chain) {
                Some(seen) => place <= seen.place,
                None => false,
            },
            None => false,
        }
    }

    /// Whether the last line of a chain comes before the line with this clock.
    fn reaches(&self, clock: &Clock, chain: u64) -> bool
        ensures { IsTrue result → Reaches self.now clock.now chain }
    {
        match (self.tips.get(&chain).copied(), clock.of(chain)) {
            (Some(tip), Some(seen)) => tip <= seen.place,
            _ => false,
        }
    }

    /// A chain on which no execution goes on, and whose last line comes before the line with this clock.
    fn left(&self, clock: &Clock) -> Option<u64>
        ensures { IfSome result (λ chain. Reaches self.now clock.now chain) }
    {
        for seen in clock.seen() {
            if self.free.contains(&seen.chain) && self.reaches(clock, seen.chain) {
                return Some(seen.chain);
            }
        }
        None
    }

    /// A chain on which there is no line.
    fn unused(&self) -> Option<u64>
        ensures { IfSome result (λ chain. tip_of self.now chain ≡ None) }
    {
        if self.tips.contains_key(&self.count) {
            None
        } else {
            Some(self.count)
        }
    }

    /// The chain on which the line with this clock goes: that of the line before it in its frame, one on
    /// which no execution goes on, or a new one.
    pub(crate) fn choose(&self, clock: &Clock, own: Option<u64>) -> Option<u64>
        ensures { IfSome result (λ chain. MayGoOn self.now clock.now chain) }
    {
        match own {
            Some(chain) if self.reaches(clock, chain) => Some(chain),
            _ => match self.left(clock) {
                Some(chain) => Some(chain),
                None => self.unused(),
            },
        }
    }

    /// Puts a line on a chain.
    pub(crate) fn put(&mut self, seen: Seen) -> Result<(), AllocError>
        ensures { IfOk result (λ _. IsPut seen self.old self.new) }
    {
        if seen.chain == self.count {
            self.count = self.count.saturating_add(1);
        }
        self.free.remove(&seen.chain);
        self.by_place.insert(seen.place, seen.chain)?;
        self.tips.insert(seen.chain, seen.place)?;
        Ok(())
    }

    /// No execution goes on on the chain of this line.
    pub(crate) fn leave(&mut self, place: u64) -> Result<(), AllocError>
        ensures places { self.new.by_place ≡ self.old.by_place }
        ensures tips { self.new.tips ≡ self.old.tips }
    {
        if let Some(chain) = self.of(place) {
            self.free.insert(chain)?;
        }
        Ok(())
    }
}
