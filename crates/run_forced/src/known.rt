ghost use Rattle.std.specs.Prelude.{◌≡◌, ◌+◌, ◌⊎◌, ℕ, IfOk, IfSome, IsTrue, List, None, Some};
ghost use Rattle.run_lines.specs.declared.line.Doing.{Doing};
ghost use Rattle.run_lines.specs.declared.line.Line.{Line};
ghost use Rattle.run_orders.specs.Forced.{IsForced};
ghost use Rattle.run_orders.specs.Trees.{Spot, spot_at};
ghost use Rattle.run_joins.specs.Reaching.{IsUpTo};

use crate::chains::Chains;
use crate::clock::{Clock, Seen};
use std::alloc::{AllocError, Global};
use std::collections::HashMap;

/// What comes before lines in each order.
#[derive(Drop)]
pub(crate) struct Known {
    chains: Chains,
    /// How far chains come before the line at a place, where something may still ask.
    clocks: HashMap<u64, Clock>,
    /// How far chains come before what waits for a mark.
    marks: HashMap<u64, Clock>,
}

impl Known {
    ghost use Rattle.run_forced.specs.Known.{GoesOn, IsBefore, IsMarked, Knows};

    pub(crate) fn new(alloc: Global) -> Known
        ensures { (run : List Line) → Knows run 0 result }
    {
        Known {
            chains: Chains::new(alloc),
            clocks: HashMap::new(alloc),
            marks: HashMap::new(alloc),
        }
    }

    /// Adds what comes before the line at this place, which comes before the line with this clock.
    pub(crate) fn add(&self, alloc: Global, clock: &mut Clock, from: u64) -> Result<(), AllocError>
        ensures { IfOk result (λ _. (run : List Line) (lines later : ℕ) → Knows run lines self.now → IsForced run from later →
            IsBefore run self.now later clock.old → IsBefore run self.now later clock.new) }
    {
        match self.clocks.get(&from) {
            Some(known) => {
                clock.merge(alloc, known)?;
                Ok(())
            }
            None => Ok(()),
        }
    }

    /// Adds what comes before this mark, for which the line with this clock waits.
    pub(crate) fn add_mark(
        &self,
        alloc: Global,
        clock: &mut Clock,
        mark: u64,
    ) -> Result<(), AllocError>
        ensures { IfOk result (λ _. (run : List Line) (later : ℕ) (spot : Spot) → Knows run later self.now →
            spot_at run later ≡ Some spot → spot.line.does ≡ Doing.After mark →
            IsBefore run self.now later clock.old → IsBefore run self.now later clock.new) }
    {
        match self.marks.get(&mark) {
            Some(known) => {
                clock.merge(alloc, known)?;
                Ok(())
            }
            None => Ok(()),
        }
    }

    /// Whether a line comes before the one with this clock.
    pub(crate) fn knows(&self, clock: &Clock, place: u64) -> bool
        ensures { (run : List Line) (lines later : ℕ) → Knows run lines self.now → IsBefore run self.now later clock.now → IsTrue result →
            IsForced run place later }
    {
        self.chains.knows(clock, place)
    }

    /// Whether a line is the one at this later place, or comes before it.
    pub(crate) fn knows_at(&self, at: u64, place: u64) -> bool
        ensures { (run : List Line) (lines : ℕ) → Knows run lines self.now → IsTrue result → IsUpTo run place at }
    {
        match self.clocks.get(&at) {
            Some(clock) => self.chains.knows(clock, place),
            None => false,
        }
    }

    /// Puts the next line on a chain.
    fn go_on(
        &mut self,
        alloc: Global,
        clock: &mut Clock,
        place: u64,
        own: Option<u64>,
    ) -> Result<(), AllocError>
        ensures { IfOk result (λ _. (run : List Line) → Knows run place self.old → IsBefore run self.old place clock.old →
            GoesOn run place self.old self.new clock.new) }
    {
        let Some(chain) = self.chains.choose(clock, own) else {
            return Ok(());
        };
        let seen = Seen { chain, place };
        clock.put(alloc, seen)?;
        self.chains.put(seen)?;
        Ok(())
    }

    /// Keeps what comes before the next line. It goes on a chain, best on this one.
    fn put(
        &mut self,
        alloc: Global,
        place: u64,
        clock: Clock,
        own: Option<u64>,
    ) -> Result<(), AllocError>
        ensures { IfOk result (λ _. (run : List Line) → Knows run place self.old → IsBefore run self.old place clock →
            Knows run (place + 1) self.new) }
    {
        let mut clock = clock;
        self.go_on(alloc, &mut clock, place, own)?;
        self.clocks.insert(place, clock)?;
        Ok(())
    }

    /// Keeps the next line, with what comes before it if that is asked.
    pub(crate) fn keep(
        &mut self,
        alloc: Global,
        place: u64,
        clock: Clock,
        own: Option<u64>,
        asked: bool,
    ) -> Result<(), AllocError>
        ensures { IfOk result (λ _. (run : List Line) → Knows run place self.old → IsBefore run self.old place clock →
            Knows run (place + 1) self.new) }
    {
        if !asked {
            return Ok(());
        }
        self.put(alloc, place, clock, own)?;
        Ok(())
    }

    /// Adds what comes before the line at this place, which passes a mark, to what comes before the mark.
    fn add_passed(&self, alloc: Global, clock: &mut Clock, place: u64) -> Result<(), AllocError>
        ensures { IfOk result (λ _. (run : List Line) (mark : ℕ) (spot : Spot) → Knows run (place + 1) self.now →
            spot_at run place ≡ Some spot → spot.line.does ≡ Doing.Mark mark →
            IsMarked run (place + 1) self.now mark clock.old → IsMarked run (place + 1) self.now mark clock.new) }
    {
        match self.clocks.get(&place) {
            Some(known) => {
                clock.merge(alloc, known)?;
                Ok(())
            }
            None => Ok(()),
        }
    }

    /// Takes out what comes before a mark.
    fn take_mark(&mut self, alloc: Global, mark: u64) -> Clock
        ensures knows { (run : List Line) (lines : ℕ) → Knows run lines self.old → Knows run lines self.new }
        ensures marked { (run : List Line) (lines : ℕ) → Knows run lines self.old → IsMarked run lines self.new mark result }
    {
        match self.marks.remove(&mark) {
            Some(clock) => clock,
            None => Clock::new(alloc),
        }
    }

    /// Keeps that the line at this place passes a mark.
    pub(crate) fn mark(&mut self, alloc: Global, place: u64, mark: u64) -> Result<(), AllocError>
        ensures { IfOk result (λ _. (run : List Line) (spot : Spot) → Knows run (place + 1) self.old → spot_at run place ≡ Some spot →
            spot.line.does ≡ Doing.Mark mark → Knows run (place + 1) self.new) }
    {
        let mut clock = self.take_mark(alloc, mark);
        self.add_passed(alloc, &mut clock, place)?;
        self.marks.insert(mark, clock)?;
        Ok(())
    }

    /// The chain of a line.
    pub(crate) fn chain(&self, place: u64) -> Option<u64> {
        self.chains.of(place)
    }

    /// Nothing asks any more what comes before this line.
    pub(crate) fn forget(&mut self, place: u64)
        ensures { (run : List Line) (lines : ℕ) → Knows run lines self.old → Knows run lines self.new }
    {
        self.clocks.remove(&place);
    }

    /// No execution goes on on the chain of this line.
    pub(crate) fn leave(&mut self, place: u64) -> Result<(), AllocError>
        ensures { IfOk result (λ _. (run : List Line) (lines : ℕ) → Knows run lines self.old → Knows run lines self.new) }
    {
        self.chains.leave(place)?;
        Ok(())
    }
}
