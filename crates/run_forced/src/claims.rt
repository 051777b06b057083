ghost use Rattle.std.specs.Prelude.{◌≡◌, ◌+◌, ℕ, IfNone, IfOk, IfSome, IsTrue, List, false};
ghost use Rattle.run_lines.specs.declared.line.Doing.{Doing};
ghost use Rattle.run_lines.specs.declared.line.Line.{Line};
ghost use Rattle.run_rules.specs.Legal.{IsLegalSoFar};
ghost use Rattle.run_orders.specs.Orders.{plain};
ghost use Rattle.run_forced.specs.Events.{IsHere};
ghost use Rattle.run_forced.specs.Known.{IsBefore};
ghost use Rattle.run_forced.specs.Past.{HasFollowed};

use crate::clock::Clock;
use crate::event::Event;
use crate::past::Past;
use run_lines::Doing;
use run_rules::Frame;
use std::alloc::{AllocError, Global};
use std::collections::{HashMap, HashSet};

/// The last claim of a thing: by which frame, and the line that gives it back.
#[derive(Clone, Copy, Debug, PartialEq, Eq)]
pub(crate) struct LastClaim {
    frame: Frame,
    over: Option<u64>,
}

/// The claims of things, as far as the lines of a run were followed.
#[derive(Drop)]
pub(crate) struct Claims {
    last: HashMap<u64, LastClaim>,
    /// Things of which a claim isn't known to be given back before the next one in each order.
    mixed: HashSet<u64>,
}

/// The thing that a line claims.
fn claimed_by(does: &Doing) -> Option<u64>
    ensures thing { IfSome result (λ thing. does.now ≡ Doing.Claim thing) }
    ensures none { IfNone result ((thing : ℕ) → does.now ≡ Doing.Claim thing → ⊥) }
{
    match *does {
        Doing::Claim { thing } => Some(thing),
        _ => None,
    }
}

impl Claims {
    ghost use Rattle.run_forced.specs.Claims.{AreClaims, IsFree, is_mixed, last_claim};

    pub(crate) fn new(alloc: Global) -> Claims
        ensures { (run : List Line) → AreClaims run 0 result }
    {
        Claims {
            last: HashMap::new(alloc),
            mixed: HashSet::new(alloc),
        }
    }

    /// Whether a claim of a thing isn't known to be given back before the next one in each order.
    pub(crate) fn is_mixed(&self, thing: u64) -> bool
        ensures { result ≡ is_mixed self.now thing }
    {
        self.mixed.contains(&thing)
    }

    /// The last claim of a thing.
    fn of(&self, thing: u64) -> Option<LastClaim>
        ensures { result ≡ last_claim self.now thing }
    {
        self.last.get(&thing).copied()
    }

    /// Whether the claims of a thing are given back before the line with this clock.
    fn is_free(&self, past: &Past, clock: &Clock, thing: u64) -> bool
        ensures { IsTrue result → (run : List Line) (place : ℕ) → HasFollowed run place past.now →
            IsBefore run past.now.known place clock.now → IsFree run self.now thing place }
    {
        match self.of(thing) {
            Some(last) => match last.over {
                Some(place) => past.knows(clock, place),
                None => false,
            },
            None => true,
        }
    }

    /// Keeps that a thing is mixed, unless it is free.
    fn mix(&mut self, thing: u64, free: bool) -> Result<(), AllocError>
        ensures last { self.new.last ≡ self.old.last }
        ensures mixed { IfOk result (λ _. (other : ℕ) → is_mixed self.new other ≡ false → is_mixed self.old other ≡ false) }
        ensures free { IfOk result (λ _. is_mixed self.new thing ≡ false → IsTrue free) }
    {
        if !free {
            self.mixed.insert(thing)?;
        }
        Ok(())
    }

    /// Keeps a claim.
    fn claim(
        &mut self,
        past: &Past,
        clock: &Clock,
        event: &Event,
        thing: u64,
    ) -> Result<(), AllocError>
        ensures { IfOk result (λ _. (run : List Line) (place : ℕ) → HasFollowed run place past.now → IsBefore run past.now.known place clock.now →
            IsHere run place event.now → event.now.note.line.does ≡ Doing.Claim thing → AreClaims run place self.old →
            AreClaims run (place + 1) self.new) }
    {
        let free = self.is_free(past, clock, thing);
        self.mix(thing, free)?;
        let last = LastClaim {
            frame: event.note.frame,
            over: None,
        };
        self.last.insert(thing, last)?;
        Ok(())
    }

    /// Keeps that a frame has a thing no more.
    fn release(&mut self, event: &Event, place: u64, thing: u64) -> Result<(), AllocError>
        ensures { IfOk result (λ _. (run : List Line) → IsLegalSoFar plain run → IsHere run place event.now →
            event.now.note.line.does ≡ Doing.Release thing → IsTrue event.now.note.gone →
            AreClaims run place self.old → AreClaims run (place + 1) self.new) }
    {
        let Some(last) = self.of(thing) else {
            return Ok(());
        };
        if last.frame != event.note.frame {
            return Ok(());
        }
        let over = LastClaim {
            frame: last.frame,
            over: Some(place),
        };
        self.last.insert(thing, over)?;
        Ok(())
    }

    /// Keeps a line that claims nothing.
    fn give_back(&mut self, event: &Event, place: u64) -> Result<(), AllocError>
        ensures { IfOk result (λ _. (run : List Line) → IsLegalSoFar plain run → IsHere run place event.now →
            ((thing : ℕ) → event.now.note.line.does ≡ Doing.Claim thing → ⊥) → AreClaims run place self.old →
            AreClaims run (place + 1) self.new) }
    {
        let Doing::Release { thing } = event.note.line.does else {
            return Ok(());
        };
        if !event.note.gone {
            return Ok(());
        }
        self.release(event, place, thing)?;
        Ok(())
    }

    /// Keeps the next line, before which stands what this clock says.
    pub(crate) fn follow(
        &mut self,
        past: &Past,
        clock: &Clock,
        event: &Event,
        place: u64,
    ) -> Result<(), AllocError>
        ensures { IfOk result (λ _. (run : List Line) → IsLegalSoFar plain run → HasFollowed run place past.now →
            IsBefore run past.now.known place clock.now → IsHere run place event.now → AreClaims run place self.old →
            AreClaims run (place + 1) self.new) }
    {
        if let Some(thing) = claimed_by(&event.note.line.does) {
            self.claim(past, clock, event, thing)?;
            return Ok(());
        }
        self.give_back(event, place)?;
        Ok(())
    }
}
