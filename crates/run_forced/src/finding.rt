ghost use Rattle.std.specs.Prelude.{◌≡◌, ◌+◌, ℕ, IfOk, List, length, reverse};
ghost use Rattle.std.specs.List.{All};
ghost use Rattle.run_lines.specs.declared.line.Line.{Line};
ghost use Rattle.run_rules.specs.Legal.{IsLegalSoFar};
ghost use Rattle.run_orders.specs.Laws.{NeverOverlaps};
ghost use Rattle.run_orders.specs.Orders.{plain};
ghost use Rattle.run_forced.specs.Claims.{AreClaims};
ghost use Rattle.run_forced.specs.Events.{AreEvents, IsHere};

use crate::claims::Claims;
use crate::event::Event;
use crate::past::Past;
use std::alloc::{AllocError, Global};

/// A run as far as its lines were followed.
#[derive(Drop)]
struct Following {
    past: Past,
    claims: Claims,
}

impl Following {
    ghost use Rattle.run_forced.specs.Finding.{IsFollowed};

    fn new(alloc: Global) -> Following
        ensures { (run : List Line) → IsFollowed run 0 result }
    {
        Following {
            past: Past::new(alloc),
            claims: Claims::new(alloc),
        }
    }

    /// Follows the next line.
    fn follow(&mut self, alloc: Global, event: &Event, place: u64) -> Result<(), AllocError>
        ensures { IfOk result (λ _. (run : List Line) → IsLegalSoFar plain run → IsHere run place event.now →
            IsFollowed run place self.old → IsFollowed run (place + 1) self.new) }
    {
        let clock = self.past.clock_of(alloc, event)?;
        self.claims.follow(&self.past, &clock, event, place)?;
        self.past.follow(alloc, event, place, clock)?;
        Ok(())
    }
}

/// The claims of a run.
fn claims_of(alloc: Global, events: &[Event]) -> Result<Claims, AllocError>
    ensures { IfOk result (λ claims. (run : List Line) → IsLegalSoFar plain run → AreEvents run (reverse events.now) →
        AreClaims run (length run) claims) }
{
    let mut following = Following::new(alloc);
    let mut at: usize = 0;
    while at < events.len() {
        following.follow(alloc, &events[at], at as u64)?;
        at += 1;
    }
    Ok(following.claims)
}

/// Keeps a thing, unless it is mixed.
fn keep(claims: &Claims, thing: u64, ordered: &mut Vec<u64>) -> Result<(), AllocError>
    ensures { IfOk result (λ _. (run : List Line) → IsLegalSoFar plain run → AreClaims run (length run) claims.now →
        All (NeverOverlaps run) ordered.old.items → All (NeverOverlaps run) ordered.new.items) }
{
    if !claims.is_mixed(thing) {
        ordered.push(thing)?;
    }
    Ok(())
}

/// Those of these things of which each claim is given back before the next one in each order of the
/// run, of which these are the events: no order of the run overlaps their claims. It goes through the
/// events once.
pub fn find_ordered(alloc: Global, events: &[Event], things: &[u64]) -> Result<Vec<u64>, AllocError>
    ensures { IfOk result (λ ordered. (run : List Line) → IsLegalSoFar plain run → AreEvents run (reverse events.now) →
        All (NeverOverlaps run) ordered.items) }
{
    let claims = claims_of(alloc, events)?;
    let mut ordered = Vec::new(alloc);
    for thing in things {
        keep(&claims, *thing, &mut ordered)?;
    }
    Ok(ordered)
}
