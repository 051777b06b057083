ghost use Rattle.std.specs.Prelude.{◌≡◌, ◌+◌};
ghost use Rattle.io_rules.specs.Room.{one_if};

use io_history::{Claim, Named};
use io_rules::{Lane, Spares};
use std::marker::Model;

/// That the handler of an operation executes, by whoever has this; it goes back to the scheduler when the
/// handler has returned. Contracts see the operation, how many more it may initiate, and the history when
/// this was given out.
pub struct Running<C: Named> {
    pub(crate) claim: Claim<C>,
    pub(crate) op: u64,
    pub(crate) lane: Lane,
    // whether the place of its own operation is left to it
    pub(crate) own: bool,
    // how many places besides
    pub(crate) grant: u32,
    pub(crate) spares: Spares,
}

impl<C: Named> Model for Running<C> {
    ghost use Rattle.std.specs.Prelude.{◌+◌};
    ghost use Rattle.io_rules.specs.Room.{one_if};
    ghost use Rattle.io_scheduler.specs.Running.{Execution, IsExecution};

    ghost Value = { Execution };

    ghost view = { λ r. record {
      op = r.op;
      lane = r.lane;
      places = one_if r.own + r.grant;
      spares = r.spares;
      held = r.claim.held;
      told = r.claim.told;
    } };

    ghost invariant = { λ r. IsExecution r.op r.lane r.own r.grant r.spares r.claim.held };
}

impl<C: Named> Running<C> {
    /// How many operations its handler may initiate.
    pub fn places(&self) -> u64
        ensures { result ≡ self.now.places }
    {
        places_of(self.own, self.grant)
    }

    /// The names under which its handler may make something.
    pub fn spares(&self) -> Spares
        ensures { result ≡ self.now.spares }
    {
        self.spares
    }

    /// Where it executes.
    pub(crate) fn lane(&self) -> Lane
        ensures { result ≡ self.now.lane }
    {
        self.lane
    }
}

/// As many places as there are besides, and perhaps its own.
pub(crate) fn places_of(own: bool, grant: u32) -> u64
    ensures { result ≡ one_if own + grant }
{
    let besides = u64::from(grant);
    if own { besides + 1 } else { besides }
}
