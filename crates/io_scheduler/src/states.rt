ghost use Rattle.std.specs.Prelude.{◌≡◌, ◌<◌, length, IfNone, IfSome};
ghost use Rattle.io_scheduler.specs.Left.{NoneReady};

use io_strands::Strand;
use std::marker::Model;

/// The states of strands when a context has been destroyed, each of which is to be retired. Contracts see
/// how many places are left to be looked at.
pub struct States<H, S> {
    pub(crate) strands: Vec<Strand<H, S>>,
}

impl<H, S> Model for States<H, S> {
    ghost use Rattle.std.specs.Prelude.{ℕ, length};
    ghost use Rattle.io_scheduler.specs.Left.{NoneReady};

    ghost Value = { ℕ };

    ghost view = { λ s. length s.strands.items };

    ghost invariant = { λ s. NoneReady s.strands.items };
}

impl<H, S> States<H, S> {
    /// One more state, and the memory of its strand is given back; `None` where none is left.
    pub fn next(&mut self) -> Option<S>
        ensures fewer { IfSome result (λ state. self.new < self.old) }
        ensures none { IfNone result (self.new ≡ 0) }
    {
        next_state(&mut self.strands)
    }

    /// Gives the rest of the memory back. None is left.
    pub fn destroy(self)
        requires { self ≡ 0 }
    {
        let States { strands } = self;
        strands.destroy_empty();
    }
}

/// The state of the last place that has one; the places behind it are given back.
fn next_state<H, S>(strands: &mut Vec<Strand<H, S>>) -> Option<S>
    requires { NoneReady strands.old.items }
    ensures idle { NoneReady strands.new.items }
    ensures fewer { IfSome result (λ state. length strands.new.items < length strands.old.items) }
    ensures none { IfNone result (length strands.new.items ≡ 0) }
{
    while let Some(last) = strands.pop() {
        let mut strand = last;
        let state = strand.close();
        strand.destroy();
        if let Some(state) = state {
            return Some(state);
        }
    }
    None
}
