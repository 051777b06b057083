ghost use Rattle.std.specs.Prelude.{◌≡◌, ◌+◌, [], length, IfNone, IfSome, None};
ghost use Rattle.io_rules.specs.Legal.{IsLegal, IsWhole, state_of};
ghost use Rattle.io_scheduler.specs.Left.{WasDropped};

use crate::outside::note_of;
use crate::states::States;
use io_handlers::Handler;
use io_history::{HistoryTable, Keeper, Named};
use io_strands::{ReadyOp, Strand};
use std::collections::VecDeque;
use std::marker::{Brand, Model};

/// What is left of a context that is being destroyed: handlers that never executed, and states of strands.
/// Contracts see the state of its history so far.
pub struct Remains<H: Handler, C: Named> {
    pub(crate) keeper: Keeper<C>,
    // by rising number
    pub(crate) left: VecDeque<ReadyOp<H>>,
    pub(crate) strands: Vec<Strand<H, H::State>>,
}

impl<H: Handler, C: Named> Model for Remains<H, C> {
    ghost use Rattle.std.specs.Prelude.{◌≡◌, true, None};
    ghost use Rattle.io_rules.specs.Legal.{state_of};
    ghost use Rattle.io_rules.specs.State.{ContextState};
    ghost use Rattle.io_scheduler.specs.Left.{AreLeft, NoneReady};

    ghost Value = { ContextState };

    ghost view = { λ r. state_of C.limits r.keeper.past };

    ghost invariant = { λ r. (r.keeper.held ≡ None)
        × ((state_of C.limits r.keeper.past).finishing ≡ true)
        × AreLeft H.marks r.left.items (state_of C.limits r.keeper.past).ops
        × NoneReady r.strands.items };
}

impl<H: Handler, C: Named> Remains<H, C> {
    /// The handler of the operation with the least number that is left is dropped, and comes out, to be
    /// discarded; `None` exactly where none is left.
    pub fn drop_next(&mut self, table: &HistoryTable) -> Option<H>
        requires { table.now ≡ C.table }
        ensures dropped { IfSome result (λ handler. WasDropped H.marks self.old self.new handler) }
        ensures fewer { IfSome result (λ handler. length self.old.ops ≡ length self.new.ops + 1) }
        ensures none { IfNone result (self.old.ops ≡ []) }
        ensures same { IfNone result (self.new ≡ self.old) }
    {
        match self.left.pop_front() {
            None => None,
            Some(ready) => {
                note_of::<H, C, Brand>(table, &mut self.keeper, &ready);
                let ReadyOp {
                    number: _,
                    code: _,
                    size: _,
                    buffer: _,
                    made: _,
                    handler,
                } = ready;
                Some(handler)
            }
        }
    }

    /// All handlers are dropped: the history is whole, and the states of strands are to be retired.
    pub fn into_parts(self) -> (Keeper<C>, States<H, H::State>)
        requires { self.ops ≡ [] }
        ensures whole { IsWhole (state_of C.limits result.0.past) }
        ensures history { state_of C.limits result.0.past ≡ self }
        ensures none { result.0.held ≡ None }
    {
        let Remains {
            keeper,
            left,
            strands,
        } = self;
        left.destroy_empty();
        (keeper, States { strands })
    }
}
