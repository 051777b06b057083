ghost use Rattle.std.specs.Prelude.{◌≡◌};

use crate::completion::Completion;
use crate::initiator::Initiator;

/// A completion handler (Asio reference, "Requirements on asynchronous operations"): executed once, or
/// destroyed once. The library can neither lose nor repeat it. It is mostly an enum of the program's.
pub trait Handler: Sized {
    ghost use Rattle.io_rules.specs.declared.request.Marks.{Marks};
    ghost use Rattle.io_handlers.specs.Initiated.{Initiated};
    ghost use Rattle.io_handlers.specs.declared.completion.Completion.{Completion};

    /// What a strand keeps for its handlers, which never execute at the same time.
    type State;

    /// What it returns when it is called, and when it is discarded.
    ghost marks: { Self → Marks };

    /// What it may do on a strand: to the strand's state, and what it may initiate.
    ghost may: { Self → Completion → Self.State → Self.State →
        Initiated Self Self.State → Initiated Self Self.State → Type 0 };

    /// What it may initiate where it executes on no strand.
    ghost may_free: { Self → Completion → Initiated Self Self.State → Initiated Self Self.State → Type 0 };

    /// Executes it on its strand, and answers its run mark.
    fn call(
        self,
        done: Completion,
        state: &mut Self::State,
        io: &mut Initiator<Self, Self::State>,
    ) -> u64
        ensures may { may self done state.old state.new io.old io.new }
        ensures grant { io.new.granted ≡ io.old.granted }
        ensures kept { io.new.kept ≡ io.old.kept }
        ensures mark { result ≡ (marks self).run };

    /// Executes it on no strand, and answers its run mark.
    fn call_free(self, done: Completion, io: &mut Initiator<Self, Self::State>) -> u64
        ensures may { may_free self done io.old io.new }
        ensures grant { io.new.granted ≡ io.old.granted }
        ensures kept { io.new.kept ≡ io.old.kept }
        ensures mark { result ≡ (marks self).run };

    /// Destroys it without a call, and answers its drop mark.
    fn discard(self) -> u64
        ensures { result ≡ (marks self).drop };

    /// Spends the state of a strand that is gone.
    fn retire(state: Self::State);
}
