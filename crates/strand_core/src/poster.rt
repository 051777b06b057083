ghost use Rattle.std.specs.Prelude.{◌≡◌, ℕ, List, [], ◌∷◌, ◌++◌};
ghost use Rattle.strand_core.specs.declared.posted.Posted.{Posted};

use crate::answered::Answered;
use asio_types::{ActNo, Code, OpNo};
use op_handlers::Ran;

/// What is told of an execution as it goes on: when its handler is called, which operations that
/// one initiates, and when it returns (Asio reference, "Requirements on asynchronous operations").
/// `call` of an act that stops the context stops it too.
pub trait Poster {
    /// The calls made so far.
    ghost made: { Self → List Posted };

    /// Whether it takes these calls next.
    ghost takes: { Self → List Posted → Type 0 };

    /// A handler begins; answers the position of this begin.
    fn begin(&mut self, op: OpNo, code: Code, size: u32) -> u64
        requires { (begun : ℕ) → takes self.old (Posted.Begin op code size begun ∷ []) }
        ensures made { made self.new ≡ made self.old ++ Posted.Begin op code size result ∷ [] }
        ensures rest { (rest : List Posted) →
            takes self.old (Posted.Begin op code size result ∷ rest) → takes self.new rest };

    /// An act of the handler that executes is initiated, which has answered before.
    fn call(&mut self, act: ActNo, answered: &Answered)
        requires { takes self.old (Posted.Call act ∷ []) }
        ensures made { made self.new ≡ made self.old ++ Posted.Call act ∷ [] }
        ensures rest { (rest : List Posted) → takes self.old (Posted.Call act ∷ rest) →
            takes self.new rest };

    /// The initiating call has returned.
    fn back(&mut self, act: ActNo)
        requires { takes self.old (Posted.Back act ∷ []) }
        ensures made { made self.new ≡ made self.old ++ Posted.Back act ∷ [] }
        ensures rest { (rest : List Posted) → takes self.old (Posted.Back act ∷ rest) →
            takes self.new rest };

    /// The handler has answered.
    fn end(&mut self, op: OpNo, ran: Ran)
        requires { takes self.old (Posted.End op ran ∷ []) }
        ensures made { made self.new ≡ made self.old ++ Posted.End op ran ∷ [] }
        ensures rest { (rest : List Posted) → takes self.old (Posted.End op ran ∷ rest) →
            takes self.new rest };

    /// A first part of what it takes is taken too.
    ghost first_part: { (poster : Self) (first rest : List Posted) → takes poster (first ++ rest) → takes poster first };
}
