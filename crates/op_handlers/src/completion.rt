ghost use Rattle.std.specs.Prelude.{◌≡◌};
ghost use Rattle.asio_types.specs.Code.{class_of_code};
ghost use Rattle.op_handlers.specs.Marks.{Marks};

use crate::call::{Call, Ran};
use crate::handler::Handler;

/// A handler that is spent once, for code that is generic in it: a type over a bound whose facts
/// name that bound's members holds an `H: CompletionHandler`, where it could not hold the boxed
/// `Handler` itself.
///
/// In `crates/prime_count/src/counter.rt`:
///
/// ```rust
/// impl<'a> CompletionHandler for Counter<'a> {
/// ..
///     ghost marks = { λ h. record { run = told_mark h.number; drop = h.number } };
/// ..
///     fn call(self, call: Call) -> Ran {
///         let Counter { number, sum } = self;
/// ..
///         Ran {
///             mark: mark_told(number, call),
///             class: class_of(call.code),
///             begun: call.begun,
///         }
///     }
/// ..
///     fn discard(self) -> u64 {
///         let Counter { number, sum: _ } = self;
///         u64::from(number)
///     }
/// ```
pub trait CompletionHandler {
    /// The run mark, by the call that it gets, and the drop mark.
    ghost marks: { Self → Marks };

    /// Executes the handler.
    fn call(self, call: Call) -> Ran
        ensures mark { result.mark ≡ (marks self).run call }
        ensures class { result.class ≡ class_of_code call.code }
        ensures begun { result.begun ≡ call.begun };

    /// Destroys the handler without a call, and answers its drop mark.
    fn discard(self) -> u64
        ensures { result ≡ (marks self).drop };
}

impl CompletionHandler for Handler {
    ghost use Rattle.op_handlers.specs.Handler.{marks_of};

    ghost marks = { marks_of };

    fn call(self, call: Call) -> Ran {
        Handler::call(self, call)
    }

    fn discard(self) -> u64 {
        Handler::discard(self)
    }
}
