ghost use Rattle.std.specs.Prelude.{◌≡◌};
ghost use Rattle.asio_types.specs.Code.{class_of_code};

use op_handlers::{Call, CompletionHandler, Ran};
use std::marker::Model;

/// That a handler was called, and what it answered. Only a call of a handler gives one. Whoever is
/// told the acts of an execution is told them with this: so the handler was called before its acts
/// were (Asio reference, "Requirements on asynchronous operations").
#[derive(Drop)]
pub struct Answered {
    ran: Ran,
}

impl Model for Answered {
    ghost use Rattle.op_handlers.specs.declared.call.Ran.{Ran};

    ghost Value = { Ran };

    ghost view = { λ a. a.ran };
}

impl Answered {
    /// Calls a handler.
    pub(crate) fn by<H: CompletionHandler>(handler: H, call: Call) -> Answered
        ensures mark { result.mark ≡ (H.marks handler).run call }
        ensures class { result.class ≡ class_of_code call.code }
        ensures begun { result.begun ≡ call.begun }
    {
        Answered {
            ran: handler.call(call),
        }
    }

    /// What it answered.
    pub fn ran(&self) -> Ran
        ensures { result ≡ self.now }
    {
        self.ran
    }
}
