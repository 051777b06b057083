//! Handlers whose marks are known: number n has the marks 1000 + n.

ghost use Rattle.std.specs.Prelude.{◌≡◌, length};
ghost use Rattle.op_handlers.specs.Rack.{IsWholeRack, handlers_in};
ghost use Rattle.session_script.specs.Limits.{most_acts};

use crate::gate::Gate;
use crate::wanted::MEMORY;
use asio_types::class_of;
use op_handlers::{Call, CompletionHandler, Rack, Ran};
use session_script::MOST_ACTS;
use std::alloc::Global;
use std::process::Abort;

/// A handler that knows its number. It passes a gate, if it has one.
#[derive(Clone, Copy)]
pub(crate) struct Numbered<'a> {
    number: u32,
    gate: Option<&'a Gate>,
}

impl<'a> CompletionHandler for Numbered<'a> {
    ghost use Rattle.std.specs.Prelude.{◌+◌};

    ghost marks = { λ h. record { run = λ _. 1000 + h.number; drop = 1000 + h.number } };

    fn call(self, call: Call) -> Ran {
        if let Some(gate) = self.gate {
            gate.pass_as(self.number);
        }
        Ran {
            mark: 1000 + u64::from(self.number),
            class: class_of(call.code),
            begun: call.begun,
        }
    }

    fn discard(self) -> u64 {
        1000 + u64::from(self.number)
    }
}

/// A whole rack of them.
pub(crate) fn rack_of<'a, R: Abort>(
    rt: &R,
    alloc: Global,
    gate: Option<&'a Gate>,
) -> Rack<Numbered<'a>>
    ensures whole { IsWholeRack result }
    ensures count { length (handlers_in result) ≡ most_acts }
{
    let mut handlers = Vec::with_capacity(alloc, MOST_ACTS as usize).expect(rt, MEMORY);
    for number in 0..MOST_ACTS {
        handlers.push_reserved(Some(Numbered { number, gate }));
    }
    Rack::of(handlers)
}
