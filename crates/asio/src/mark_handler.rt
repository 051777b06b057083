ghost use Rattle.std.specs.Prelude.{◌≡◌, ◌+◌, ◌<◌, ◌^◌, IfOk, length};
ghost use Rattle.op_handlers.specs.Rack.{IsWholeRack, handlers_in};
ghost use Rattle.session_script.specs.Limits.{most_acts};

use asio_types::{NoMemory, class_of};
use op_handlers::{Call, CompletionHandler, Rack, Ran};
use session_script::MOST_ACTS;
use std::alloc::Global;

/// A handler that does nothing but answer its mark, 1000 and the number of its act: as those of
/// `asio_run`.
pub(crate) struct MarkHandler {
    act: u32,
}

impl CompletionHandler for MarkHandler {
    ghost marks = { λ h. record { run = λ _. 1000 + h.act; drop = 1000 + h.act } };

    fn call(self, call: Call) -> Ran {
        let MarkHandler { act } = self;
        Ran {
            mark: 1000 + u64::from(act),
            class: class_of(call.code),
            begun: call.begun,
        }
    }

    fn discard(self) -> u64 {
        let MarkHandler { act } = self;
        1000 + u64::from(act)
    }
}

/// A handler for each act that a script may have.
pub(crate) fn mark_handlers(alloc: Global) -> Result<Rack<MarkHandler>, NoMemory>
    ensures whole { IfOk result IsWholeRack }
    ensures count { IfOk result (λ rack. length (handlers_in rack) ≡ most_acts) }
{
    let mut handlers = Vec::with_capacity(alloc, MOST_ACTS as usize)?;
    for act in 0..MOST_ACTS {
        handlers.push_reserved(Some(MarkHandler { act }));
    }
    Ok(Rack::of(handlers))
}
