//! Handlers with the marks 1000 and up, one of which looks for a flag.
ghost use Rattle.std.specs.Prelude.{◌≡◌, length};
ghost use Rattle.op_handlers.specs.Rack.{IsWholeRack, handlers_in};
ghost use Rattle.session_script.specs.Limits.{most_acts};

use asio_types::{OpNo, class_of};
use op_handlers::{Call, CompletionHandler, Rack, Ran};
use session_script::MOST_ACTS;
use std::alloc::Global;
use std::process::Abort;
use std::sync::atomic::{AtomicBool, Ordering};

/// What a handler looks for, and what it writes when it saw it.
#[derive(Clone, Copy)]
pub(crate) struct Lookout<'w> {
    /// The operation whose handler looks.
    pub(crate) op: OpNo,
    pub(crate) flag: &'w AtomicBool,
    pub(crate) seen: &'w AtomicBool,
}

/// The most times that a handler looks.
const LOOKS: u32 = 50_000_000;

/// A handler that may look for a flag.
pub(crate) struct Looking<'w> {
    number: u64,
    lookout: Lookout<'w>,
}

/// Looks for the flag until it is raised, so many times at most.
fn look(lookout: Lookout<'_>) {
    for _ in 0..LOOKS {
        if lookout.flag.load(Ordering::SeqCst) {
            lookout.seen.store(true, Ordering::SeqCst);
            return;
        }
    }
}

impl<'w> CompletionHandler for Looking<'w> {
    ghost marks = { λ h. record { run = λ _. h.number; drop = h.number } };

    fn call(self, call: Call) -> Ran {
        let Looking { number, lookout } = self;
        if call.op == lookout.op {
            look(lookout);
        }
        Ran {
            mark: number,
            class: class_of(call.code),
            begun: call.begun,
        }
    }

    fn discard(self) -> u64 {
        let Looking { number, lookout: _ } = self;
        number
    }
}

/// A whole rack, number n with the marks 1000 + n.
pub(crate) fn looking_rack<'w, R: Abort>(
    rt: &R,
    alloc: Global,
    lookout: Lookout<'w>,
) -> Rack<Looking<'w>>
    ensures whole { IsWholeRack result }
    ensures count { length (handlers_in result) ≡ most_acts }
{
    let mut handlers = Vec::with_capacity(alloc, MOST_ACTS as usize).expect(rt, "memory");
    for n in 0..MOST_ACTS as u64 {
        let number = 1000 + n;
        handlers.push_reserved(Some(Looking { number, lookout }));
    }
    Rack::of(handlers)
}
