//! Handlers that count how they are spent, and that may wait for others.

ghost use Rattle.std.specs.Prelude.{◌≡◌, length};
ghost use Rattle.op_handlers.specs.Rack.{IsWholeRack, handlers_in};
ghost use Rattle.session_script.specs.Limits.{most_acts};

use crate::wanted::MEMORY;
use asio_types::class_of;
use op_handlers::{Call, CompletionHandler, Rack, Ran};
use session_script::MOST_ACTS;
use std::alloc::Global;
use std::process::Abort;
use std::sync::atomic::{AtomicU64, Ordering};

/// How many handlers were executed, how many of them saw that as many were as each looks for, and how
/// many were discarded.
#[derive(Drop)]
pub(crate) struct Executions {
    count: AtomicU64,
    discards: AtomicU64,
    met: AtomicU64,
    /// How often each looks, and for how many in all.
    looks: u32,
    company: u64,
}

impl Executions {
    /// Where none was, and none looks for others.
    pub(crate) fn none() -> Executions {
        Executions::looking(0, 0)
    }

    /// Where none was, and each looks so often whether so many were, itself among them.
    pub(crate) fn looking(looks: u32, company: u64) -> Executions {
        Executions {
            count: AtomicU64::new(0),
            discards: AtomicU64::new(0),
            met: AtomicU64::new(0),
            looks,
            company,
        }
    }

    /// How many were so far.
    pub(crate) fn count(&self) -> u64 {
        self.count.load(Ordering::SeqCst)
    }

    /// How many were discarded so far.
    pub(crate) fn discards(&self) -> u64 {
        self.discards.load(Ordering::SeqCst)
    }

    /// How many saw as many as each looks for.
    pub(crate) fn met(&self) -> u64 {
        self.met.load(Ordering::SeqCst)
    }

    /// One more is executed, and looks for the others until it sees them or gives up.
    fn come(&self) {
        self.count.fetch_add(1, Ordering::SeqCst);
        for _ in 0..self.looks {
            if self.count() >= self.company {
                self.met.fetch_add(1, Ordering::SeqCst);
                return;
            }
        }
    }
}

/// A handler that counts its execution, and then waits for others.
pub(crate) struct Counting<'a> {
    number: u64,
    executions: &'a Executions,
}

impl<'a> CompletionHandler for Counting<'a> {
    ghost marks = { λ h. record { run = λ _. h.number; drop = h.number } };

    fn call(self, call: Call) -> Ran {
        let Counting { number, executions } = self;
        executions.come();
        Ran {
            mark: number,
            class: class_of(call.code),
            begun: call.begun,
        }
    }

    fn discard(self) -> u64 {
        let Counting { number, executions } = self;
        executions.discards.fetch_add(1, Ordering::SeqCst);
        number
    }
}

/// A whole rack, number n with the marks n.
pub(crate) fn counting_rack<'a, R: Abort>(
    rt: &R,
    alloc: Global,
    executions: &'a Executions,
) -> Rack<Counting<'a>>
    ensures whole { IsWholeRack result }
    ensures count { length (handlers_in result) ≡ most_acts }
{
    let mut handlers = Vec::with_capacity(alloc, MOST_ACTS as usize).expect(rt, MEMORY);
    for number in 0..MOST_ACTS as u64 {
        handlers.push_reserved(Some(Counting { number, executions }));
    }
    Rack::of(handlers)
}
