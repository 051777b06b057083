//! Handlers whose marks are known.

ghost use Rattle.std.specs.Prelude.{◌≡◌, length};
ghost use Rattle.op_handlers.specs.Rack.{IsWholeRack, handlers_in};
ghost use Rattle.session_tests.specs.Told.{told_by};

use asio_types::{Code, class_of};
use op_handlers::{Call, CompletionHandler, Rack, Ran};
use std::alloc::Global;
use std::process::Abort;

/// A handler with the marks that it answers; or its run mark tells what it was called with.
#[derive(Clone, Copy)]
pub(crate) struct Marked {
    pub(crate) run: u64,
    pub(crate) drop: u64,
    pub(crate) tells: bool,
}

/// The operation, then two digits of the size, one of the code, and two of the position of the begin.
fn told_by(call: Call) -> u64
    ensures { result ≡ told_by call }
{
    let code = match call.code {
        Code::Ok => 0,
        Code::Aborted => 1,
        _ => 2,
    };
    ((u64::from(call.op) * 100 + u64::from(call.size)) * 10 + code) * 100 + call.begun % 100
}

impl CompletionHandler for Marked {
    ghost use Rattle.std.specs.Prelude.{if◌then◌else◌};

    ghost marks = { λ h. record {
      run = λ call. if h.tells then told_by call else h.run;
      drop = h.drop;
    } };

    fn call(self, call: Call) -> Ran {
        let mark = if self.tells { told_by(call) } else { self.run };
        Ran {
            mark,
            class: class_of(call.code),
            begun: call.begun,
        }
    }

    fn discard(self) -> u64 {
        self.drop
    }
}

/// The marks of all handlers: those of number 0, and by how much each next one has more; or the run
/// marks tell what the handlers were called with.
#[derive(Clone, Copy)]
pub(crate) struct Marks {
    pub(crate) run: u16,
    pub(crate) run_step: u8,
    pub(crate) drop: u16,
    pub(crate) drop_step: u8,
    pub(crate) tells: bool,
}

/// Number n has the marks 1000 + n.
pub(crate) const PLAIN: Marks = Marks {
    run: 1000,
    run_step: 1,
    drop: 1000,
    drop_step: 1,
    tells: false,
};

/// The run marks tell what the handlers were called with.
pub(crate) const TELLING: Marks = Marks {
    run: 1000,
    run_step: 1,
    drop: 1000,
    drop_step: 1,
    tells: true,
};

impl Marks {
    /// The handler with this number.
    fn handler(self, number: u32) -> Marked {
        Marked {
            run: u64::from(self.run) + u64::from(number) * u64::from(self.run_step),
            drop: u64::from(self.drop) + u64::from(number) * u64::from(self.drop_step),
            tells: self.tells,
        }
    }
}

/// A rack of so many handlers with these marks.
pub(crate) fn rack_of<R: Abort>(rt: &R, alloc: Global, count: u32, marks: Marks) -> Rack<Marked>
    ensures whole { IsWholeRack result }
    ensures count { length (handlers_in result) ≡ count }
{
    let mut handlers = Vec::with_capacity(alloc, count as usize).expect(rt, "memory for a test");
    for n in 0..count {
        handlers.push_reserved(Some(marks.handler(n)));
    }
    Rack::of(handlers)
}
