//! Sessions over a silent reactor, with handlers that note their call.

ghost use Rattle.std.specs.Prelude.{◌≡◌, length};
ghost use Rattle.op_handlers.specs.Rack.{IsWholeRack, handlers_in};
ghost use Rattle.session_script.specs.Limits.{most_acts};

use crate::sessions::{Call, ROOM, call_session, notes_of, words_of};
use crate::wanted::{MEMORY, text_of};
use asio_types::{Sink, Source, SureSink, SureSource, class_of};
use op_handlers::{CompletionHandler, Rack, Ran};
use reactor_trait::SilentReactor;
use session_run::Status;
use session_script::MOST_ACTS;
use std::alloc::Global;
use std::process::Abort;
use std::sync::Wait;
use std::sync::atomic::{AtomicU64, Ordering};
use std::thread::Threads;

/// The operation and the position of the last call of a handler.
#[derive(Drop)]
struct LastCall {
    op: AtomicU64,
    begun: AtomicU64,
}

impl LastCall {
    /// Where none was called.
    fn none() -> LastCall {
        LastCall {
            op: AtomicU64::new(0),
            begun: AtomicU64::new(0),
        }
    }

    fn note(&self, call: op_handlers::Call) {
        self.op.store(u64::from(call.op), Ordering::SeqCst);
        self.begun.store(call.begun, Ordering::SeqCst);
    }

    fn seen(&self) -> (u64, u64) {
        (
            self.op.load(Ordering::SeqCst),
            self.begun.load(Ordering::SeqCst),
        )
    }
}

/// A handler that notes its call.
struct Noting<'a> {
    number: u64,
    last: &'a LastCall,
}

impl<'a> CompletionHandler for Noting<'a> {
    ghost marks = { λ h. record { run = λ _. h.number; drop = h.number } };

    fn call(self, call: op_handlers::Call) -> Ran {
        let Noting { number, last } = self;
        last.note(call);
        Ran {
            mark: number,
            class: class_of(call.code),
            begun: call.begun,
        }
    }

    fn discard(self) -> u64 {
        let Noting { number, last: _ } = self;
        number
    }
}

/// A whole rack, number n with the marks 1000 + n.
fn rack_of<'a, R: Abort>(rt: &R, alloc: Global, last: &'a LastCall) -> Rack<Noting<'a>>
    ensures whole { IsWholeRack result }
    ensures count { length (handlers_in result) ≡ most_acts }
{
    let mut handlers = Vec::with_capacity(alloc, MOST_ACTS as usize).expect(rt, MEMORY);
    for n in 0..MOST_ACTS as u64 {
        let number = 1000 + n;
        handlers.push_reserved(Some(Noting { number, last }));
    }
    Rack::of(handlers)
}

/// What a session left, but for what it wrote.
#[derive(Drop)]
pub(crate) struct Silent {
    pub(crate) status: Status,
    pub(crate) note: String,
    /// Whether no handler was taken.
    pub(crate) whole: bool,
    /// The operation and the position of the last call of a handler, 0 and 0 where none was called.
    pub(crate) last: (u64, u64),
}

/// A session with these words, this source and this out, over a silent reactor.
pub(crate) fn silent_session<R: Abort + Threads + Wait + Sync, S: Source, K: Sink>(
    rt: &R,
    alloc: Global,
    call: Call,
    words: &str,
    source: &mut S,
    out: &mut K,
) -> Silent {
    let words = words_of(rt, alloc, words);
    let last = LastCall::none();
    let mut notes = notes_of(rt, alloc);
    let mut rack = rack_of(rt, alloc, &last);
    let (status, _) = call_session(
        rt,
        alloc,
        call,
        words.as_slice(),
        source,
        out,
        &mut notes,
        SilentReactor::empty(alloc),
        &mut rack,
    );
    let whole = rack.is_whole();
    rack.discard_all();
    Silent {
        status,
        note: text_of(rt, alloc, notes.bytes()),
        whole,
        last: last.seen(),
    }
}

/// A session in memory, and what it wrote.
pub(crate) fn silent_text<R: Abort + Threads + Wait + Sync>(
    rt: &R,
    alloc: Global,
    call: Call,
    words: &str,
    text: &str,
) -> (Silent, String) {
    let mut source = SureSource::make(alloc, text.as_bytes()).expect(rt, MEMORY);
    let mut out = SureSink::make(alloc, ROOM).expect(rt, MEMORY);
    let left = silent_session(rt, alloc, call, words, &mut source, &mut out);
    (left, text_of(rt, alloc, out.bytes()))
}
