ghost use Rattle.std.specs.Prelude.{◌≡◌, ℕ, map, length, string_bytes};
ghost use Rattle.op_handlers.specs.Rack.{IsWholeRack, handlers_in};
ghost use Rattle.session_script.specs.Limits.{most_acts};
ghost use Rattle.session_run.specs.Answer.{LeavesAll, LeavesReactor};
ghost use Rattle.session_run.specs.Form.{IsGen, IsUpgrade};
ghost use Rattle.session_run.specs.Given.{seen_reactor};
ghost use Rattle.session_run.specs.Session.{IsSession};
ghost use Rattle.session_run.specs.declared.status.Status.TheVariants as status;
ghost use Rattle.text_io.specs.Seen.{seen_by};

use crate::context_kind::ContextKind;
use crate::one_session::session_on;
use crate::status::Status;
use asio_types::{Sink, Source};
use op_handlers::{CompletionHandler, Rack};
use reactor_trait::Reactor;
use std::alloc::Global;
use std::sync::Wait;
use std::thread::Threads;

/// Does what the words say, which are those behind the program's name. `run` reads a script from
/// the source and runs it on one io_context over the reactor, with the handlers of the rack: each
/// round by as many threads as it names, as far as the system has them, so that handlers of
/// different strands may execute at the same time; and it writes its trace to out. A session that
/// names one worker in every round stays in the calling thread, without a lock, as an io_context made
/// with a `concurrency_hint` of 1 does. `run --net` does the same; whoever makes the reactor sees by it what is asked for (`asks_for_sockets`). `gen START
/// SIZE` makes a script from two numbers, START to 65,536 and SIZE from 1 to 1,024, both without
/// leading zeros; it reads nothing, runs the script so, and writes the summary of its history.
/// `upgrade` reads a script and writes its text in version 2 to out, its words with one space between
/// two, and one line feed; it runs nothing, and leaves rack and reactor as they were. The status says
/// how far this went, with its cause; the notes get the status's note, and change no status. The
/// reactor comes back.
///
/// Reads at most `MOST_READ` bytes. With the statuses 1, 2, 3 and 6 nothing was run and nothing
/// written; with 0, 4 and 5 every handler was spent by `run` and `gen`, and none by `upgrade`. A
/// reactor that can't be set up gives the history `fault` alone. Memory is taken for the text, the
/// script, and the context with its history or the upgrade with its text, before the first handler
/// runs and before anything is written. May wait, as a guard that is never released does.
///
/// In `crates/prime_count/src/main.rt`:
///
/// ```rust
/// let words = [String::from_str(alloc, "run")?];
/// let mut source = SureSource::make(alloc, script.as_bytes())?;
/// let mut out = TextSink::make(alloc, ROOM, &[])?;
/// let mut notes = SureSink::make(alloc, ROOM)?;
/// ..
/// let reactor = SilentReactor::empty(alloc);
/// let (status, _) = asio_session(
///     rt,
///     alloc,
///     &words,
///     &mut source,
///     &mut out,
///     &mut notes,
///     reactor,
///     rack,
/// );
/// ```
pub fn asio_session<
    R: Threads + Wait + Sync,
    S: Source,
    K: Sink,
    N: Sink,
    X: Reactor + Send,
    H: CompletionHandler + Send,
>(
    rt: &R,
    alloc: Global,
    words: &[String],
    source: &mut S,
    out: &mut K,
    notes: &mut N,
    reactor: X,
    rack: &mut Rack<H>,
) -> (Status, X)
    requires whole { IsWholeRack rack.old }
    requires count { length (handlers_in rack.old) ≡ most_acts }
    ensures session { IsSession H.marks (record {
      words = map string_bytes words.now;
      source = seen_by S.left S.faults source.old source.new;
      out = seen_by K.written K.faults out.old out.new;
      reactor = seen_reactor X.state X.told X.faults reactor result.1;
      rack_before = rack.old;
      rack_after = rack.new;
    }) (seen_by N.written N.faults notes.old notes.new) result.0 }
    // With these statuses nothing was written, and with these the reactor wasn't called.
    ensures quiet { LeavesAll result.0 → out.new ≡ out.old }
    ensures unmoved { LeavesReactor result.0 → result.1 ≡ reactor }
    ensures upgraded { IsUpgrade (map string_bytes words.now) → result.1 ≡ reactor }
    // Other words, and those of two numbers, read nothing.
    ensures unread { result.0 ≡ status.Usage → source.new ≡ source.old }
    ensures unasked { (start size : ℕ) →
        IsGen (map string_bytes words.now) start size → source.new ≡ source.old }
{
    session_on(
        rt,
        alloc,
        ContextKind::Hinted,
        words,
        source,
        out,
        notes,
        reactor,
        rack,
    )
}

/// The same session, promised in the same words, on the io_context with one lock: a handler executes
/// inside one hold of it, so no two do at the same time. It is called as `asio_session` is.
pub fn book_session<
    R: Threads + Wait + Sync,
    S: Source,
    K: Sink,
    N: Sink,
    X: Reactor + Send,
    H: CompletionHandler + Send,
>(
    rt: &R,
    alloc: Global,
    words: &[String],
    source: &mut S,
    out: &mut K,
    notes: &mut N,
    reactor: X,
    rack: &mut Rack<H>,
) -> (Status, X)
    requires whole { IsWholeRack rack.old }
    requires count { length (handlers_in rack.old) ≡ most_acts }
    ensures session { IsSession H.marks (record {
      words = map string_bytes words.now;
      source = seen_by S.left S.faults source.old source.new;
      out = seen_by K.written K.faults out.old out.new;
      reactor = seen_reactor X.state X.told X.faults reactor result.1;
      rack_before = rack.old;
      rack_after = rack.new;
    }) (seen_by N.written N.faults notes.old notes.new) result.0 }
    // With these statuses nothing was written, and with these the reactor wasn't called.
    ensures quiet { LeavesAll result.0 → out.new ≡ out.old }
    ensures unmoved { LeavesReactor result.0 → result.1 ≡ reactor }
    ensures upgraded { IsUpgrade (map string_bytes words.now) → result.1 ≡ reactor }
    // Other words, and those of two numbers, read nothing.
    ensures unread { result.0 ≡ status.Usage → source.new ≡ source.old }
    ensures unasked { (start size : ℕ) →
        IsGen (map string_bytes words.now) start size → source.new ≡ source.old }
{
    session_on(
        rt,
        alloc,
        ContextKind::OneLock,
        words,
        source,
        out,
        notes,
        reactor,
        rack,
    )
}
