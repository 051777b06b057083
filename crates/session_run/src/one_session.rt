//! A session on an io_context of either kind.
ghost use Rattle.std.specs.Prelude.{◌≡◌, ℕ, map, length, string_bytes};
ghost use Rattle.op_handlers.specs.Rack.{IsWholeRack, handlers_in};
ghost use Rattle.session_script.specs.Limits.{most_acts, most_read};
ghost use Rattle.session_run.specs.Answer.{CountsReactor, CountsReads, CountsWrites, LeavesAll, LeavesReactor, Says};
ghost use Rattle.session_run.specs.Ending.{note_at, status_of};
ghost use Rattle.session_run.specs.Form.{HasNumbersWithin, IsGen, IsUpgrade};
ghost use Rattle.session_run.specs.Given.{seen_reactor};
ghost use Rattle.session_run.specs.Outcome.{CountsRunning, CountsWriting, Works};
ghost use Rattle.session_run.specs.Session.{IsSession};
ghost use Rattle.session_run.specs.declared.form.Form.TheVariants as form_is;
ghost use Rattle.session_run.specs.declared.status.Status.TheVariants as status;
ghost use Rattle.text_io.specs.Seen.{seen_by};
ghost use Rattle.text_io.specs.Text.{TakesSome};

use crate::context_kind::ContextKind;
use crate::ending::Ending;
use crate::form::{Form, form_of};
use crate::noting::write_note;
use crate::origin::{NoScript, script_of};
use crate::outcome::WorkOutcome;
use crate::running::run_and_write;
use crate::status::Status;
use crate::upgrading::upgrade_and_write;
use asio_types::{Sink, Source};
use generated_session::summaries_are_plain;
use op_handlers::{CompletionHandler, Rack};
use reactor_trait::Reactor;
use session_script::Script;
use std::alloc::Global;
use std::sync::Wait;
use std::thread::Threads;

/// Does with a script what the form says, and writes what comes of it.
fn work<R: Threads + Wait + Sync, K: Sink, X: Reactor + Send, H: CompletionHandler + Send>(
    rt: &R,
    alloc: Global,
    kind: ContextKind,
    form: Form,
    script: &Script,
    out: &mut K,
    reactor: X,
    rack: &mut Rack<H>,
) -> (WorkOutcome, X)
    requires numbers { HasNumbersWithin form }
    requires whole { IsWholeRack rack.old }
    requires count { length (handlers_in rack.old) ≡ most_acts }
    ensures works { Works form H.marks script.now
        (seen_reactor X.state X.told X.faults reactor result.1) rack.old rack.new
        (seen_by K.written K.faults out.old out.new) result.0 }
    ensures quiet { result.0 ≡ WorkOutcome.NoMemory → out.new ≡ out.old }
    ensures kept { result.0 ≡ WorkOutcome.NoMemory → handlers_in rack.new ≡ handlers_in rack.old }
    ensures upgrade { form ≡ form_is.Upgrade → handlers_in rack.new ≡ handlers_in rack.old }
    ensures unmoved { form ≡ form_is.Upgrade → result.1 ≡ reactor }
    ensures writes { CountsWriting result.0 (K.faults out.old) (K.faults out.new) }
    ensures runs { CountsRunning result.0 (X.faults reactor) (X.faults result.1) }
{
    match form {
        Form::Upgrade => (upgrade_and_write(alloc, script, out), reactor),
        Form::Run | Form::Net | Form::Gen { .. } => run_and_write(
            rt, alloc, kind, form, script, out, reactor, rack,
        ),
    }
}

/// The session without its notes.
fn end<
    R: Threads + Wait + Sync,
    S: Source,
    K: Sink,
    X: Reactor + Send,
    H: CompletionHandler + Send,
>(
    rt: &R,
    alloc: Global,
    kind: ContextKind,
    words: &[String],
    source: &mut S,
    out: &mut K,
    reactor: X,
    rack: &mut Rack<H>,
) -> (Ending, X)
    requires whole { IsWholeRack rack.old }
    requires count { length (handlers_in rack.old) ≡ most_acts }
    ensures says { Says H.marks (record {
      words = map string_bytes words.now;
      source = seen_by S.left S.faults source.old source.new;
      out = seen_by K.written K.faults out.old out.new;
      reactor = seen_reactor X.state X.told X.faults reactor result.1;
      rack_before = rack.old;
      rack_after = rack.new;
    }) (status_of result.0) (note_at result.0) }
    ensures quiet { LeavesAll (status_of result.0) → out.new ≡ out.old }
    ensures kept { LeavesAll (status_of result.0) → handlers_in rack.new ≡ handlers_in rack.old }
    ensures unmoved { LeavesReactor (status_of result.0) → result.1 ≡ reactor }
    ensures unread { status_of result.0 ≡ status.Usage → source.new ≡ source.old }
    ensures unasked { (start size : ℕ) →
        IsGen (map string_bytes words.now) start size → source.new ≡ source.old }
    ensures taken { TakesSome most_read (S.left source.old) (S.left source.new) }
    ensures upgrade { IsUpgrade (map string_bytes words.now) →
        handlers_in rack.new ≡ handlers_in rack.old }
    ensures upgraded { IsUpgrade (map string_bytes words.now) → result.1 ≡ reactor }
    ensures reads { CountsReads (status_of result.0) (S.faults source.old) (S.faults source.new) }
    ensures writes { CountsWrites (status_of result.0) (K.faults out.old) (K.faults out.new) }
    ensures runs { CountsReactor (status_of result.0) (X.faults reactor) (X.faults result.1) }
{
    let Some(form) = form_of(words) else {
        return (Ending::Usage, reactor);
    };
    let script = match script_of(alloc, form, source) {
        Ok(script) => script,
        Err(NoScript::Refused(refused)) => return (Ending::Refused(refused), reactor),
        Err(NoScript::Failed) => return (Ending::ReadFault, reactor),
        Err(NoScript::NoMemory) => return (Ending::NoMemory, reactor),
    };
    let (outcome, reactor) = work(rt, alloc, kind, form, &script, out, reactor, rack);
    (outcome.ending(), reactor)
}

/// The session on this io_context.
pub(crate) fn session_on<
    R: Threads + Wait + Sync,
    S: Source,
    K: Sink,
    N: Sink,
    X: Reactor + Send,
    H: CompletionHandler + Send,
>(
    rt: &R,
    alloc: Global,
    kind: ContextKind,
    words: &[String],
    source: &mut S,
    out: &mut K,
    notes: &mut N,
    reactor: X,
    rack: &mut Rack<H>,
) -> (Status, X)
    requires whole { IsWholeRack rack.old }
    requires count { length (handlers_in rack.old) ≡ most_acts }
    ensures session { IsSession H.marks (record {
      words = map string_bytes words.now;
      source = seen_by S.left S.faults source.old source.new;
      out = seen_by K.written K.faults out.old out.new;
      reactor = seen_reactor X.state X.told X.faults reactor result.1;
      rack_before = rack.old;
      rack_after = rack.new;
    }) (seen_by N.written N.faults notes.old notes.new) result.0 }
    // With these statuses nothing was written, and with these the reactor wasn't called.
    ensures quiet { LeavesAll result.0 → out.new ≡ out.old }
    ensures unmoved { LeavesReactor result.0 → result.1 ≡ reactor }
    ensures upgraded { IsUpgrade (map string_bytes words.now) → result.1 ≡ reactor }
    // Other words, and those of two numbers, read nothing.
    ensures unread { result.0 ≡ status.Usage → source.new ≡ source.old }
    ensures unasked { (start size : ℕ) →
        IsGen (map string_bytes words.now) start size → source.new ≡ source.old }
{
    // The law on which it rests that summaries are plain; it runs nothing.
    summaries_are_plain();
    let (ending, reactor) = end(rt, alloc, kind, words, source, out, reactor, rack);
    let _ = write_note(notes, ending);
    (ending.status(), reactor)
}
