ghost use Rattle.std.specs.Prelude.{◌↔◌, IsTrue, OnErr, OnOk};
ghost use Rattle.asio_types.specs.Faults.{CountsFaults};
ghost use Rattle.asio_types.specs.Sink.{Extends, ExtendsByPart};
ghost use Rattle.session_run.specs.Answer.{text_of_run};
ghost use Rattle.session_run.specs.Outcome.{CountsWriting, WroteHistory};
ghost use Rattle.session_run.specs.Run.{ShowsFault};
ghost use Rattle.text_io.specs.Seen.{seen_by};

use crate::form::Form;
use crate::outcome::WorkOutcome;
use asio_types::{Event, Failed, Sink};
use generated_session::write_summary;
use history_book::{History, write_trace};

/// Whether the history shows a failure of the reactor.
fn shows_fault(history: &History) -> bool
    ensures { IsTrue result ↔ ShowsFault history.now.events }
{
    history.events().contains(&Event::Fault)
}

/// Writes what the form says of a history: its trace, or its summary.
fn write_text<K: Sink>(form: Form, history: &History, out: &mut K) -> Result<(), Failed>
    ensures whole { OnOk result
        (Extends (K.written out.old) (text_of_run form history.now.events) (K.written out.new)) }
    ensures part { OnErr result (ExtendsByPart (K.written out.old)
        (text_of_run form history.now.events) (K.written out.new)) }
    ensures counts { CountsFaults result (K.faults out.old) (K.faults out.new) }
{
    match form {
        Form::Gen { start, size } => write_summary(history, start, size, out),
        Form::Run | Form::Net | Form::Upgrade => write_trace(history, out),
    }
}

/// Writes what the form says of a whole history. Where writing fails, that is the outcome, whatever
/// the reactor did.
pub(crate) fn write_history<K: Sink>(form: Form, history: &History, out: &mut K) -> WorkOutcome
    ensures wrote { WroteHistory form history.now.events
        (seen_by K.written K.faults out.old out.new) result }
    ensures counts { CountsWriting result (K.faults out.old) (K.faults out.new) }
{
    if write_text(form, history, out).is_err() {
        return WorkOutcome::WriteFault;
    }
    if shows_fault(history) {
        return WorkOutcome::ReactorFault;
    }
    WorkOutcome::Done
}
