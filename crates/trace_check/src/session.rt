ghost use Rattle.std.specs.Prelude.{◌≡◌, ◌<◌, ◌^◌, ℕ, List, Err, IfOk, Some, length, map, string_bytes};
ghost use Rattle.asio_types.specs.declared.event.Event.{Event as Event_of};
ghost use Rattle.session_script.specs.Script.{ScriptModel};
ghost use Rattle.session_script.specs.declared.refusal.Refusal.{Refusal as Refusal_of};
ghost use Rattle.text_io.specs.Counts.{CountsFailures, Stood};
ghost use Rattle.text_io.specs.Seen.{Writes, WritesPart, seen_by};
ghost use Rattle.text_io.specs.Text.{ReadsText, TakesSome};
ghost use Rattle.trace_check.specs.Answer.{CheckAnswers, CheckCountsReads, CheckCountsWrites, CheckGiven, CheckSays, Decides, IsBad, IsJudged, IsRefused, LeavesOut};
ghost use Rattle.trace_check.specs.Ending.{check_note_at, check_status_of};
ghost use Rattle.trace_check.specs.Form.{HasCheckForm, IsCheckForm, form_tells};
ghost use Rattle.trace_check.specs.Line.{verdict_line};
ghost use Rattle.trace_check.specs.Parting.{most_input_read};
ghost use Rattle.trace_check.specs.Question.{HasNoTrace, HasScriptFault, IsQuestionOf};
ghost use Rattle.trace_check.specs.Verdict.{IsVerdict};
ghost use Rattle.trace_check.specs.declared.form.CheckForm.{CheckForm as CheckForm_of};
ghost use Rattle.trace_check.specs.declared.status.CheckStatus.TheVariants as status;
ghost use Rattle.trace_check.specs.declared.verdict.Verdict.{Verdict as Verdict_of};

use crate::ending::{CheckEnding, write_note};
use crate::form::{CheckForm, form_of};
use crate::line::write_verdict;
use crate::parting::MOST_INPUT_READ;
use crate::question::{NoQuestion, Question, question_of};
use crate::status::CheckStatus;
use crate::verdict::{Verdict, check};
use asio_types::{Sink, Source};
use std::alloc::Global;
use text_io::{Unfinished, read_text};

/// Judges the events of a question, and writes the verdict's line.
fn write_judged<K: Sink>(
    alloc: Global,
    form: CheckForm,
    question: &Question,
    out: &mut K,
) -> Result<Verdict, Unfinished>
    requires { length question.now.history.events < 2 ^ 32 }
    ensures verdict { IfOk result
        (IsVerdict question.now.script (form_tells form) question.now.history.events) }
    ensures written { IfOk result (λ verdict.
        Writes (seen_by K.written K.faults out.old out.new)
        (verdict_line verdict (length question.now.history.events))) }
    ensures cut_off { result ≡ Err Unfinished.Failed →
        (verdict : Verdict_of)
        × IsVerdict question.now.script (form_tells form) question.now.history.events verdict
        × WritesPart (seen_by K.written K.faults out.old out.new)
        (verdict_line verdict (length question.now.history.events)) }
    ensures quiet { result ≡ Err Unfinished.NoMemory → out.new ≡ out.old }
    ensures counts { CountsFailures result (K.faults out.old) (K.faults out.new) }
{
    let events = question.history.events();
    let Ok(verdict) = check(alloc, &question.script, form.tells(), events) else {
        return Err(Unfinished::NoMemory);
    };
    match write_verdict(out, verdict, events.len() as u32) {
        Ok(()) => Ok(verdict),
        Err(_) => Err(Unfinished::Failed),
    }
}

/// The session without its notes.
fn end<S: Source, K: Sink>(
    alloc: Global,
    words: &[String],
    source: &mut S,
    out: &mut K,
) -> CheckEnding
    ensures says { CheckSays
        (record {
          words = map string_bytes words.now;
          source = seen_by S.left S.faults source.old source.new;
          out = seen_by K.written K.faults out.old out.new;
        }) (check_status_of result) (check_note_at result) }
    ensures quiet { LeavesOut (check_status_of result) → out.new ≡ out.old }
    ensures unread { check_status_of result ≡ status.Usage → source.new ≡ source.old }
    ensures taken { TakesSome most_input_read (S.left source.old) (S.left source.new) }
    ensures reads { CheckCountsReads (check_status_of result)
        (S.faults source.old) (S.faults source.new) }
    ensures writes { CheckCountsWrites (check_status_of result)
        (K.faults out.old) (K.faults out.new) }
{
    let Some(form) = form_of(words) else {
        return CheckEnding::Usage;
    };
    let input = match read_text(alloc, source, MOST_INPUT_READ) {
        Ok(input) => input,
        Err(Unfinished::Failed) => return CheckEnding::ReadFault,
        Err(Unfinished::NoMemory) => return CheckEnding::NoMemory,
    };
    end_of_input(alloc, form, input.as_slice(), out)
}

/// The session from the input on.
fn end_of_input<K: Sink>(alloc: Global, form: CheckForm, input: &[u8], out: &mut K) -> CheckEnding
    ensures says { (given : CheckGiven) → IsCheckForm given.words form →
        ReadsText most_input_read given.source.told_before input.now given.source.told_after →
        given.out ≡ seen_by K.written K.faults out.old out.new →
        CheckSays given (check_status_of result) (check_note_at result) }
    ensures quiet { LeavesOut (check_status_of result) → out.new ≡ out.old }
    ensures used { check_status_of result ≡ status.Usage → ⊥ }
    ensures reads { (faults : ℕ) → CheckCountsReads (check_status_of result) faults faults }
    ensures writes { CheckCountsWrites (check_status_of result)
        (K.faults out.old) (K.faults out.new) }
{
    let question = match question_of(alloc, input) {
        Ok(question) => question,
        Err(NoQuestion::Refused(refusal)) => return CheckEnding::Refused(refusal),
        Err(NoQuestion::BadTrace(line)) => return CheckEnding::BadTrace(line),
        Err(NoQuestion::NoMemory) => return CheckEnding::NoMemory,
    };
    match write_judged(alloc, form, &question, out) {
        Ok(verdict) => CheckEnding::Judged(verdict),
        Err(Unfinished::Failed) => CheckEnding::WriteFault,
        Err(Unfinished::NoMemory) => CheckEnding::NoMemory,
    }
}

/// Reads an input from the source, and writes to out whether the trace in it is one of a legal
/// history of the script in it. The words are those behind the program's name: none where the
/// reactor tells its bytes, as the scripted world does, and `--net` where it doesn't, as a network.
/// The input is the script, a line that is exactly `--`, and the trace; the first such line parts
/// them, and the LF before it belongs to the script. Out gets the line `legal`, `illegal at line N`
/// with the number of the first event that may not happen, or `incomplete after line N` with the
/// number of all lines. Marks don't matter. The status says how far this went, with its cause; the
/// notes get the status's note, and change no status.
///
/// Reads at most `MOST_INPUT_READ` bytes. With the statuses 1, 2, 3, 6 and 7 nothing was written.
/// Memory is taken for the input, the script, the events and a replay, before anything is written.
pub fn check_session<S: Source, K: Sink, N: Sink>(
    alloc: Global,
    words: &[String],
    source: &mut S,
    out: &mut K,
    notes: &mut N,
) -> CheckStatus
    ensures answer { CheckAnswers
        (record {
          words = map string_bytes words.now;
          source = seen_by S.left S.faults source.old source.new;
          out = seen_by K.written K.faults out.old out.new;
        }) (seen_by N.written N.faults notes.old notes.new) result }
    // With these statuses nothing was written.
    ensures quiet { LeavesOut result → out.new ≡ out.old }
    ensures unread { result ≡ status.Usage → source.new ≡ source.old }
    ensures taken { TakesSome most_input_read (S.left source.old) (S.left source.new) }
    // Status 3 comes exactly where the source's count of faults rose, and status 4 exactly where
    // out's did.
    ensures reads { CheckCountsReads result (S.faults source.old) (S.faults source.new) }
    ensures writes { CheckCountsWrites result (K.faults out.old) (K.faults out.new) }
    // A whole input whose reading and writing don't fail is judged, unless memory runs out.
    ensures complete { (input : List ℕ) (script : ScriptModel) (events : List Event_of) →
        HasCheckForm (map string_bytes words.now) → S.left source.old ≡ Some input →
        IsQuestionOf input script events → Stood (S.faults source.old) (S.faults source.new) →
        Stood (K.faults out.old) (K.faults out.new) → IsJudged result }
    // An input whose script has a fault is refused, and one that has no trace is bad, unless
    // reading fails or memory runs out.
    ensures refused { (input : List ℕ) (refusal : Refusal_of) →
        HasCheckForm (map string_bytes words.now) → S.left source.old ≡ Some input →
        HasScriptFault input refusal → Stood (S.faults source.old) (S.faults source.new) →
        IsRefused result }
    ensures bad { (input : List ℕ) (line : ℕ) → HasCheckForm (map string_bytes words.now) →
        S.left source.old ≡ Some input → HasNoTrace input line →
        Stood (S.faults source.old) (S.faults source.new) → IsBad result }
    // A verdict of a whole input is the right one: status 0 for a legal history, and status 8 for
    // no other.
    ensures right { (form : CheckForm_of) (input : List ℕ) (script : ScriptModel)
        (events : List Event_of) → IsCheckForm (map string_bytes words.now) form →
        S.left source.old ≡ Some input → IsQuestionOf input script events →
        Decides result script form events }
{
    let ending = end(alloc, words, source, out);
    let _ = write_note(notes, ending);
    ending.status()
}
