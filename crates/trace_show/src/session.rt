ghost use Rattle.std.specs.Prelude.{◌≡◌, ◌<◌, ◌^◌, ℕ, List, IfOk, Some, length, map, string_bytes};
ghost use Rattle.asio_types.specs.declared.event.Event.{Event as Event_of};
ghost use Rattle.session_script.specs.Script.{ScriptModel};
ghost use Rattle.session_script.specs.declared.refusal.Refusal.{Refusal as Refusal_of};
ghost use Rattle.text_io.specs.Counts.{CountsFailures, Stood};
ghost use Rattle.text_io.specs.Seen.{seen_by};
ghost use Rattle.text_io.specs.Text.{ReadsText, TakesSome};
ghost use Rattle.trace_check.specs.Answer.{CheckCountsReads, CheckCountsWrites, CheckGiven, IsBad, IsJudged, IsRefused};
ghost use Rattle.trace_check.specs.Parting.{most_input_read};
ghost use Rattle.trace_check.specs.Question.{HasNoTrace, HasScriptFault, IsQuestionOf};
ghost use Rattle.trace_check.specs.Verdict.{IsVerdict};
ghost use Rattle.trace_check.specs.declared.status.CheckStatus.TheVariants as status;
ghost use Rattle.trace_show.specs.Answer.{DecidesShown, IsWritten, ShowSays, ShowsNothing, ending_status};
ghost use Rattle.trace_show.specs.ShowForm.{HasShowForm, IsShowForm, show_form_tells};
ghost use Rattle.trace_show.specs.declared.form.ShowForm.{ShowForm as ShowForm_of};

use crate::detail::Detail;
use crate::form::{ShowForm, form_of};
use crate::picture::write_picture;
use crate::progress::{end_progress, show_judging, shows_progress};
use crate::refused::refusal_detail;
use crate::why::write_why;
use asio_types::{Event, Failed, Sink, Source, write_all};
use session_script::{Refusal, Script};
use std::alloc::Global;
use text_io::{Unfinished, read_text, write_field, write_refusal};
use trace_check::{CheckStatus, MOST_INPUT_READ, NoQuestion, Verdict, question_of};

/// How a session ended, before its note is written.
#[derive(Drop)]
pub(crate) enum ShowEnding {
    /// This verdict was shown.
    Shown(Verdict),
    /// The words are no form of the command.
    Usage,
    /// The script has this fault, which is explained so.
    Refused(Refusal, Detail),
    /// Reading failed.
    ReadFault,
    /// Writing failed.
    WriteFault,
    /// Memory was asked for and not given.
    NoMemory,
    /// There is no trace, or this line of it is bad.
    BadTrace(u32),
}

impl ShowEnding {
    /// The status that is answered.
    fn status(&self) -> CheckStatus
        ensures { result ≡ ending_status self.now }
    {
        match self {
            ShowEnding::Shown(Verdict::Legal) => CheckStatus::Done,
            ShowEnding::Shown(_) => CheckStatus::Illegal,
            ShowEnding::Usage => CheckStatus::Usage,
            ShowEnding::Refused(_, _) => CheckStatus::Refused,
            ShowEnding::ReadFault => CheckStatus::ReadFault,
            ShowEnding::WriteFault => CheckStatus::WriteFault,
            ShowEnding::NoMemory => CheckStatus::NoMemory,
            ShowEnding::BadTrace(_) => CheckStatus::BadTrace,
        }
    }
}

/// The line that is written to the notes with a status: none with a verdict, and none here for a
/// refusal or a bad trace, whose lines name what is wrong.
pub fn show_note_of(status: CheckStatus) -> &'static [u8] {
    match status {
        CheckStatus::Done | CheckStatus::Refused | CheckStatus::BadTrace | CheckStatus::Illegal =>
            b"",
        CheckStatus::Usage => b"asio_show: usage: asio_show why|picture [--net]\n",
        CheckStatus::ReadFault => b"asio_show: read fault\n",
        CheckStatus::WriteFault => b"asio_show: write fault\n",
        CheckStatus::NoMemory => b"asio_show: no memory\n",
    }
}

/// Writes the note of an ending, piece by piece.
fn write_note<N: Sink>(notes: &mut N, ending: &ShowEnding) -> Result<(), Failed> {
    match ending {
        ShowEnding::Refused(refusal, detail) => {
            write_refusal(
                notes,
                b"asio_show: refused ",
                refusal.rule.number(),
                refusal.line,
                refusal.token,
            )?;
            write_all(notes, detail.as_bytes())
        }
        ShowEnding::BadTrace(line) => {
            write_field(notes, b"asio_show: bad trace at line ", *line)?;
            write_all(notes, b"\n")
        }
        other => write_all(notes, show_note_of(other.status())),
    }
}

/// Shows the events of a question in a form.
fn show_form<K: Sink, N: Sink>(
    alloc: Global,
    form: ShowForm,
    script: &Script,
    events: &[Event],
    out: &mut K,
    notes: &mut N,
    shows: bool,
) -> Result<Verdict, Unfinished>
    requires { length events.now < 2 ^ 32 }
    ensures verdict { IfOk result (IsVerdict script.now (show_form_tells form) events.now) }
    ensures written { IfOk result (λ verdict.
        IsWritten form script.now events.now verdict (seen_by K.written K.faults out.old out.new)) }
    ensures counts { CountsFailures result (K.faults out.old) (K.faults out.new) }
{
    match form {
        ShowForm::Why | ShowForm::WhyUntold => write_why(alloc, script, form.tells(), events, out),
        ShowForm::Picture | ShowForm::PictureUntold => {
            write_picture(alloc, script, form.tells(), events, out, notes, shows)
        }
    }
}

/// Shows the events of a question in a form, and on a terminal how far it is.
fn show<K: Sink, N: Sink>(
    alloc: Global,
    form: ShowForm,
    script: &Script,
    events: &[Event],
    out: &mut K,
    notes: &mut N,
    on_terminal: bool,
) -> Result<Verdict, Unfinished>
    requires { length events.now < 2 ^ 32 }
    ensures verdict { IfOk result (IsVerdict script.now (show_form_tells form) events.now) }
    ensures written { IfOk result (λ verdict.
        IsWritten form script.now events.now verdict (seen_by K.written K.faults out.old out.new)) }
    ensures counts { CountsFailures result (K.faults out.old) (K.faults out.new) }
{
    let shows = shows_progress(on_terminal, events.len());
    show_judging(notes, shows);
    let shown = show_form(alloc, form, script, events, out, notes, shows);
    end_progress(notes, shows);
    shown
}

/// The session without its notes.
fn end<S: Source, K: Sink, N: Sink>(
    alloc: Global,
    words: &[String],
    source: &mut S,
    out: &mut K,
    notes: &mut N,
    on_terminal: bool,
) -> ShowEnding
    ensures says { ShowSays
        (record {
          words = map string_bytes words.now;
          source = seen_by S.left S.faults source.old source.new;
          out = seen_by K.written K.faults out.old out.new;
        }) (ending_status result) }
    ensures quiet { ShowsNothing (ending_status result) → out.new ≡ out.old }
    ensures unread { ending_status result ≡ status.Usage → source.new ≡ source.old }
    ensures taken { TakesSome most_input_read (S.left source.old) (S.left source.new) }
    ensures reads { CheckCountsReads (ending_status result)
        (S.faults source.old) (S.faults source.new) }
    ensures writes { CheckCountsWrites (ending_status result)
        (K.faults out.old) (K.faults out.new) }
{
    let Some(form) = form_of(words) else {
        return ShowEnding::Usage;
    };
    let input = match read_text(alloc, source, MOST_INPUT_READ) {
        Ok(input) => input,
        Err(Unfinished::Failed) => return ShowEnding::ReadFault,
        Err(Unfinished::NoMemory) => return ShowEnding::NoMemory,
    };
    end_of_input(alloc, form, input.as_slice(), out, notes, on_terminal)
}

/// The session from the input on.
fn end_of_input<K: Sink, N: Sink>(
    alloc: Global,
    form: ShowForm,
    input: &[u8],
    out: &mut K,
    notes: &mut N,
    on_terminal: bool,
) -> ShowEnding
    ensures says { (given : CheckGiven) → IsShowForm given.words form →
        ReadsText most_input_read given.source.told_before input.now given.source.told_after →
        given.out ≡ seen_by K.written K.faults out.old out.new →
        ShowSays given (ending_status result) }
    ensures quiet { ShowsNothing (ending_status result) → out.new ≡ out.old }
    ensures used { ending_status result ≡ status.Usage → ⊥ }
    ensures reads { (faults : ℕ) → CheckCountsReads (ending_status result) faults faults }
    ensures writes { CheckCountsWrites (ending_status result)
        (K.faults out.old) (K.faults out.new) }
{
    let question = match question_of(alloc, input) {
        Ok(question) => question,
        Err(NoQuestion::Refused(refusal)) => {
            let Ok(detail) = refusal_detail(alloc, input, refusal) else {
                return ShowEnding::NoMemory;
            };
            return ShowEnding::Refused(refusal, detail);
        }
        Err(NoQuestion::BadTrace(line)) => return ShowEnding::BadTrace(line),
        Err(NoQuestion::NoMemory) => return ShowEnding::NoMemory,
    };
    match show(
        alloc,
        form,
        &question.script,
        question.history.events(),
        out,
        notes,
        on_terminal,
    ) {
        Ok(verdict) => ShowEnding::Shown(verdict),
        Err(Unfinished::Failed) => ShowEnding::WriteFault,
        Err(Unfinished::NoMemory) => ShowEnding::NoMemory,
    }
}

/// Reads an input as the checker's from the source, and writes to out why its trace is judged as it
/// is, or a picture of it. The words are those behind the program's name: `why` or `picture`, and
/// `--net` where the reactor didn't tell its bytes. The first line of `why` is the checker's; where
/// an event is illegal, the second one names a condition that it breaks. The status is the
/// checker's. The notes get its note, and of a refused script what breaks the rule; where they are a
/// terminal, and the trace is long, they also get how far it is.
///
/// Reads at most `MOST_INPUT_READ` bytes. With the statuses 1, 2, 3 and 7, and with 6 before a
/// picture is begun, nothing was written.
pub fn show_session<S: Source, K: Sink, N: Sink>(
    alloc: Global,
    words: &[String],
    source: &mut S,
    out: &mut K,
    notes: &mut N,
    on_terminal: bool,
) -> CheckStatus
    ensures says { ShowSays
        (record {
          words = map string_bytes words.now;
          source = seen_by S.left S.faults source.old source.new;
          out = seen_by K.written K.faults out.old out.new;
        }) result }
    // With these statuses nothing was written.
    ensures quiet { ShowsNothing result → out.new ≡ out.old }
    ensures unread { result ≡ status.Usage → source.new ≡ source.old }
    ensures taken { TakesSome most_input_read (S.left source.old) (S.left source.new) }
    // Status 3 comes exactly where the source's count of faults rose, and status 4 exactly where
    // out's did.
    ensures reads { CheckCountsReads result (S.faults source.old) (S.faults source.new) }
    ensures writes { CheckCountsWrites result (K.faults out.old) (K.faults out.new) }
    // A whole input whose reading and writing don't fail is shown, unless memory runs out.
    ensures complete { (input : List ℕ) (script : ScriptModel) (events : List Event_of) →
        HasShowForm (map string_bytes words.now) → S.left source.old ≡ Some input →
        IsQuestionOf input script events → Stood (S.faults source.old) (S.faults source.new) →
        Stood (K.faults out.old) (K.faults out.new) → IsJudged result }
    // One whose script has a fault is refused, and one that has no trace is bad, unless memory runs out.
    ensures refused { (input : List ℕ) (refusal : Refusal_of) →
        HasShowForm (map string_bytes words.now) → S.left source.old ≡ Some input →
        HasScriptFault input refusal → Stood (S.faults source.old) (S.faults source.new) →
        Stood (K.faults out.old) (K.faults out.new) → IsRefused result }
    ensures bad { (input : List ℕ) (line : ℕ) → HasShowForm (map string_bytes words.now) →
        S.left source.old ≡ Some input → HasNoTrace input line →
        Stood (S.faults source.old) (S.faults source.new) →
        Stood (K.faults out.old) (K.faults out.new) → IsBad result }
    // A verdict on a whole input is the right one.
    ensures right { (form : ShowForm_of) (input : List ℕ) (script : ScriptModel)
        (events : List Event_of) → IsShowForm (map string_bytes words.now) form →
        S.left source.old ≡ Some input → IsQuestionOf input script events →
        DecidesShown result script (show_form_tells form) events }
{
    let ending = end(alloc, words, source, out, notes, on_terminal);
    let _ = write_note(notes, &ending);
    ending.status()
}
