ghost use Rattle.std.specs.Prelude.{◌≡◌, Err, IfOk};
ghost use Rattle.session_run.specs.Answer.{Refuses};
ghost use Rattle.session_run.specs.Ending.{CountsReading};
ghost use Rattle.session_run.specs.Form.{HasNumbersWithin, IsReadingForm};
ghost use Rattle.session_run.specs.Origin.{HasOrigin, IsRead};
ghost use Rattle.session_run.specs.declared.ending.Refused.{Refused as Refused_of};
ghost use Rattle.session_script.specs.Limits.{most_read};
ghost use Rattle.text_io.specs.Seen.{seen_by};
ghost use Rattle.text_io.specs.Text.{TakesSome};

use crate::ending::Refused;
use crate::form::Form;
use asio_types::Source;
use generated_session::generate;
use session_script::{MOST_READ, Script, ScriptFault, read_script};
use std::alloc::Global;
use text_io::{Unfinished, read_text};

/// Why there is no script to work on.
#[derive(Clone, Copy, Debug, PartialEq, Eq)]
pub(crate) enum NoScript {
    /// What was read has this fault.
    Refused(Refused),
    /// Reading failed.
    Failed,
    /// Memory was asked for and not given.
    NoMemory,
}

/// Reads the script that the source has.
fn read_origin<S: Source>(alloc: Global, source: &mut S) -> Result<Script, NoScript>
    ensures script { IfOk result
        (λ script. IsRead (seen_by S.left S.faults source.old source.new) script) }
    ensures refused { (refused : Refused_of) → result ≡ Err (NoScript.Refused refused) →
        Refuses (seen_by S.left S.faults source.old source.new) refused.rule refused.line
        refused.token }
    ensures counts { CountsReading result (S.faults source.old) (S.faults source.new) }
    ensures taken { TakesSome most_read (S.left source.old) (S.left source.new) }
{
    let text = match read_text(alloc, source, MOST_READ) {
        Ok(text) => text,
        Err(Unfinished::Failed) => return Err(NoScript::Failed),
        Err(Unfinished::NoMemory) => return Err(NoScript::NoMemory),
    };
    match read_script(alloc, text.as_slice()) {
        Ok(script) => Ok(script),
        Err(ScriptFault::Refused(refusal)) => Err(NoScript::Refused(Refused {
            rule: refusal.rule.number(),
            line: refusal.line,
            token: refusal.token,
        })),
        Err(ScriptFault::NoMemory) => Err(NoScript::NoMemory),
    }
}

/// The script that the form is about: the one that its numbers make, or the one that the source
/// has.
pub(crate) fn script_of<S: Source>(
    alloc: Global,
    form: Form,
    source: &mut S,
) -> Result<Script, NoScript>
    requires numbers { HasNumbersWithin form }
    ensures origin { IfOk result
        (λ script. HasOrigin form (seen_by S.left S.faults source.old source.new) script) }
    ensures refused { (refused : Refused_of) → result ≡ Err (NoScript.Refused refused) →
        IsReadingForm form
        × Refuses (seen_by S.left S.faults source.old source.new) refused.rule refused.line
        refused.token }
    ensures failed { result ≡ Err NoScript.Failed → IsReadingForm form }
    ensures unread { (IsReadingForm form → ⊥) → source.new ≡ source.old }
    ensures counts { CountsReading result (S.faults source.old) (S.faults source.new) }
    ensures taken { TakesSome most_read (S.left source.old) (S.left source.new) }
{
    match form {
        Form::Gen { start, size } => match generate(alloc, start, size) {
            Ok(script) => Ok(script),
            Err(_) => Err(NoScript::NoMemory),
        },
        Form::Run | Form::Net | Form::Upgrade => read_origin(alloc, source),
    }
}
