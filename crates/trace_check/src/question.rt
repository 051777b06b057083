ghost use Rattle.std.specs.Prelude.{◌≡◌, ◌<◌, ◌^◌, ℕ, Err, IfOk, length};
ghost use Rattle.session_script.specs.declared.refusal.Refusal.{Refusal as Refusal_of};
ghost use Rattle.trace_check.specs.Question.{HasNoTrace, HasScriptFault, IsQuestionOf};

use crate::parting::{MOST_INPUT, part};
use crate::reading::{TraceFault, read_trace};
use history_book::History;
use session_script::{Refusal, Script, ScriptFault, read_script};
use std::alloc::Global;

/// What an input asks: whether these events are a legal history of this script.
#[derive(Drop)]
pub struct Question {
    /// The script.
    pub script: Script,
    /// The events.
    pub history: History,
}

/// Why an input asks nothing.
#[derive(Clone, Copy, Debug, PartialEq, Eq)]
pub enum NoQuestion {
    /// Its script has this fault.
    Refused(Refusal),
    /// It has no trace, or this line of its trace is bad.
    BadTrace(u32),
    /// Memory was asked for and not given.
    NoMemory,
}

/// Reads the script and the trace of an input, in this order.
pub fn question_of(alloc: Global, input: &[u8]) -> Result<Question, NoQuestion>
    ensures asks { IfOk result
        (λ question. IsQuestionOf input.now question.script question.history.events) }
    ensures few { IfOk result (λ question. length question.history.events < 2 ^ 32) }
    ensures refused { (refusal : Refusal_of) → result ≡ Err (NoQuestion.Refused refusal) →
        HasScriptFault input.now refusal }
    ensures bad { (line : ℕ) → result ≡ Err (NoQuestion.BadTrace line) → HasNoTrace input.now line }
{
    if input.len() > MOST_INPUT {
        return Err(NoQuestion::BadTrace(0));
    }
    let Some(parted) = part(input) else {
        return Err(NoQuestion::BadTrace(0));
    };
    let script = match read_script(alloc, parted.script) {
        Ok(script) => script,
        Err(ScriptFault::Refused(refusal)) => return Err(NoQuestion::Refused(refusal)),
        Err(ScriptFault::NoMemory) => return Err(NoQuestion::NoMemory),
    };
    match read_trace(alloc, parted.trace) {
        Ok(history) => Ok(Question { script, history }),
        Err(TraceFault::Text { line }) => Err(NoQuestion::BadTrace(line)),
        Err(TraceFault::NoMemory) => Err(NoQuestion::NoMemory),
    }
}
