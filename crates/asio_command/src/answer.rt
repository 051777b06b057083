ghost use Rattle.std.specs.Prelude.{◌≡◌, ◌<◌, ◌^◌, IfOk, length};
ghost use Rattle.std.specs.Option.{option_map};
ghost use Rattle.asio_command.specs.Answer.{IsAnswer, IsVerdictOn, status_of};

use asio_types::NoMemory;
use command_words::CommandStatus;
use history_book::History;
use session_script::{Refusal, Script, ScriptFault, read_script};
use std::alloc::Global;
use trace_check::{TraceFault, Verdict, check, read_trace};

/// What is to be said of a script and a trace.
#[derive(Clone, Copy)]
pub enum Answer {
    /// The trace is one of a legal history of the script.
    Legal,
    /// The event in this line of the trace, from 1, may not come next.
    Illegal(u32),
    /// All so many lines are legal so far, and the history isn't whole.
    Incomplete(u32),
    /// The script has this fault.
    Refused(Refusal),
    /// This line of the trace is bad; 0 where the trace is too long.
    BadTrace(u32),
    /// There is no trace.
    NoTrace,
}

impl Answer {
    /// The status of the command: the checker's.
    pub fn status(self) -> CommandStatus
        ensures { result ≡ status_of self }
    {
        match self {
            Answer::Legal => CommandStatus::Done,
            Answer::Illegal(_) | Answer::Incomplete(_) => CommandStatus::Illegal,
            Answer::Refused(_) => CommandStatus::Refused,
            Answer::BadTrace(_) | Answer::NoTrace => CommandStatus::BadTrace,
        }
    }
}

/// The answer to the events of a trace: the checker's verdict.
fn judged(
    alloc: Global,
    script: &Script,
    bytes_told: bool,
    history: &History,
) -> Result<Answer, NoMemory>
    requires { length history.now.events < 2 ^ 32 }
    ensures { IfOk result (IsVerdictOn script.now bytes_told history.now.events) }
{
    let events = history.events();
    match check(alloc, script, bytes_told, events)? {
        Verdict::Legal => Ok(Answer::Legal),
        Verdict::Illegal(line) => Ok(Answer::Illegal(line)),
        Verdict::Incomplete => Ok(Answer::Incomplete(events.len() as u32)),
    }
}

/// Reads a script and a trace, in this order, and judges the trace: what the reader of scripts, the
/// reader of traces and the checker say. `bytes_told` says whether the reactor told its bytes.
pub fn answer_on(
    alloc: Global,
    script: &[u8],
    trace: Option<&[u8]>,
    bytes_told: bool,
) -> Result<Answer, NoMemory>
    ensures { IfOk result
        (IsAnswer script.now (option_map (λ text. text.now) trace.entry) bytes_told) }
{
    let script = match read_script(alloc, script) {
        Ok(script) => script,
        Err(ScriptFault::Refused(refusal)) => return Ok(Answer::Refused(refusal)),
        Err(ScriptFault::NoMemory) => return Err(NoMemory),
    };
    let Some(trace) = trace else {
        return Ok(Answer::NoTrace);
    };
    let history = match read_trace(alloc, trace) {
        Ok(history) => history,
        Err(TraceFault::Text { line }) => return Ok(Answer::BadTrace(line)),
        Err(TraceFault::NoMemory) => return Err(NoMemory),
    };
    judged(alloc, &script, bytes_told, &history)
}
