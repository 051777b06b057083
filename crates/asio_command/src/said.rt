ghost use Rattle.std.specs.Prelude.{◌≡◌};

use crate::answer::Answer;
use crate::session_files::SessionParts;
use asio_types::NoMemory;
use command_words::CommandStatus;
use fault_reports::{Fault, shown_name};
use std::alloc::Global;
use text_places::{JsonLine, Text};

/// What a command says, before it is written.
#[derive(Drop)]
pub struct Said {
    /// To standard output.
    pub out: Text,
    /// To standard error.
    pub notes: Text,
}

/// What is wrong with a file as a whole.
#[derive(Clone, Copy)]
pub(crate) struct Problem<'t> {
    /// The file's name, as it was given.
    pub(crate) name: &'t str,
    /// The status with which it ends a command.
    pub(crate) status: CommandStatus,
    /// What stands in the place of a verdict.
    pub(crate) verdict: &'static str,
    /// What is wrong.
    pub(crate) message: &'static str,
}

impl Said {
    /// Nothing yet.
    pub fn nothing(alloc: Global) -> Said {
        Said {
            out: Text::empty(alloc),
            notes: Text::empty(alloc),
        }
    }

    /// A fault: as one object on standard output, or in words on standard error.
    pub(crate) fn fault(
        &mut self,
        alloc: Global,
        fault: &Fault,
        status: CommandStatus,
        json: bool,
    ) {
        if json {
            fault.write_json(alloc, status.number(), &mut self.out);
        } else {
            fault.write_text(alloc, &mut self.notes);
        }
    }

    /// What is wrong with a file as a whole: as one object on standard output, or in words on standard
    /// error.
    pub(crate) fn problem(&mut self, alloc: Global, problem: &Problem, json: bool) {
        let name = shown_name(problem.name);
        if json {
            let mut line = JsonLine::begin(alloc, name, problem.status.number());
            line.words("verdict", problem.verdict);
            line.words("message", problem.message);
            line.end(&mut self.out);
        } else {
            self.notes.words("error: ");
            self.notes.words(name);
            self.notes.words(": ");
            self.notes.line(problem.message);
        }
    }

    /// What is wrong with a script or a trace, where there is no verdict. Says whether there was
    /// something to say.
    pub(crate) fn faults(
        &mut self,
        alloc: Global,
        session: &SessionParts,
        answer: Answer,
        json: bool,
    ) -> Result<bool, NoMemory> {
        if let Some(fault) = session.fault(alloc, answer)? {
            self.fault(alloc, &fault, answer.status(), json);
            return Ok(true);
        }
        let is_alone = matches!(answer, Answer::NoTrace);
        if is_alone {
            self.problem(alloc, &no_trace(session.file.name), json);
        }
        Ok(is_alone)
    }
}

/// The word of a verdict, or of what there is in its place.
fn verdict_word(answer: Answer) -> &'static str {
    match answer {
        Answer::Legal => "legal",
        Answer::Illegal(_) => "illegal",
        Answer::Incomplete(_) => "incomplete",
        Answer::Refused(_) => "refused",
        Answer::BadTrace(_) => "bad trace",
        Answer::NoTrace => "no trace",
    }
}

/// The line of a verdict as the checker writes it.
pub(crate) fn write_verdict(answer: Answer, text: &mut Text) {
    text.words(verdict_word(answer));
    match answer {
        Answer::Illegal(line) => text.field(" at line ", line as u64),
        Answer::Incomplete(lines) => text.field(" after line ", lines as u64),
        _ => {}
    }
    text.words("\n");
}

/// A verdict as one object, without its end.
pub(crate) fn verdict_line(alloc: Global, session: &SessionParts, answer: Answer) -> JsonLine {
    let name = shown_name(session.file.name);
    let mut line = JsonLine::begin(alloc, name, answer.status().number());
    line.words("verdict", verdict_word(answer));
    if let Answer::Illegal(number) | Answer::Incomplete(number) = answer {
        line.number("line", number as u64);
    }
    line
}

/// A file without a trace.
fn no_trace(name: &str) -> Problem<'_> {
    Problem {
        name,
        status: CommandStatus::BadTrace,
        verdict: "no trace",
        message: "a script and no trace: give the trace as a second file, or behind a line that is exactly `--`",
    }
}

/// Says that a trace is given twice.
pub(crate) fn say_two_traces(
    alloc: Global,
    said: &mut Said,
    session: &SessionParts,
    json: bool,
) -> CommandStatus
    ensures { result ≡ CommandStatus.Usage }
{
    let problem = Problem {
        name: session.file.name,
        status: CommandStatus::Usage,
        verdict: "two traces",
        message: "a trace stands behind its line `--`, and another one is given",
    };
    said.problem(alloc, &problem, json);
    CommandStatus::Usage
}
