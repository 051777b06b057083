ghost use Rattle.std.specs.Prelude.{◌≡◌, IfNone, IfOk, IfSome, not};
ghost use Rattle.std.specs.Option.{option_map};
ghost use Rattle.asio_command.specs.Files.{unreadable_status};
ghost use Rattle.asio_command.specs.Session.{IsStatusOn};
ghost use Rattle.asio_command.specs.FileStatuses.{AreFileStatuses, HasScriptAlone, HasNoScriptAlone, IsFileStatus, IsPairStatus, IsTwoStatus, IsWorstOfTwo, IsWorstStatus};

use crate::answer::Answer;
use crate::parts::is_parted;
use crate::read_file::{ReadFile, UnreadableFile};
use crate::said::{Said, verdict_line, write_verdict};
use crate::session_files::{SessionFiles, SessionParts};
use asio_types::NoMemory;
use command_words::{CommandStatus, Options, worst_of};
use fault_reports::{FileText, shown_name};
use std::alloc::Global;

/// How verdicts are said: the options, and whether the file's name stands before each.
#[derive(Clone, Copy)]
struct Manner {
    options: Options,
    several: bool,
}

/// Says a verdict, or what is wrong.
fn say_answer(
    alloc: Global,
    said: &mut Said,
    session: &SessionParts,
    answer: Answer,
    manner: Manner,
) -> Result<(), NoMemory> {
    let is_wrong = said.faults(alloc, session, answer, manner.options.json)?;
    if manner.options.json {
        if !is_wrong {
            verdict_line(alloc, session, answer).end(&mut said.out);
        }
        return Ok(());
    }
    if manner.several {
        said.out.words(shown_name(session.file.name));
        said.out.words(": ");
    }
    if manner.several || !is_wrong {
        write_verdict(answer, &mut said.out);
    }
    Ok(())
}

/// Judges a script and a trace, and says the verdict, or what is wrong with them.
fn check_session(
    alloc: Global,
    said: &mut Said,
    files: SessionFiles,
    manner: Manner,
) -> Result<CommandStatus, NoMemory>
    ensures { IfOk result (IsStatusOn files.entry.script.text.now
        (option_map (λ file. file.text.now) files.entry.trace) (not manner.options.net)) }
{
    let session = files.parts();
    let answer = session.answer(alloc, !manner.options.net)?;
    say_answer(alloc, said, &session, answer, manner)?;
    Ok(answer.status())
}

/// Says that one of the files can't be read.
fn say_unreadable(
    alloc: Global,
    said: &mut Said,
    file: UnreadableFile,
    manner: Manner,
) -> CommandStatus
    ensures { result ≡ unreadable_status file.entry.why }
{
    if manner.several && !manner.options.json {
        said.out.words(shown_name(file.name));
        said.out.line(": unreadable");
    }
    file.say(alloc, said, manner.options.json)
}

/// Judges a file that has both parts.
fn check_file(
    alloc: Global,
    said: &mut Said,
    file: ReadFile,
    manner: Manner,
) -> Result<CommandStatus, NoMemory>
    ensures { IfOk result (IsFileStatus (not manner.options.net) file.entry) }
{
    match file.file() {
        Ok(script) => check_session(
            alloc,
            said,
            SessionFiles {
                script,
                trace: None,
            },
            manner,
        ),
        Err(file) => Ok(say_unreadable(alloc, said, file, manner)),
    }
}

/// Judges a script, and the trace in another file.
fn check_pair(
    alloc: Global,
    said: &mut Said,
    script: FileText,
    file: ReadFile,
    options: Options,
) -> Result<CommandStatus, NoMemory>
    ensures { IfOk result (IsPairStatus (not options.net) script.entry.text.now file.entry) }
{
    let manner = Manner {
        options,
        several: false,
    };
    match file.file() {
        Ok(trace) => {
            let trace = Some(trace);
            check_session(alloc, said, SessionFiles { script, trace }, manner)
        }
        Err(file) => Ok(say_unreadable(alloc, said, file, manner)),
    }
}

/// Judges each of several files, and gives their statuses, in their order.
fn check_each(
    alloc: Global,
    said: &mut Said,
    files: &[ReadFile],
    options: Options,
) -> Result<Vec<CommandStatus>, NoMemory>
    ensures { IfOk result (λ statuses. AreFileStatuses (not options.net) files.now statuses.items) }
{
    let manner = Manner {
        options,
        several: files.len() > 1,
    };
    let mut statuses = Vec::new(alloc);
    for file in files {
        let status = check_file(alloc, said, *file, manner)?;
        statuses.push(status)?;
    }
    Ok(statuses)
}

/// The text of a file that can be read and that no line parts.
fn script_alone(file: ReadFile) -> Option<FileText>
    ensures alone { IfSome result (λ script. HasScriptAlone file.entry script.text.now) }
    ensures other { IfNone result (HasNoScriptAlone file.entry) }
{
    match file.file() {
        Ok(script) => {
            if is_parted(script.text) {
                None
            } else {
                Some(script)
            }
        }
        Err(_) => None,
    }
}

/// Judges each of two files by itself.
fn check_both(
    alloc: Global,
    said: &mut Said,
    first: ReadFile,
    second: ReadFile,
    options: Options,
) -> Result<CommandStatus, NoMemory>
    ensures { IfOk result (IsWorstOfTwo (not options.net) first.entry second.entry) }
{
    let manner = Manner {
        options,
        several: true,
    };
    let one = check_file(alloc, said, first, manner)?;
    let other = check_file(alloc, said, second, manner)?;
    Ok(worst_of(&[one, other]))
}

/// Checks two files: a script and its trace, or, where the first one isn't a script alone, each by
/// itself, as `check_files` does.
pub fn check_two(
    alloc: Global,
    said: &mut Said,
    first: ReadFile,
    second: ReadFile,
    options: Options,
) -> Result<CommandStatus, NoMemory>
    ensures { IfOk result (IsTwoStatus (not options.net) first.entry second.entry) }
{
    match script_alone(first) {
        Some(script) => check_pair(alloc, said, script, second, options),
        None => check_both(alloc, said, first, second, options),
    }
}

/// Checks files that have both parts, a script and its trace round a line `--`, and says a verdict for
/// each: `legal`, `illegal at line N` or `incomplete after line N`, behind its file's name where there
/// are several, or one object a line. What is wrong with a script or a trace that has no verdict goes
/// to the notes. The status is the worst of all: the one with the greatest number.
pub fn check_files(
    alloc: Global,
    said: &mut Said,
    files: &[ReadFile],
    options: Options,
) -> Result<CommandStatus, NoMemory>
    ensures { IfOk result (IsWorstStatus (not options.net) files.now) }
{
    let statuses = check_each(alloc, said, files, options)?;
    Ok(worst_of(statuses.as_slice()))
}
