ghost use Rattle.std.specs.Prelude.{IfOk, not};
ghost use Rattle.std.specs.Option.{option_map};
ghost use Rattle.asio_command.specs.FileStatuses.{IsSessionStatus, IsWhyStatus};
ghost use Rattle.asio_command.specs.Session.{IsStatusOf};

use crate::answer::Answer;
use crate::naming::write_with_names;
use crate::read_file::{ReadFile, session_of};
use crate::said::{Said, say_two_traces, verdict_line, write_verdict};
use crate::session_files::{SessionFiles, SessionParts};
use crate::show::{Showing, joined, show_input};
use asio_types::NoMemory;
use command_words::{CommandStatus, Options};
use std::alloc::Global;
use text_places::{Text, len_before};
use trace_check::CheckStatus;

/// Why a trace is judged so, in the words of the library; nothing where it judges no trace, as the two
/// longest parts with a line end between them.
fn library_reasons(
    alloc: Global,
    session: &SessionParts,
    net: bool,
) -> Result<Option<Vec<u8>>, NoMemory> {
    let input = joined(alloc, session.script.rest, session.trace_bytes())?;
    let mut kept = Text::empty(alloc);
    let mut notes = Text::empty(alloc);
    let shown = show_input(
        alloc,
        Showing::Why,
        net,
        input.as_slice(),
        &mut kept,
        &mut notes,
    )?;
    match shown {
        CheckStatus::Done | CheckStatus::Illegal => Ok(Some(kept.finish()?)),
        CheckStatus::NoMemory | CheckStatus::WriteFault => Err(NoMemory),
        _ => Ok(None),
    }
}

/// What the library says of a trace, with the names of the script's head.
fn named_reasons(
    alloc: Global,
    session: &SessionParts,
    net: bool,
    text: &mut Text,
) -> Result<bool, NoMemory> {
    let Some(said) = library_reasons(alloc, session, net)? else {
        return Ok(false);
    };
    let names = session.names(alloc)?;
    write_with_names(&names, said.as_slice(), text);
    Ok(true)
}

/// Why a trace is judged so, with the names of the script's head.
pub(crate) fn reasons(
    alloc: Global,
    session: &SessionParts,
    answer: Answer,
    net: bool,
) -> Result<Vec<u8>, NoMemory> {
    let mut text = Text::empty(alloc);
    if !named_reasons(alloc, session, net, &mut text)? {
        write_verdict(answer, &mut text);
    }
    text.finish()
}

/// Writes reasons, in words or as one object.
fn write_reasons(
    alloc: Global,
    said: &mut Said,
    session: &SessionParts,
    answer: Answer,
    reasons: &[u8],
    json: bool,
) {
    if json {
        let mut line = verdict_line(alloc, session, answer);
        let (_, rest) = reasons.split_at(len_before(reasons, b'\n'));
        line.lines("reasons", rest.get(1..).unwrap_or(&[]));
        line.end(&mut said.out);
    } else {
        said.out.bytes(reasons);
    }
}

/// Says the reasons.
fn say_reasons(
    alloc: Global,
    said: &mut Said,
    session: &SessionParts,
    answer: Answer,
    options: Options,
) -> Result<(), NoMemory> {
    let reasons = reasons(alloc, session, answer, options.net)?;
    write_reasons(
        alloc,
        said,
        session,
        answer,
        reasons.as_slice(),
        options.json,
    );
    Ok(())
}

/// Says why a trace is judged as it is, or what is wrong.
fn why(
    alloc: Global,
    said: &mut Said,
    session: &SessionParts,
    options: Options,
) -> Result<CommandStatus, NoMemory>
    ensures { IfOk result (IsStatusOf session.now.script.rest.now
        (option_map (λ part. part.text.now) session.now.trace) (not options.net)) }
{
    let answer = session.answer(alloc, !options.net)?;
    if !said.faults(alloc, session, answer, options.json)? {
        say_reasons(alloc, said, session, answer, options)?;
    }
    Ok(answer.status())
}

/// The same of a session's files, of which one may have a trace that is given twice.
#[tactic(auto, using(crate::proofs::SessionLemmas::status_on))]
fn why_session(
    alloc: Global,
    said: &mut Said,
    files: SessionFiles,
    options: Options,
) -> Result<CommandStatus, NoMemory>
    ensures { IfOk result (IsSessionStatus (not options.net) files.entry.script.text.now
        (option_map (λ file. file.text.now) files.entry.trace)) }
{
    let session = files.parts();
    if files.has_two_traces() {
        return Ok(say_two_traces(alloc, said, &session, options.json));
    }
    why(alloc, said, &session, options)
}

/// Says why a trace is judged as it is: the checker's line, the condition that an illegal event breaks
/// and what stands against it, or what a history that isn't whole still owes; or one object. Strands
/// and acts have the names that the head of the script gives behind their numbers. The trace is
/// judged twice: for the answer, and by the library that knows the reasons.
pub fn why_command(
    alloc: Global,
    said: &mut Said,
    script: ReadFile,
    trace: Option<ReadFile>,
    options: Options,
) -> Result<CommandStatus, NoMemory>
    ensures { IfOk result (IsWhyStatus (not options.net) script.entry trace.entry) }
{
    match session_of(script, trace) {
        Ok(files) => why_session(alloc, said, files, options),
        Err(file) => Ok(file.say(alloc, said, options.json)),
    }
}
