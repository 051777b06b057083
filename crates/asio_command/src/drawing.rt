ghost use Rattle.std.specs.Prelude.{IfOk, not};
ghost use Rattle.std.specs.Option.{option_map};
ghost use Rattle.asio_command.specs.FileStatuses.{IsSessionStatus, IsWhyStatus};
ghost use Rattle.asio_command.specs.Session.{IsStatusOf};

use crate::answer::Answer;
use crate::html_page::{escaped, write_page_end, write_page_front};
use crate::names::Names;
use crate::naming::write_with_names;
use crate::read_file::{ReadFile, session_of};
use crate::reasons::reasons;
use crate::said::{Said, say_two_traces, verdict_line, write_verdict};
use crate::session_files::{SessionFiles, SessionParts};
use crate::show::{Showing, joined, show_input};
use asio_types::NoMemory;
use command_words::{CommandStatus, Options};
use std::alloc::Global;
use text_places::Text;
use trace_check::CheckStatus;

/// What was drawn.
#[derive(Drop)]
pub struct Drawn {
    /// The status of the command.
    pub status: CommandStatus,
    /// The picture, or the page with it; none where nothing is drawn.
    pub picture: Option<Vec<u8>>,
}

/// Draws a trace as an SVG.
fn plain_svg(alloc: Global, session: &SessionParts, net: bool) -> Result<Vec<u8>, NoMemory> {
    let input = joined(alloc, session.script.rest, session.trace_bytes())?;
    let mut picture = Text::empty(alloc);
    let mut notes = Text::empty(alloc);
    let shown = show_input(
        alloc,
        Showing::Picture,
        net,
        input.as_slice(),
        &mut picture,
        &mut notes,
    )?;
    match shown {
        CheckStatus::Done | CheckStatus::Illegal => picture.finish(),
        _ => Err(NoMemory),
    }
}

/// Draws a trace as an SVG, with the names of the script's head.
fn draw_svg(
    alloc: Global,
    session: &SessionParts,
    net: bool,
    picture: &mut Text,
) -> Result<(), NoMemory> {
    let plain = plain_svg(alloc, session, net)?;
    let head = escaped(alloc, session.script.head)?;
    let names = Names::of_head(alloc, head.as_slice())?;
    write_with_names(&names, plain.as_slice(), picture);
    Ok(())
}

/// Writes a page with a picture, the lines of the trace and the reasons.
fn draw_page(
    alloc: Global,
    session: &SessionParts,
    answer: Answer,
    net: bool,
    page: &mut Text,
) -> Result<(), NoMemory> {
    write_page_front(page);
    draw_svg(alloc, session, net, page)?;
    let reasons = reasons(alloc, session, answer, net)?;
    write_page_end(reasons.as_slice(), session.trace_bytes(), page);
    Ok(())
}

/// Draws a trace, in a page where that is wanted.
fn draw(
    alloc: Global,
    session: &SessionParts,
    answer: Answer,
    options: Options,
) -> Result<Vec<u8>, NoMemory> {
    let mut picture = Text::empty(alloc);
    if options.html {
        draw_page(alloc, session, answer, options.net, &mut picture)?;
    } else {
        draw_svg(alloc, session, options.net, &mut picture)?;
    }
    picture.finish()
}

/// Says the verdict on a trace that is drawn.
fn say_verdict(alloc: Global, said: &mut Said, session: &SessionParts, answer: Answer, json: bool) {
    if json {
        verdict_line(alloc, session, answer).end(&mut said.out);
    } else {
        write_verdict(answer, &mut said.out);
    }
}

/// Draws a session with a verdict; of another one it says what is wrong.
fn picture(
    alloc: Global,
    said: &mut Said,
    session: &SessionParts,
    options: Options,
) -> Result<Drawn, NoMemory>
    ensures { IfOk result (λ drawn. IsStatusOf session.now.script.rest.now
        (option_map (λ part. part.text.now) session.now.trace) (not options.net) drawn.status) }
{
    let answer = session.answer(alloc, !options.net)?;
    let status = answer.status();
    if said.faults(alloc, session, answer, options.json)? {
        return Ok(Drawn {
            status,
            picture: None,
        });
    }
    say_verdict(alloc, said, session, answer, options.json);
    let picture = Some(draw(alloc, session, answer, options)?);
    Ok(Drawn { status, picture })
}

/// The same of a session's files, of which one may have a trace that is given twice.
#[tactic(auto, using(crate::proofs::SessionLemmas::status_on))]
fn picture_session(
    alloc: Global,
    said: &mut Said,
    files: SessionFiles,
    options: Options,
) -> Result<Drawn, NoMemory>
    ensures { IfOk result (λ drawn. IsSessionStatus (not options.net)
        files.entry.script.text.now (option_map (λ file. file.text.now) files.entry.trace)
        drawn.status) }
{
    let session = files.parts();
    if files.has_two_traces() {
        return Ok(Drawn {
            status: say_two_traces(alloc, said, &session, options.json),
            picture: None,
        });
    }
    picture(alloc, said, &session, options)
}

/// Draws a session as an SVG, or as a page for a browser that shows it with the lines of the trace and
/// the reasons; of an illegal trace, what comes before the illegal line. The verdict is said, or what
/// is wrong with a script or a trace that has none: then nothing is drawn.
pub fn picture_command(
    alloc: Global,
    said: &mut Said,
    script: ReadFile,
    trace: Option<ReadFile>,
    options: Options,
) -> Result<Drawn, NoMemory>
    ensures { IfOk result
        (λ drawn. IsWhyStatus (not options.net) script.entry trace.entry drawn.status) }
{
    match session_of(script, trace) {
        Ok(files) => picture_session(alloc, said, files, options),
        Err(file) => Ok(Drawn {
            status: file.say(alloc, said, options.json),
            picture: None,
        }),
    }
}
