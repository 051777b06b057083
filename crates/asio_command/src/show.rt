ghost use Rattle.std.specs.Prelude.{◌≡◌, ◌⊎◌, [], IfOk, OnErr, map, string_bytes};
ghost use Rattle.history_book.specs.Trace.{line_end};
ghost use Rattle.asio_command.specs.Show.{JoinsParts, ShowsInput, show_words, shown_word, written_to};

use asio_types::{NoMemory, SureSource};
use fault_reports::{Fault, FileText, script_fault};
use session_script::Refusal;
use std::alloc::Global;
use text_places::{ScriptParts, Text};
use trace_check::CheckStatus;
use trace_show::show_session;

/// What is shown of a trace.
#[derive(Clone, Copy)]
pub(crate) enum Showing {
    /// Why it is judged so.
    Why,
    /// A picture.
    Picture,
}

/// The word by which the library is asked to show this.
fn shown_word(showing: Showing) -> &'static str
    ensures { result.now ≡ shown_word showing }
{
    match showing {
        Showing::Why => "why",
        Showing::Picture => "picture",
    }
}

/// The words by which the library is asked to show this.
fn words_for(alloc: Global, showing: Showing, net: bool) -> Result<Vec<String>, NoMemory>
    ensures { IfOk result (λ words. map string_bytes words.items ≡ show_words showing net) }
{
    let mut words = Vec::new(alloc);
    words.push(String::from_str(alloc, shown_word(showing))?)?;
    if !net {
        return Ok(words);
    }
    words.push(String::from_str(alloc, "--net")?)?;
    Ok(words)
}

/// The line end that a script wants before a line behind it.
fn line_end_behind(script: &[u8]) -> &'static [u8]
    ensures { (result.now ≡ []) ⊎ (result.now ≡ line_end) }
{
    if script.ends_with(b"\n") { b"" } else { b"\n" }
}

/// A script, the line that parts it from a trace, and the trace.
pub(crate) fn joined(alloc: Global, script: &[u8], trace: &[u8]) -> Result<Vec<u8>, NoMemory>
    ensures { IfOk result (λ input. JoinsParts script.now trace.now input.items) }
{
    let end = line_end_behind(script);
    let mut input = Vec::from_slice(alloc, script)?;
    input.extend_from_slice(end)?;
    input.extend_from_slice(b"--\n")?;
    input.extend_from_slice(trace)?;
    Ok(input)
}

/// Has an input of script and trace shown by the library of explanations and pictures.
pub(crate) fn show_input(
    alloc: Global,
    showing: Showing,
    net: bool,
    input: &[u8],
    out: &mut Text,
    notes: &mut Text,
) -> Result<CheckStatus, NoMemory>
    ensures shows { IfOk result (ShowsInput showing net input.now (written_to out.old out.new)) }
    ensures unasked { OnErr result (out.new ≡ out.old) }
{
    let words = words_for(alloc, showing, net)?;
    let mut source = SureSource::make(alloc, input)?;
    Ok(show_session(alloc, words.as_slice(), &mut source, out, notes, false))
}

/// Has a script explained that is refused: the rule in words, and what could stand in the place.
fn explain(alloc: Global, script: &[u8]) -> Result<Vec<u8>, NoMemory> {
    let input = joined(alloc, script, &[])?;
    let mut out = Text::empty(alloc);
    let mut notes = Text::empty(alloc);
    show_input(
        alloc,
        Showing::Why,
        false,
        input.as_slice(),
        &mut out,
        &mut notes,
    )?;
    notes.finish()
}

/// The fault of a file whose script has these parts and is refused.
pub(crate) fn explained_fault<'t>(
    alloc: Global,
    file: FileText<'t>,
    parts: ScriptParts<'t>,
    refusal: Refusal,
) -> Result<Fault<'t>, NoMemory> {
    let lines = explain(alloc, parts.rest)?;
    Ok(script_fault(alloc, file, parts, refusal, lines.as_slice()))
}
