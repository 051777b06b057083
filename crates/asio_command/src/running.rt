ghost use Rattle.std.specs.Prelude.{◌≡◌, IfOk, None};
ghost use Rattle.asio_command.specs.Scripts.{IsPrepared, IsPreparedOf, IsPreparedText};

use crate::parts::file_script;
use crate::read_file::ReadFile;
use crate::refused::{refusal_in, say_refused};
use crate::said::Said;
use asio_types::NoMemory;
use command_words::{CommandStatus, Options};
use fault_reports::FileText;
use std::alloc::Global;
use text_places::{ScriptParts, Text, tokens_of};

/// A script that is to be run.
#[derive(Drop)]
pub struct RunScript {
    /// The text for the reader of scripts.
    pub text: Vec<u8>,
    /// The comments at its head.
    pub head: Vec<u8>,
}

/// What is to be done of a file that is to be run.
#[derive(Drop)]
pub enum Prepared {
    /// Its script is to be run.
    Ready(RunScript),
    /// There is nothing to run, and this was said.
    Ended(CommandStatus),
}

/// A script's text with so many workers in each round: the number behind each `run` and `poll`,
/// which stand nowhere else.
fn with_workers(alloc: Global, script: &[u8], workers: u8) -> Result<Vec<u8>, NoMemory> {
    let mut text = Text::empty(alloc);
    let mut done = 0usize;
    let mut is_next = false;
    for token in tokens_of(script) {
        if is_next {
            text.bytes(script.get(done..token.at).unwrap_or(&[]));
            text.number(workers as u64);
            done = token.at.saturating_add(token.bytes.len());
        }
        is_next = matches!(token.bytes, b"run" | b"poll");
    }
    text.bytes(script.get(done..).unwrap_or(&[]));
    text.finish()
}

/// The text of a script that is to be run.
fn run_text(alloc: Global, script: &[u8], workers: Option<u8>) -> Result<Vec<u8>, NoMemory>
    ensures { workers ≡ None → IfOk result (λ text. text.items ≡ script.now) }
{
    match workers {
        Some(workers) => with_workers(alloc, script, workers),
        None => Ok(Vec::from_slice(alloc, script)?),
    }
}

/// The parts of a script that can be read, with so many workers in each round where that is said.
fn ready(alloc: Global, parts: ScriptParts, workers: Option<u8>) -> Result<RunScript, NoMemory>
    ensures { workers ≡ None → IfOk result (λ script. script.text.items ≡ parts.entry.rest.now) }
{
    let text = run_text(alloc, parts.rest, workers)?;
    let head = Vec::from_slice(alloc, parts.head)?;
    Ok(RunScript { text, head })
}

/// A script that can be read, or what is wrong with it.
fn prepare_parts(
    alloc: Global,
    said: &mut Said,
    file: FileText,
    parts: ScriptParts,
    workers: Option<u8>,
    options: Options,
) -> Result<Prepared, NoMemory>
    ensures { IfOk result (IsPreparedText parts.entry.rest.now workers) }
{
    match refusal_in(alloc, parts.rest)? {
        None => Ok(Prepared::Ready(ready(alloc, parts, workers)?)),
        Some(refusal) => {
            let status = say_refused(alloc, said, file, parts, refusal, options.json)?;
            Ok(Prepared::Ended(status))
        }
    }
}

/// The script of a file, or what is wrong with it.
fn prepare(
    alloc: Global,
    said: &mut Said,
    file: FileText,
    workers: Option<u8>,
    options: Options,
) -> Result<Prepared, NoMemory>
    ensures { IfOk result (IsPrepared file.entry.text.now workers) }
{
    let parts = file_script(file.text);
    prepare_parts(alloc, said, file, parts, workers, options)
}

/// The script that is to be run: the text of the file, up to a line `--`, behind the comments at its
/// head. Where it is refused, or can't be read, that is said, and there is nothing to run.
pub fn prepare_run(
    alloc: Global,
    said: &mut Said,
    file: ReadFile,
    workers: Option<u8>,
    options: Options,
) -> Result<Prepared, NoMemory>
    ensures { IfOk result (IsPreparedOf file.entry workers) }
{
    match file.file() {
        Ok(file) => prepare(alloc, said, file, workers, options),
        Err(file) => Ok(Prepared::Ended(file.say(alloc, said, options.json))),
    }
}
