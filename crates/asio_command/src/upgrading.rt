ghost use Rattle.std.specs.Prelude.{IfOk};
ghost use Rattle.asio_command.specs.Scripts.{IsReadStatus, IsUpgradeOf, IsUpgradeStatus, IsUpgradeStatusOf};

use crate::parts::file_script;
use crate::read_file::ReadFile;
use crate::refused::say_refused;
use crate::said::Said;
use asio_types::NoMemory;
use command_words::{CommandStatus, Options};
use fault_reports::{FileText, shown_name};
use session_script::{Refusal, ScriptFault, read_script, upgrade, write_script};
use std::alloc::Global;
use text_places::{JsonLine, ScriptParts};

/// What became of a script.
#[derive(Drop)]
enum Upgraded {
    Text(Vec<u8>),
    Refused(Refusal),
}

/// The text of a script's upgrade and a line feed, or its first fault.
fn upgrade_text(alloc: Global, script: &[u8]) -> Result<Upgraded, NoMemory>
    ensures { IfOk result (IsUpgradeOf script.now) }
{
    let script = match read_script(alloc, script) {
        Ok(script) => script,
        Err(ScriptFault::Refused(refusal)) => return Ok(Upgraded::Refused(refusal)),
        Err(ScriptFault::NoMemory) => return Err(NoMemory),
    };
    let new = upgrade(alloc, &script)?;
    let mut text = write_script(alloc, &new)?;
    text.push(b'\n')?;
    Ok(Upgraded::Text(text))
}

/// Says the text of an upgrade.
fn say_text(alloc: Global, said: &mut Said, name: &str, text: &[u8], json: bool) {
    if json {
        let mut line = JsonLine::begin(alloc, shown_name(name), CommandStatus::Done.number());
        line.text("script", text);
        line.end(&mut said.out);
    } else {
        said.out.bytes(text);
    }
}

/// Says a script in version 2, or what is wrong with it.
fn say_parts(
    alloc: Global,
    said: &mut Said,
    file: FileText,
    parts: ScriptParts,
    json: bool,
) -> Result<CommandStatus, NoMemory>
    ensures { IfOk result (IsReadStatus parts.entry.rest.now) }
{
    match upgrade_text(alloc, parts.rest)? {
        Upgraded::Text(text) => {
            say_text(alloc, said, file.name, text.as_slice(), json);
            Ok(CommandStatus::Done)
        }
        Upgraded::Refused(refusal) => say_refused(alloc, said, file, parts, refusal, json),
    }
}

/// The same of the script of a file.
fn say_upgrade(
    alloc: Global,
    said: &mut Said,
    file: FileText,
    json: bool,
) -> Result<CommandStatus, NoMemory>
    ensures { IfOk result (IsUpgradeStatus file.entry.text.now) }
{
    let parts = file_script(file.text);
    say_parts(alloc, said, file, parts, json)
}

/// Says the text of a script's upgrade, which is in version 2 of the language, or where the script is
/// refused. Comments at the head aren't part of it.
pub fn upgrade_command(
    alloc: Global,
    said: &mut Said,
    file: ReadFile,
    options: Options,
) -> Result<CommandStatus, NoMemory>
    ensures { IfOk result (IsUpgradeStatusOf file.entry) }
{
    match file.file() {
        Ok(file) => say_upgrade(alloc, said, file, options.json),
        Err(file) => Ok(file.say(alloc, said, options.json)),
    }
}
