ghost use Rattle.std.specs.Prelude.{◌≡◌, IfOk};
ghost use Rattle.asio_command.specs.Answer.{IsRefusalIn};

use crate::said::Said;
use crate::show::explained_fault;
use asio_types::NoMemory;
use command_words::CommandStatus;
use fault_reports::FileText;
use session_script::{Refusal, ScriptFault, read_script};
use std::alloc::Global;
use text_places::ScriptParts;

/// The first fault of a script's text, if it has one.
pub(crate) fn refusal_in(alloc: Global, script: &[u8]) -> Result<Option<Refusal>, NoMemory>
    ensures { IfOk result (IsRefusalIn script.now) }
{
    match read_script(alloc, script) {
        Ok(_) => Ok(None),
        Err(ScriptFault::Refused(refusal)) => Ok(Some(refusal)),
        Err(ScriptFault::NoMemory) => Err(NoMemory),
    }
}

/// Says why the script of a file is refused, and gives the status.
pub(crate) fn say_refused(
    alloc: Global,
    said: &mut Said,
    file: FileText,
    parts: ScriptParts,
    refusal: Refusal,
    json: bool,
) -> Result<CommandStatus, NoMemory>
    ensures { IfOk result (λ status. status ≡ CommandStatus.Refused) }
{
    let fault = explained_fault(alloc, file, parts, refusal)?;
    said.fault(alloc, &fault, CommandStatus::Refused, json);
    Ok(CommandStatus::Refused)
}
