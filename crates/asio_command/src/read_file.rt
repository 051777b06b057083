ghost use Rattle.std.specs.Prelude.{◌≡◌, IfErr, IfOk};
ghost use Rattle.std.specs.Option.{option_map};
ghost use Rattle.asio_command.specs.Files.{HasText, HasTexts, IsUnreadable, unreadable_status};

use crate::said::{Problem, Said};
use crate::session_files::SessionFiles;
use command_words::CommandStatus;
use fault_reports::FileText;
use std::alloc::Global;

/// Why a file has no text.
#[derive(Clone, Copy)]
pub enum Unreadable {
    /// There is no such file.
    Missing,
    /// It may not be read.
    Denied,
    /// It is a folder.
    Folder,
    /// Standard input was read already.
    ReadBefore,
    /// Reading failed.
    Failed,
    /// Memory was asked for and not given.
    NoMemory,
}

/// A file as it was read: its name, as it was given, and its text, or why it has none.
#[derive(Clone, Copy)]
pub struct ReadFile<'t> {
    /// The name; `-` is standard input.
    pub name: &'t str,
    /// The text, or its first `MOST_INPUT_READ` bytes where it is longer.
    pub text: Result<&'t [u8], Unreadable>,
}

impl Unreadable {
    /// Why, in words.
    fn words(self) -> &'static str {
        match self {
            Unreadable::Missing => "no such file",
            Unreadable::Denied => "it may not be read",
            Unreadable::Folder => "it is a folder",
            Unreadable::ReadBefore => "it is read once only",
            Unreadable::Failed => "reading failed",
            Unreadable::NoMemory => "no memory",
        }
    }

    /// The status with which it ends a command.
    pub fn status(self) -> CommandStatus
        ensures { result ≡ unreadable_status self }
    {
        match self {
            Unreadable::NoMemory => CommandStatus::NoMemory,
            _ => CommandStatus::ReadFault,
        }
    }
}

/// A file that can't be read.
#[derive(Clone, Copy)]
pub(crate) struct UnreadableFile<'t> {
    pub(crate) name: &'t str,
    pub(crate) why: Unreadable,
}

impl UnreadableFile<'_> {
    /// Says that it can't be read, and why, and gives the status.
    pub(crate) fn say(&self, alloc: Global, said: &mut Said, json: bool) -> CommandStatus
        ensures { result ≡ unreadable_status self.now.why }
    {
        let status = self.why.status();
        let problem = Problem {
            name: self.name,
            status,
            verdict: "unreadable",
            message: self.why.words(),
        };
        said.problem(alloc, &problem, json);
        status
    }
}

impl<'t> ReadFile<'t> {
    /// The file with its text.
    pub(crate) fn file(&self) -> Result<FileText<'t>, UnreadableFile<'t>>
        ensures read { IfOk result (λ file. HasText self.now file.text.now) }
        ensures unread { IfErr result (λ file. self.now.text ≡ Err file.why) }
    {
        match self.text {
            Ok(text) => Ok(FileText {
                name: self.name,
                text,
            }),
            Err(why) => Err(UnreadableFile {
                name: self.name,
                why,
            }),
        }
    }
}

/// The files of a session, or the first one that can't be read.
pub(crate) fn session_of<'t>(
    script: ReadFile<'t>,
    trace: Option<ReadFile<'t>>,
) -> Result<SessionFiles<'t>, UnreadableFile<'t>>
    ensures read { IfOk result (λ files. HasTexts script.entry trace.entry files.script.text.now
        (option_map (λ file. file.text.now) files.trace)) }
    ensures unread { IfErr result (λ file. IsUnreadable script.entry trace.entry file.why) }
{
    let script = script.file()?;
    let trace = match trace {
        Some(file) => Some(file.file()?),
        None => None,
    };
    Ok(SessionFiles { script, trace })
}
