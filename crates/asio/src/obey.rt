use crate::disk::{DiskFile, DiskFiles};
use crate::runs::{check_run, is_run};
use asio_command::{
    Drawn, Prepared, ReadFile, RunScript, Said, check_files, check_two, picture_command,
    prepare_run, upgrade_command, why_command,
};
use asio_types::NoMemory;
use command_words::{Command, CommandStatus, Options};
use std::alloc::Global;
use std::fs;
use std::io::{Read, Write};
use std::rt::Files;
use text_places::Text;

/// The options of a command that takes none.
const PLAIN: Options = Options {
    net: false,
    json: false,
    html: false,
};

/// What comes of a command.
#[derive(Drop)]
pub(crate) enum Step {
    /// All is done.
    Ended(CommandStatus),
    /// This script is to be run.
    Run {
        script: RunScript,
        options: Options,
    },
    /// The orders of this script are asked for by these words.
    Orders {
        script: RunScript,
        words: Vec<String>,
    },
}

/// A session's files, by their names.
#[derive(Clone, Copy)]
struct SessionNames<'w> {
    script: &'w str,
    trace: Option<&'w str>,
}

/// A session's files as they were read.
#[derive(Drop)]
struct ReadSession<'w> {
    script: DiskFile<'w>,
    trace: Option<DiskFile<'w>>,
}

impl<'w> ReadSession<'w> {
    /// Reads the script, and then the trace.
    fn of<R: Files, I: Read + Drop>(
        names: SessionNames<'w>,
        files: &DiskFiles<R, I>,
    ) -> ReadSession<'w> {
        let script = files.file(names.script);
        let trace = match names.trace {
            Some(trace) => Some(files.file(trace)),
            None => None,
        };
        ReadSession { script, trace }
    }

    /// The trace's file, if there is one.
    fn trace(&self) -> Option<ReadFile<'_>> {
        match &self.trace {
            Some(trace) => Some(trace.read_file()),
            None => None,
        }
    }
}

/// Files as they were read.
fn views_of<'t, 'w>(
    alloc: Global,
    read: &'t [DiskFile<'w>],
) -> Result<Vec<ReadFile<'t>>, NoMemory> {
    let mut views = Vec::new(alloc);
    for file in read {
        views.push(file.read_file())?;
    }
    Ok(views)
}

/// Judges the sessions of files that were read.
fn check_read(
    alloc: Global,
    read: &[DiskFile],
    options: Options,
    said: &mut Said,
) -> Result<CommandStatus, NoMemory> {
    let views = views_of(alloc, read)?;
    match views.as_slice() {
        [first, second] => check_two(alloc, said, *first, *second, options),
        all => check_files(alloc, said, all, options),
    }
}

/// Judges the sessions of files, or the recorded run in one file.
fn check<R: Files, I: Read + Drop>(
    names: &[&str],
    options: Options,
    files: &DiskFiles<R, I>,
    said: &mut Said,
) -> Result<CommandStatus, NoMemory> {
    if let [name] = names {
        if is_run(files.rt(), files.alloc(), name) {
            return Ok(check_run(files.rt(), files.alloc(), name, options.json, said));
        }
    }
    let read = files.all(names)?;
    check_read(files.alloc(), read.as_slice(), options, said)
}

/// Says why a session is judged as it is.
fn why<R: Files, I: Read + Drop>(
    names: SessionNames,
    options: Options,
    files: &DiskFiles<R, I>,
    said: &mut Said,
) -> Result<CommandStatus, NoMemory> {
    let read = ReadSession::of(names, files);
    why_command(
        files.alloc(),
        said,
        read.script.read_file(),
        read.trace(),
        options,
    )
}

/// Draws a session.
fn draw<R: Files, I: Read + Drop>(
    names: SessionNames,
    options: Options,
    files: &DiskFiles<R, I>,
    said: &mut Said,
) -> Result<Drawn, NoMemory> {
    let read = ReadSession::of(names, files);
    picture_command(
        files.alloc(),
        said,
        read.script.read_file(),
        read.trace(),
        options,
    )
}

/// Writes a picture into the file with this name.
fn write_file<R: Files>(rt: &R, name: &str, picture: &[u8]) -> bool {
    match fs::create(rt, name) {
        Ok(mut file) => file.write_all(picture).is_ok(),
        Err(_) => false,
    }
}

/// Puts a picture into a file, or in the place of what is said. Says whether that went well.
fn put_picture<R: Files>(rt: &R, out: Option<&str>, picture: &[u8], said: &mut Said) -> bool {
    match out {
        Some(name) => write_file(rt, name, picture),
        None => {
            said.out.bytes.clear();
            said.out.bytes(picture);
            true
        }
    }
}

/// Draws a session into a file, or to standard output, where no verdict is said then.
fn picture<R: Files, I: Read + Drop>(
    names: SessionNames,
    out: Option<&str>,
    options: Options,
    files: &DiskFiles<R, I>,
    said: &mut Said,
) -> Result<CommandStatus, NoMemory> {
    let drawn = draw(names, options, files, said)?;
    let Some(picture) = &drawn.picture else {
        return Ok(drawn.status);
    };
    if put_picture(files.rt(), out, picture.as_slice(), said) {
        Ok(drawn.status)
    } else {
        Ok(CommandStatus::WriteFault)
    }
}

/// Reads the script that is to be run.
fn prepare<R: Files, I: Read + Drop>(
    name: &str,
    workers: Option<u8>,
    options: Options,
    files: &DiskFiles<R, I>,
    said: &mut Said,
) -> Result<Step, NoMemory> {
    let alloc = files.alloc();
    let file = files.file(name);
    match prepare_run(alloc, said, file.read_file(), workers, options)? {
        Prepared::Ready(script) => Ok(Step::Run { script, options }),
        Prepared::Ended(status) => Ok(Step::Ended(status)),
    }
}

/// The words of a question, behind those before it.
fn question_of(alloc: Global, words: &[&str], before: usize) -> Result<Vec<String>, NoMemory> {
    let mut question = Vec::new(alloc);
    for word in words.get(before..).unwrap_or(&[]) {
        question.push(String::from_str(alloc, word)?)?;
    }
    Ok(question)
}

/// Reads the script whose orders are asked for.
fn prepare_orders<R: Files, I: Read + Drop>(
    name: &str,
    words: &[&str],
    files: &DiskFiles<R, I>,
    said: &mut Said,
) -> Result<Step, NoMemory> {
    let alloc = files.alloc();
    let file = files.file(name);
    match prepare_run(alloc, said, file.read_file(), None, PLAIN)? {
        Prepared::Ready(script) => {
            let words = question_of(alloc, words, 1)?;
            Ok(Step::Orders { script, words })
        }
        Prepared::Ended(status) => Ok(Step::Ended(status)),
    }
}

/// Does what a command says, but for running a script.
pub(crate) fn obey<R: Files, I: Read + Drop>(
    command: &Command,
    files: &DiskFiles<R, I>,
    said: &mut Said,
) -> Result<Step, NoMemory> {
    let status = match command {
        Command::Run {
            file,
            options,
            workers,
        } => return prepare(*file, *workers, *options, files, said),
        Command::Check {
            files: names,
            options,
        } => check(names.as_slice(), *options, files, said)?,
        Command::Why {
            file,
            trace,
            options,
        } => {
            let names = SessionNames {
                script: *file,
                trace: *trace,
            };
            why(names, *options, files, said)?
        }
        Command::Picture {
            file,
            trace,
            out,
            options,
        } => {
            let names = SessionNames {
                script: *file,
                trace: *trace,
            };
            picture(names, *out, *options, files, said)?
        }
        Command::Orders { file, words } => {
            return prepare_orders(*file, words.as_slice(), files, said);
        }
        Command::Upgrade { file, options } => {
            let alloc = files.alloc();
            let read = files.file(*file);
            upgrade_command(alloc, said, read.read_file(), *options)?
        }
    };
    Ok(Step::Ended(status))
}
