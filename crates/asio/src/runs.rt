use asio_command::Said;
use asio_types::StdSource;
use command_words::CommandStatus;
use run_rules::{Level, Strictness};
use run_verdict::{Ending, judge_run, write_ending};
use std::alloc::Global;
use std::fs;
use std::fs::OpenFile;
use std::rt::Files;
use text_io::read_text;
use text_places::{JsonLine, Text};

/// The first line of a recorded run.
const HEADER: &[u8] = b"run 1\n";

/// What is asked of a run.
const PLAIN: Level = Level {
    streams: false,
    strictness: Strictness::Plain,
};

/// Whether the file with this name begins as a recorded run does. A file that can be read only once
/// isn't looked at.
pub(crate) fn is_run<R: Files>(rt: &R, alloc: Global, name: &str) -> bool {
    let Ok(file) = fs::open(rt, name) else {
        return false;
    };
    let is_plain = match file.metadata() {
        Ok(data) => data.is_file(),
        Err(_) => false,
    };
    if !is_plain {
        return false;
    }
    match read_text(alloc, &mut StdSource::of(file), HEADER.len()) {
        Ok(text) => text.as_slice() == HEADER,
        Err(_) => false,
    }
}

/// The status for what came of a run: that of the judge of runs.
fn status_of(ending: &Ending) -> CommandStatus {
    match ending {
        Ending::Legal => CommandStatus::Done,
        Ending::SoFar { .. } | Ending::Illegal { .. } => CommandStatus::Illegal,
        Ending::ReadFault { .. } => CommandStatus::ReadFault,
        Ending::NoRoom { .. } => CommandStatus::NoMemory,
        _ => CommandStatus::BadTrace,
    }
}

/// Says what came of a run, in the words of the judge of runs.
fn say(alloc: Global, said: &mut Said, name: &str, ending: &Ending, json: bool) -> CommandStatus {
    let status = status_of(ending);
    if !json {
        // (a text that finds no memory counts that)
        let _ = write_ending(&mut said.out, ending);
        return status;
    }
    let mut text = Text::empty(alloc);
    let _ = write_ending(&mut text, ending);
    let Ok(lines) = text.finish() else {
        return CommandStatus::NoMemory;
    };
    let mut object = JsonLine::begin(alloc, name, status.number());
    object.lines("verdict", lines.as_slice());
    object.end(&mut said.out);
    status
}

/// Says that a run can't be read.
fn say_unread(said: &mut Said, name: &str) -> CommandStatus {
    said.notes.words("error: ");
    said.notes.words(name);
    said.notes.line(": reading failed");
    CommandStatus::ReadFault
}

/// Judges the recorded run in the file with this name, and says the verdict.
pub(crate) fn check_run<R: Files>(
    rt: &R,
    alloc: Global,
    name: &str,
    json: bool,
    said: &mut Said,
) -> CommandStatus {
    let Ok(file) = fs::open(rt, name) else {
        return say_unread(said, name);
    };
    match judge_run(alloc, PLAIN, &mut StdSource::of(file)) {
        Ok(Ending::ReadFault { .. }) => say_unread(said, name),
        Ok(ending) => say(alloc, said, name, &ending, json),
        Err(_) => CommandStatus::NoMemory,
    }
}
