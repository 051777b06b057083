use crate::disk::DiskFiles;
use crate::obey::{Step, obey};
use asio_command::Said;
use asio_types::{NoMemory, Sink, write_all};
use command_words::{Command, CommandStatus, NoCommand, command_in};
use std::alloc::Global;
use std::io::Read;
use std::rt::{Env, Files};
use text_io::{NoWords, Unfinished, words_of};

/// Writes what is for standard output.
fn write_out<K: Sink>(out: &mut K, text: &[u8]) -> Result<(), Unfinished> {
    match write_all(out, text) {
        Ok(()) => Ok(()),
        Err(_) => Err(Unfinished::Failed),
    }
}

/// Writes what a command says. Notes that can't be written change nothing.
fn write_said<K: Sink, N: Sink>(said: Said, out: &mut K, notes: &mut N) -> Result<(), Unfinished> {
    let (Ok(text), Ok(note)) = (said.out.finish(), said.notes.finish()) else {
        return Err(Unfinished::NoMemory);
    };
    let _ = write_all(notes, note.as_slice());
    write_out(out, text.as_slice())
}

/// Words that are no command: a page that they ask for, or what is wrong with them.
fn say_no_command<K: Sink, N: Sink>(
    out: &mut K,
    notes: &mut N,
    why: NoCommand,
) -> Result<CommandStatus, Unfinished> {
    match why {
        NoCommand::Shown(text) => {
            write_out(out, text.as_bytes())?;
            Ok(CommandStatus::Done)
        }
        NoCommand::Usage(text) => {
            let _ = write_all(notes, text.as_slice());
            Ok(CommandStatus::Usage)
        }
        NoCommand::NoMemory => Err(Unfinished::NoMemory),
    }
}

/// Does what a command says, but for running a script, and writes what it says.
fn obey_aloud<R: Files + Drop, I: Read + Drop, K: Sink, N: Sink>(
    rt: &R,
    alloc: Global,
    command: &Command,
    stdin: I,
    out: &mut K,
    notes: &mut N,
) -> Result<Step, Unfinished> {
    let files = DiskFiles::of(rt, alloc, stdin);
    let mut said = Said::nothing(alloc);
    let Ok(step) = obey(command, &files, &mut said) else {
        return Err(Unfinished::NoMemory);
    };
    write_said(said, out, notes)?;
    Ok(step)
}

/// The words as texts.
fn texts_of<'w>(alloc: Global, words: &'w [String]) -> Result<Vec<&'w str>, NoMemory> {
    let mut texts = Vec::new(alloc);
    for word in words {
        texts.push(word.as_str())?;
    }
    Ok(texts)
}

/// Reads words, and does what they say, but for running a script.
fn step_by<R: Files + Drop, I: Read + Drop, K: Sink, N: Sink>(
    rt: &R,
    alloc: Global,
    words: &[String],
    stdin: I,
    out: &mut K,
    notes: &mut N,
) -> Result<Step, Unfinished> {
    let Ok(texts) = texts_of(alloc, words) else {
        return Err(Unfinished::NoMemory);
    };
    match command_in(alloc, texts.as_slice()) {
        Ok(command) => obey_aloud(rt, alloc, &command, stdin, out, notes),
        Err(why) => Ok(Step::Ended(say_no_command(out, notes, why)?)),
    }
}

/// Reads the words of the program, and does what they say, but for running a script.
pub(crate) fn step_of<R: Env + Files + AllocGlobal + Drop, I: Read + Drop, K: Sink, N: Sink>(
    rt: &R,
    stdin: I,
    out: &mut K,
    notes: &mut N,
) -> Result<Step, Unfinished> {
    match words_of(rt) {
        Ok(words) => step_by(rt, rt.alloc(), words.as_slice(), stdin, out, notes),
        Err(NoWords::Unreadable) => {
            let _ = write_all(notes, b"error: a word of the command line isn't UTF-8\n");
            Ok(Step::Ended(CommandStatus::Usage))
        }
        Err(NoWords::NoMemory) => Err(Unfinished::NoMemory),
    }
}
