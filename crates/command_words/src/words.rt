ghost use Rattle.std.specs.Prelude.{IfOk, IfSome};
ghost use Rattle.command_words.specs.Command.{IsWithinLimits, IsWorkerCount};

use crate::command::Command;
use crate::given::{Given, WordFault};
use crate::pages;
use crate::verb::Verb;
use asio_types::NoMemory;
use std::alloc::Global;
use text_places::Text;

/// Why the words are no command.
#[derive(Drop)]
pub enum NoCommand {
    /// They ask for help or for the version: this is for standard output.
    Shown(&'static str),
    /// They are none: this is for standard error.
    Usage(Vec<u8>),
    /// Memory was asked for and not given.
    NoMemory,
}

/// The number of workers that a word names, if it may be in a round.
fn workers_in(word: &str) -> Option<u8>
    ensures { IfSome result IsWorkerCount }
{
    match word.parse::<u8>() {
        Ok(workers) if 1 <= workers && workers <= 16 => Some(workers),
        _ => None,
    }
}

/// The command to run a script.
fn run<'w>(file: &'w str, given: &Given<'w>) -> Result<Command<'w>, WordFault<'w>>
    ensures { IfOk result IsWithinLimits }
{
    let workers = match given.workers {
        Some(word) => match workers_in(word) {
            Some(workers) => Some(workers),
            None => return Err(WordFault::Workers(word)),
        },
        None => None,
    };
    Ok(Command::Run {
        file,
        options: given.options,
        workers,
    })
}

/// The command to draw a session.
fn picture<'w>(file: &'w str, given: &Given<'w>) -> Result<Command<'w>, WordFault<'w>>
    ensures { IfOk result IsWithinLimits }
{
    if given.options.json && given.out.is_none() {
        return Err(WordFault::NoOut);
    }
    Ok(Command::Picture {
        file,
        trace: given.files.get(1).copied(),
        out: given.out,
        options: given.options,
    })
}

/// The command that these words behind its own one make.
fn command_of<'w>(verb: Verb, given: Given<'w>) -> Result<Command<'w>, WordFault<'w>>
    ensures { IfOk result IsWithinLimits }
{
    let Some(file) = given.files.first().copied() else {
        return Err(WordFault::NoFile);
    };
    if let Some(word) = given.files.get(verb.most_files()) {
        return Err(WordFault::Unexpected(word));
    }
    match verb {
        Verb::Run => run(file, &given),
        Verb::Check => Ok(Command::Check {
            options: given.options,
            files: given.files,
        }),
        Verb::Why => Ok(Command::Why {
            file,
            trace: given.files.get(1).copied(),
            options: given.options,
        }),
        Verb::Picture => picture(file, &given),
        Verb::Orders => Ok(Command::Orders {
            file,
            words: given.files,
        }),
        Verb::Upgrade => Ok(Command::Upgrade {
            file,
            options: given.options,
        }),
    }
}

/// The command of a verb and the words behind it.
fn command_by<'w>(
    alloc: Global,
    verb: Verb,
    words: &'w [&'w str],
) -> Result<Command<'w>, WordFault<'w>>
    ensures { IfOk result IsWithinLimits }
{
    let given = Given::of(alloc, verb, words)?;
    command_of(verb, given)
}

/// What is wrong with words, and where help is.
fn usage(text: Text) -> NoCommand {
    let mut text = text;
    text.words("\nFor more information, try '--help'.\n");
    match text.finish() {
        Ok(text) => NoCommand::Usage(text),
        Err(NoMemory) => NoCommand::NoMemory,
    }
}

/// What is said of words that a verb doesn't take.
fn no_command(alloc: Global, verb: Verb, fault: WordFault) -> NoCommand {
    let mut text = Text::empty(alloc);
    text.words("error: ");
    match fault {
        WordFault::Help => return NoCommand::Shown(verb.page()),
        WordFault::NoMemory => return NoCommand::NoMemory,
        WordFault::Unexpected(word) => {
            text.words("unexpected argument '");
            text.words(word);
            text.line("' found");
        }
        WordFault::Workers(word) => {
            text.words("invalid value '");
            text.words(word);
            text.line("' for '--workers <N>': N is a number from 1 to 16");
        }
        WordFault::NoFile => text.line("a file is missing: <FILE>"),
        WordFault::NoOut => text.line("'--json' of a picture goes with '--out <FILE.svg>'"),
        WordFault::NoValue => text.line("a value is missing behind the last argument"),
    }
    text.words("\nUsage: ");
    text.line(verb.usage());
    usage(text)
}

/// What is said of a first word that is no verb.
fn no_verb(alloc: Global, word: &str) -> NoCommand {
    match word {
        "-h" | "--help" | "help" => return NoCommand::Shown(pages::PROGRAM),
        "-V" | "--version" => return NoCommand::Shown(pages::VERSION),
        _ => {}
    }
    let mut text = Text::empty(alloc);
    text.words("error: unrecognized subcommand '");
    text.words(word);
    text.words("'\n\nCommands: run, check, why, picture, orders, upgrade\n");
    usage(text)
}

/// What is said where there is no word.
fn no_word(alloc: Global) -> NoCommand {
    let mut text = Text::empty(alloc);
    text.words(pages::PROGRAM);
    usage(text)
}

/// The command that the words behind the program's name ask for.
pub fn command_in<'w>(alloc: Global, words: &'w [&'w str]) -> Result<Command<'w>, NoCommand>
    ensures { IfOk result IsWithinLimits }
{
    let Some((word, words)) = words.split_first() else {
        return Err(no_word(alloc));
    };
    let Some(verb) = Verb::of(word) else {
        return Err(no_verb(alloc, word));
    };
    match command_by(alloc, verb, words) {
        Ok(command) => Ok(command),
        Err(fault) => Err(no_command(alloc, verb, fault)),
    }
}
