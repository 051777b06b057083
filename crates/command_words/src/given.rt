use crate::command::Options;
use crate::verb::{Choice, Verb};
use std::alloc::Global;

/// Why the words behind a verb are none of its own.
#[derive(Clone, Copy)]
pub(crate) enum WordFault<'w> {
    /// They ask for its page.
    Help,
    /// This word is none that it takes.
    Unexpected(&'w str),
    /// This is no number of workers.
    Workers(&'w str),
    /// No file is named.
    NoFile,
    /// A picture's verdict is asked for as an object, and no file is named for the picture.
    NoOut,
    /// The value of the last option is missing.
    NoValue,
    /// Memory was asked for and not given.
    NoMemory,
}

/// The words behind a verb.
#[derive(Drop)]
pub(crate) struct Given<'w> {
    /// The files.
    pub(crate) files: Vec<&'w str>,
    pub(crate) options: Options,
    /// How many workers each round has, as the word is.
    pub(crate) workers: Option<&'w str>,
    /// The file that gets the picture.
    pub(crate) out: Option<&'w str>,
    /// The option whose value comes next.
    waits: Option<Choice>,
    /// Whether all that comes is a file.
    only_files: bool,
}

impl<'w> Given<'w> {
    fn nothing(alloc: Global) -> Given<'w> {
        Given {
            files: Vec::new(alloc),
            options: Options {
                net: false,
                json: false,
                html: false,
            },
            workers: None,
            out: None,
            waits: None,
            only_files: false,
        }
    }

    /// Reads the words behind a verb: files, options, and behind `--` files alone.
    pub(crate) fn of(
        alloc: Global,
        verb: Verb,
        words: &'w [&'w str],
    ) -> Result<Given<'w>, WordFault<'w>> {
        let mut given = Given::nothing(alloc);
        for word in words {
            given.take(verb, word)?;
        }
        match given.waits {
            Some(_) => Err(WordFault::NoValue),
            None => Ok(given),
        }
    }

    /// Takes a word.
    fn take(&mut self, verb: Verb, word: &'w str) -> Result<(), WordFault<'w>> {
        if let Some(choice) = self.waits {
            self.waits = None;
            return self.set(choice, word, word);
        }
        if self.only_files || word == "-" || !word.starts_with('-') {
            // (what stands behind the file is the question)
            self.only_files = self.only_files || matches!(verb, Verb::Orders);
            return self.file(word);
        }
        if word == "--" {
            self.only_files = true;
            return Ok(());
        }
        self.option(verb, word)
    }

    fn file(&mut self, word: &'w str) -> Result<(), WordFault<'w>> {
        match self.files.push(word) {
            Ok(()) => Ok(()),
            Err(_) => Err(WordFault::NoMemory),
        }
    }

    /// Takes an option, with its value behind `=` or without.
    fn option(&mut self, verb: Verb, word: &'w str) -> Result<(), WordFault<'w>> {
        let (name, value) = match word.split_once('=') {
            Some((name, value)) => (name, Some(value)),
            None => (word, None),
        };
        match (verb.choice(name), value) {
            (Some(choice), Some(value)) => self.set(choice, word, value),
            (Some(choice), None) => self.begin(choice),
            (None, _) => Err(WordFault::Unexpected(word)),
        }
    }

    /// Takes an option's value.
    fn set(&mut self, choice: Choice, word: &'w str, value: &'w str) -> Result<(), WordFault<'w>> {
        match choice {
            Choice::Workers => self.workers = Some(value),
            Choice::Out => self.out = Some(value),
            _ => return Err(WordFault::Unexpected(word)),
        }
        Ok(())
    }

    /// Takes an option without a value.
    fn begin(&mut self, choice: Choice) -> Result<(), WordFault<'w>> {
        match choice {
            Choice::Net => self.options.net = true,
            Choice::Json => self.options.json = true,
            Choice::Html => self.options.html = true,
            Choice::Workers | Choice::Out => self.waits = Some(choice),
            Choice::Help => return Err(WordFault::Help),
        }
        Ok(())
    }
}
