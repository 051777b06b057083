ghost use Rattle.std.specs.Prelude.{◌≡◌};

use asio_types::{Class, Code, Event, NoMemory};
use itoa::Buffer;
use std::alloc::Global;

/// A text that is put together from words and numbers.
#[derive(Drop)]
pub(crate) struct Detail {
    text: Vec<u8>,
}

impl Detail {
    /// No text.
    pub(crate) fn empty(alloc: Global) -> Detail {
        Detail {
            text: Vec::new(alloc),
        }
    }

    /// No text, with room for so many bytes.
    pub(crate) fn with_room(alloc: Global, room: usize) -> Result<Detail, NoMemory> {
        Ok(Detail {
            text: Vec::with_capacity(alloc, room)?,
        })
    }

    /// The text so far.
    pub(crate) fn as_bytes(&self) -> &[u8]
        ensures { result.now ≡ self.now.text.items }
    {
        self.text.as_slice()
    }

    /// Some words more.
    pub(crate) fn words(&mut self, words: &str) -> Result<(), NoMemory> {
        self.text.extend_from_slice(words.as_bytes())?;
        Ok(())
    }

    /// Some bytes more.
    pub(crate) fn bytes(&mut self, bytes: &[u8]) -> Result<(), NoMemory> {
        self.text.extend_from_slice(bytes)?;
        Ok(())
    }

    /// A number, in decimal.
    pub(crate) fn number(&mut self, number: u64) -> Result<(), NoMemory> {
        self.text
            .extend_from_slice(Buffer::new().format(number).as_bytes())?;
        Ok(())
    }

    /// Some words and a number behind them.
    pub(crate) fn field(&mut self, words: &str, number: u64) -> Result<(), NoMemory> {
        self.words(words)?;
        self.number(number)
    }

    /// A text with the next of these numbers for each `@`.
    pub(crate) fn fill(&mut self, text: &str, numbers: &[u64]) -> Result<(), NoMemory> {
        let mut next = 0usize;
        for byte in text.as_bytes() {
            if *byte == b'@' {
                self.number(numbers.get(next).copied().unwrap_or(0))?;
                next = next.saturating_add(1);
            } else {
                self.text.push(*byte)?;
            }
        }
        Ok(())
    }

    /// The text begins anew, in the memory that it has.
    pub(crate) fn clear(&mut self) {
        self.text.clear();
    }

    /// Some words and a line of the trace behind them; nothing where there is none.
    pub(crate) fn at_line(&mut self, words: &str, line: Option<u32>) -> Result<(), NoMemory> {
        match line {
            Some(line) => self.field(words, line as u64),
            None => Ok(()),
        }
    }

    /// A code and a size.
    pub(crate) fn outcome(&mut self, code: Code, size: u32) -> Result<(), NoMemory> {
        self.words(code_word(code))?;
        self.field(" ", size as u64)
    }

    /// What an event is about: its word, and the number of its act or its time.
    pub(crate) fn subject(&mut self, event: Event) -> Result<(), NoMemory> {
        match event {
            Event::Call { act } => self.field("call ", act as u64),
            Event::Back { act } => self.field("back ", act as u64),
            Event::Stop { act: Some(act) } => self.field("stop ", act as u64),
            Event::Stop { act: None } => self.words("stop -"),
            Event::Begin { op, .. } => self.field("begin ", op as u64),
            Event::End { op, .. } => self.field("end ", op as u64),
            Event::Take { act } => self.field("take ", act as u64),
            Event::Done { op, .. } => self.field("done ", op as u64),
            Event::Tick { now } => self.field("tick ", now),
            Event::Last => self.words("last"),
            Event::Fault => self.words("fault"),
            Event::Ended => self.words("ended"),
            Event::Stopped => self.words("stopped"),
            Event::Polled => self.words("polled"),
            Event::Restart => self.words("restart"),
            Event::Dropped { op, .. } => self.field("drop ", op as u64),
        }
    }
}

/// The word of a code in a trace.
pub(crate) fn code_word(code: Code) -> &'static str {
    match code {
        Code::Ok => "ok",
        Code::Aborted => "aborted",
        Code::Eof => "eof",
        Code::NotFound => "not_found",
        Code::Bad => "bad",
        Code::Broken => "broken",
        Code::Reset => "reset",
    }
}

/// Where the body of a class stands in the script.
pub(crate) fn class_words(class: Class) -> &'static str {
    match class {
        Class::Ok => "its first body",
        Class::Abort => "the body behind `abort`",
        Class::Other => "the body behind `other`",
    }
}
