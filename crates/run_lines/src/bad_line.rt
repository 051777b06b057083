ghost use Rattle.std.specs.Prelude.{◌≡◌};
ghost use Rattle.run_lines.specs.BadLine.{wants_text};

use std::fmt::{self, Display, Formatter, Write};

/// What could stand at a place of a line.
#[derive(Clone, Copy, Debug, PartialEq, Eq)]
pub enum Wants {
    /// The number of a thread, or the word `name`.
    Thread,
    /// What happened, as `call` or `begin`.
    Verb,
    /// A number below 2^64, in decimal and without a leading zero.
    Number,
    /// A number, or `-` for none.
    NumberOrDash,
    /// A small letter and up to 31 small letters, digits and `_`.
    Letters,
    /// What a name is given to, as `strand`.
    Kind,
    /// One or more printable ASCII characters, to the end of the line.
    Text,
    /// Nothing: the line ends there.
    Nothing,
}

/// Where bytes that are no line go wrong, and what could stand there.
#[derive(Clone, Copy, Debug, PartialEq, Eq)]
pub struct BadLine {
    /// The first word that can't stand where it does, or is missing, from 1.
    pub word: u8,
    /// What could stand there.
    pub wants: Wants,
}

impl Wants {
    /// What could stand there, in words.
    pub fn as_str(self) -> &'static str
        ensures { result.now ≡ wants_text self }
    {
        match self {
            Wants::Thread => "the number of a thread, or name",
            Wants::Verb => {
                "call, back, done, begin, end, throw, drop, claim, release, lock, unlock, mark, after, cancel, work, stop or restart"
            }
            Wants::Number => "a number below 2^64",
            Wants::NumberOrDash => "a number below 2^64, or -",
            Wants::Letters => "a small letter and up to 31 small letters, digits and _",
            Wants::Kind => "strand, thing, op, thread, context, lock or mark",
            Wants::Text => "printable characters",
            Wants::Nothing => "the end of the line",
        }
    }
}

impl Display for Wants {
    ghost use Rattle.std.specs.Prelude.{Some};
    ghost use Rattle.run_lines.specs.BadLine.{wants_text};

    ghost output = { λ wants. Some (wants_text wants) };

    fn fmt<W: Write>(&self, f: &mut Formatter<W>) -> fmt::Result {
        f.write_str(self.as_str())
    }
}

impl Display for BadLine {
    ghost use Rattle.std.specs.Prelude.{Some};
    ghost use Rattle.run_lines.specs.BadLine.{bad_line_text};

    ghost output = { λ bad. Some (bad_line_text bad) };

    fn fmt<W: Write>(&self, f: &mut Formatter<W>) -> fmt::Result {
        write!(f, "word {}: expected {}", self.word, self.wants)
    }
}
