ghost use Rattle.std.specs.Prelude.{◌≡◌};
ghost use Rattle.session_script.specs.declared.refusal.ScriptFault.TheVariants.{NoMemory};

use std::alloc::{AllocError, AllocFailed};

/// Why a text is no script: the rules of refusal, numbered from 1.
#[derive(Clone, Copy, Debug, PartialEq, Eq)]
pub enum Rule {
    /// A byte is neither printable ASCII nor a space, TAB, LF or CR.
    NotText,
    /// The text has more than 262,144 bytes.
    TooLong,
    /// A token is of no kind.
    Token,
    /// A token is of another kind, or another word, than the grammar allows there, or the text ends
    /// too early.
    Shape,
    /// A number has a leading zero or isn't below 2^64.
    Number,
    /// A stream, timer, slot, guard or strand that isn't declared.
    Unknown,
    /// A number, bytes, or how many there are of something, outside the limits of the version.
    Limit,
    /// A declared guard is released by no act.
    Guard,
    /// A version other than 1 and 2.
    Version,
}

impl Rule {
    ghost use Rattle.session_script.specs.Rules.{number_of_rule};

    /// The rule's number, from 1 to 9.
    pub fn number(self) -> u8
        ensures { result ≡ number_of_rule self }
    {
        match self {
            Rule::NotText => 1,
            Rule::TooLong => 2,
            Rule::Token => 3,
            Rule::Shape => 4,
            Rule::Number => 5,
            Rule::Unknown => 6,
            Rule::Limit => 7,
            Rule::Guard => 8,
            Rule::Version => 9,
        }
    }
}

/// The first fault of a text, and where it stands.
#[derive(Clone, Copy, Debug, PartialEq, Eq)]
pub struct Refusal {
    /// The rule that the text breaks.
    pub rule: Rule,
    /// The line, from 1; 0 where the text is too long.
    pub line: u32,
    /// The number of the token, from 1; 0 where the text is too long.
    pub token: u32,
}

/// Why no script was read.
#[derive(Clone, Copy, Debug, PartialEq, Eq)]
pub enum ScriptFault {
    /// The bytes are no script.
    Refused(Refusal),
    /// Memory was asked for and not given.
    NoMemory,
}

impl From<AllocError> for ScriptFault {
    ghost from_gives = { λ _ e. e ≡ NoMemory };

    fn from(_e: AllocError) -> ScriptFault {
        ScriptFault::NoMemory
    }
}

impl<T: Drop> From<AllocFailed<T>> for ScriptFault {
    ghost from_gives = { λ _ e. e ≡ NoMemory };

    fn from(_e: AllocFailed<T>) -> ScriptFault {
        ScriptFault::NoMemory
    }
}
