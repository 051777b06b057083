ghost use Rattle.std.specs.Prelude.{◌≡◌};
ghost use Rattle.run_lines.specs.Code.{IsCode, code_text};
ghost use Rattle.run_lines.specs.Letters.{IsLetters, IsOtherCode};

use crate::letters::{Letters, is};
use std::marker::Model;

/// How an operation completed: the `error_code` of its handler.
#[derive(Clone, Copy, Debug, PartialEq, Eq)]
pub enum Code {
    /// `ok`: success.
    Ok,
    /// `aborted`: cancelled, `error::operation_aborted`.
    Aborted,
    /// Another outcome, as `eof`.
    Other(OtherCode),
}

/// Letters that are none of `ok` and `aborted`.
#[derive(Clone, Copy, Debug, PartialEq, Eq)]
pub struct OtherCode {
    letters: Letters,
}

impl Model for OtherCode {
    ghost use Rattle.std.specs.Prelude.{ℕ, List};
    ghost use Rattle.run_lines.specs.Letters.{IsOtherCode};

    ghost Value = { List ℕ };

    ghost view = { λ c. c.letters };

    ghost invariant = { λ c. IsOtherCode c.letters };

    ghost inverse = { λ v. record { letters = v } };
}

impl Code {
    ghost use Rattle.run_lines.specs.Reading.{code_of};

    /// What these letters say.
    #[tactic(auto, unfolding(crate::specs::Reading::code_of))]
    pub fn of(letters: Letters) -> Code
        ensures { result ≡ code_of letters }
    {
        let text = letters.as_slice();
        if is(text, b"ok") {
            Code::Ok
        } else if is(text, b"aborted") {
            Code::Aborted
        } else {
            Code::Other(OtherCode { letters })
        }
    }

    /// The code as text.
    pub fn as_slice(&self) -> &[u8]
        ensures text { result.now ≡ code_text self.now }
        ensures code { IsCode self.now }
    {
        match self {
            Code::Ok => b"ok",
            Code::Aborted => b"aborted",
            Code::Other(code) => code.as_slice(),
        }
    }
}

impl OtherCode {
    /// The letters.
    pub fn as_slice(&self) -> &[u8]
        ensures value { result.now ≡ self.now }
        ensures letters { IsLetters self.now }
        ensures other { IsOtherCode self.now }
    {
        self.letters.as_slice()
    }
}
