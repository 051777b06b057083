ghost use Rattle.std.specs.Prelude.{◌≡◌};
ghost use Rattle.run_lines.specs.Letters.{IsLetters, IsOtherWord};
ghost use Rattle.run_lines.specs.Word.{IsWord, is_posting, word_text};

use crate::letters::{Letters, is};
use std::marker::Model;

/// What initiates an operation (Boost.Asio reference, `post`, `defer`, `dispatch`, and Overview,
/// "Asynchronous operations"). The first three submit a handler: they are postings.
#[derive(Clone, Copy, Debug, PartialEq, Eq)]
pub enum Word {
    /// `post`
    Post,
    /// `defer`
    Defer,
    /// `dispatch`
    Dispatch,
    /// An asynchronous operation, as `read`, `write`, `wait` or `accept`.
    Other(OtherWord),
}

/// Letters that are none of `post`, `defer` and `dispatch`.
#[derive(Clone, Copy, Debug, PartialEq, Eq)]
pub struct OtherWord {
    letters: Letters,
}

impl Model for OtherWord {
    ghost use Rattle.std.specs.Prelude.{ℕ, List};
    ghost use Rattle.run_lines.specs.Letters.{IsOtherWord};

    ghost Value = { List ℕ };

    ghost view = { λ w. w.letters };

    ghost invariant = { λ w. IsOtherWord w.letters };

    ghost inverse = { λ v. record { letters = v } };
}

impl Word {
    ghost use Rattle.run_lines.specs.Reading.{word_of};

    /// What these letters say.
    #[tactic(auto, unfolding(crate::specs::Reading::word_of))]
    pub fn of(letters: Letters) -> Word
        ensures { result ≡ word_of letters }
    {
        let text = letters.as_slice();
        if is(text, b"post") {
            Word::Post
        } else if is(text, b"defer") {
            Word::Defer
        } else if is(text, b"dispatch") {
            Word::Dispatch
        } else {
            Word::Other(OtherWord { letters })
        }
    }

    /// Whether it submits a handler and nothing else.
    pub fn is_posting(self) -> bool
        ensures { result ≡ is_posting self }
    {
        match self {
            Word::Post | Word::Defer | Word::Dispatch => true,
            Word::Other(_) => false,
        }
    }

    /// The word as text.
    pub fn as_slice(&self) -> &[u8]
        ensures text { result.now ≡ word_text self.now }
        ensures word { IsWord self.now }
    {
        match self {
            Word::Post => b"post",
            Word::Defer => b"defer",
            Word::Dispatch => b"dispatch",
            Word::Other(word) => word.as_slice(),
        }
    }
}

impl OtherWord {
    /// The letters.
    pub fn as_slice(&self) -> &[u8]
        ensures value { result.now ≡ self.now }
        ensures letters { IsLetters self.now }
        ensures other { IsOtherWord self.now }
    {
        self.letters.as_slice()
    }
}
