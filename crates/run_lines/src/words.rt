ghost use Rattle.std.specs.Prelude.{◌≡◌, ◌≢◌, ◌<◌, ◌≤◌, ℕ, [], ◌∷◌, length, slice_index, MatchOption};
ghost use Rattle.run_lines.specs.Reading.{optional_in};
ghost use Rattle.run_lines.specs.Words.{words_of};

use crate::bad_line::{BadLine, Wants};
use crate::code::Code;
use crate::letters::{Letters, is};
use crate::name::{Kind, is_text, kind_of};
use crate::number::number_of;
use crate::verb::{Verb, verb_of};
use crate::word::Word;

/// The words of a line from some word on.
#[derive(Drop)]
pub(crate) struct Words<'a> {
    /// What stands behind the last word that was taken; none at the end of the line.
    rest: Option<&'a [u8]>,
}

impl<'a> Words<'a> {
    ghost use Rattle.run_lines.specs.Reading.{Agrees, Gives, words_left, number_at, optional_at, word_at, code_at, kind_at, verb_at, text_at, end_at};

    /// All words of a line.
    pub(crate) fn of(line: &'a [u8]) -> Words<'a>
        ensures { words_left result ≡ words_of line.now }
    {
        Words { rest: Some(line) }
    }

    /// Takes the next word.
    pub(crate) fn take(&mut self) -> Option<&'a [u8]>
        ensures { MatchOption result (words_left self.old ≡ [])
            (λ word. words_left self.old ≡ word.now ∷ words_left self.new) }
    {
        let rest = self.rest?;
        let end = word_end(rest);
        if end == rest.len() {
            self.rest = None;
            return Some(rest);
        }
        self.rest = Some(&rest[end + 1..]);
        Some(&rest[..end])
    }

    /// Takes a number, which is wanted as this word.
    #[tactic(auto, unfolding(crate::specs::Reading::number_at))]
    pub(crate) fn number(&mut self, at: u8) -> Result<u64, BadLine>
        ensures { Gives result (words_left self.new) (number_at at (words_left self.old)) }
    {
        let wrong = BadLine {
            word: at,
            wants: Wants::Number,
        };
        let word = self.take().ok_or(wrong)?;
        number_of(word).ok_or(wrong)
    }

    /// Takes a number, or `-` for none.
    #[tactic(auto, unfolding(crate::specs::Reading::optional_at))]
    pub(crate) fn optional(&mut self, at: u8) -> Result<Option<u64>, BadLine>
        ensures { Gives result (words_left self.new) (optional_at at (words_left self.old)) }
    {
        let wrong = BadLine {
            word: at,
            wants: Wants::NumberOrDash,
        };
        let word = self.take().ok_or(wrong)?;
        optional_of(word).ok_or(wrong)
    }

    /// Takes what initiates an operation.
    #[tactic(auto, unfolding(crate::specs::Reading::word_at))]
    pub(crate) fn word(&mut self, at: u8) -> Result<Word, BadLine>
        ensures { Gives result (words_left self.new) (word_at at (words_left self.old)) }
    {
        let wrong = BadLine {
            word: at,
            wants: Wants::Letters,
        };
        let word = self.take().ok_or(wrong)?;
        let letters = Letters::of(word).ok_or(wrong)?;
        Ok(Word::of(letters))
    }

    /// Takes how an operation completed.
    #[tactic(auto, unfolding(crate::specs::Reading::code_at))]
    pub(crate) fn code(&mut self, at: u8) -> Result<Code, BadLine>
        ensures { Gives result (words_left self.new) (code_at at (words_left self.old)) }
    {
        let wrong = BadLine {
            word: at,
            wants: Wants::Letters,
        };
        let word = self.take().ok_or(wrong)?;
        let letters = Letters::of(word).ok_or(wrong)?;
        Ok(Code::of(letters))
    }

    /// Takes what a name is given to.
    #[tactic(auto, unfolding(crate::specs::Reading::kind_at))]
    pub(crate) fn kind(&mut self, at: u8) -> Result<Kind, BadLine>
        ensures { Gives result (words_left self.new) (kind_at at (words_left self.old)) }
    {
        let wrong = BadLine {
            word: at,
            wants: Wants::Kind,
        };
        let word = self.take().ok_or(wrong)?;
        kind_of(word).ok_or(wrong)
    }

    /// Takes the word that says what happened.
    #[tactic(auto, unfolding(crate::specs::Reading::verb_at))]
    pub(crate) fn verb(&mut self, at: u8) -> Result<Verb, BadLine>
        ensures { Gives result (words_left self.new) (verb_at at (words_left self.old)) }
    {
        let wrong = BadLine {
            word: at,
            wants: Wants::Verb,
        };
        let word = self.take().ok_or(wrong)?;
        verb_of(word).ok_or(wrong)
    }

    /// The text of a name, which goes to the end of the line.
    pub(crate) fn text(&self, at: u8) -> Result<&'a [u8], BadLine>
        ensures { Agrees (λ text. text.now) result (text_at at (words_left self.now)) }
    {
        let wrong = BadLine {
            word: at,
            wants: Wants::Text,
        };
        let Some(text) = self.rest else {
            return Err(wrong);
        };
        if is_text(text) { Ok(text) } else { Err(wrong) }
    }

    /// The line ends here.
    pub(crate) fn end(&self, at: u8) -> Result<(), BadLine>
        ensures { result ≡ end_at at (words_left self.now) }
    {
        match self.rest {
            None => Ok(()),
            Some(_) => Err(BadLine {
                word: at,
                wants: Wants::Nothing,
            }),
        }
    }
}

/// `-` for none, or a number.
#[tactic(auto, unfolding(crate::specs::Reading::optional_in))]
fn optional_of(word: &[u8]) -> Option<Option<u64>>
    ensures { result ≡ optional_in word.now }
{
    if is(word, b"-") {
        return Some(None);
    }
    let number = number_of(word)?;
    Some(Some(number))
}

/// Where the first word ends: at the first space, or with the line.
fn word_end(bytes: &[u8]) -> usize
    ensures within { result ≤ length bytes.now }
    ensures before { (k : ℕ) → k < result → slice_index bytes.now k ≢ 32 }
    ensures stops { result < length bytes.now → slice_index bytes.now result ≡ 32 }
{
    for (at, byte) in bytes.iter().enumerate() {
        if *byte == b' ' {
            return at;
        }
    }
    bytes.len()
}
