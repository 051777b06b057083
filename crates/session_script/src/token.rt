ghost use Rattle.std.specs.Prelude.{◌≡◌, ◌+◌, ◌<◌, ◌^◌, length, IfOk};

use crate::kind::is;
use crate::refusal::{Refusal, Rule, ScriptFault};
use crate::scan::tokens_after;

/// A line of the text, from 1, and a number of tokens.
#[derive(Clone, Copy)]
pub(crate) struct Position {
    pub(crate) line: u32,
    pub(crate) token: u32,
}

impl Position {
    ghost use Rattle.session_script.specs.Tokens.{Tokens};
    ghost use Rattle.session_script.specs.Productions.{judged, refused};
    ghost use Rattle.session_script.specs.Outcome.{Gives};

    /// The refusal by a rule at this position.
    pub(crate) fn refused(self, rule: Rule) -> ScriptFault
        ensures { result ≡ ScriptFault.Refused (refused rule self) }
    {
        ScriptFault::Refused(Refusal {
            rule,
            line: self.line,
            token: self.token,
        })
    }

    /// What a test of the token at this position gave.
    pub(crate) fn judged<T>(self, tested: Result<T, Rule>) -> Result<T, ScriptFault>
        ensures gives { (rest : Tokens) → Gives (λ x. x) result rest (judged tested self rest) }
        ensures passed { IfOk result (λ value. tested ≡ Ok value) }
    {
        match tested {
            Ok(value) => Ok(value),
            Err(rule) => Err(self.refused(rule)),
        }
    }
}

/// A longest run of printable bytes, with its line and its number from 1.
#[derive(Clone, Copy)]
pub(crate) struct Token<'a> {
    pub(crate) bytes: &'a [u8],
    pub(crate) at: Position,
}

/// The tokens from some token on: the next one, and the text behind it.
#[derive(Clone, Copy)]
pub(crate) struct Cursor<'a> {
    /// The next token; none at the end of the text.
    pub(crate) next: Option<Token<'a>>,
    /// The text behind the next token.
    pub(crate) rest: &'a [u8],
    /// The line where the rest begins, and how many tokens stand before it.
    pub(crate) before: Position,
    // Each line and each token takes a byte.
    ghost countable: { (before.line + length rest.now < 2 ^ 32) × (before.token + length rest.now + 1 < 2 ^ 32) },
}

impl<'a> Cursor<'a> {
    ghost use Rattle.session_script.specs.Tokens.{tokens_at, position_of, end_of, begins, goes_on};
    ghost use Rattle.session_script.specs.Productions.{refused};
    ghost use Rattle.session_script.specs.Outcome.{Takes};

    /// Takes the next token. The end of the text refuses.
    #[tactic(auto, unfolding(crate::specs::Tokens::tokens_at))]
    pub(crate) fn take(&mut self) -> Result<Token<'a>, ScriptFault>
        ensures { Takes result (tokens_at self.new) (tokens_at self.old) }
    {
        match self.next {
            Some(token) => {
                *self = tokens_after(self.rest, self.before);
                Ok(token)
            }
            None => Err(self.missing(Rule::Shape)),
        }
    }

    /// The refusal at the token that is missing at the end of the text.
    pub(crate) fn missing(&self, rule: Rule) -> ScriptFault
        ensures { result
            ≡ ScriptFault.Refused
            (refused rule (position_of self.now.before.line self.now.before.token)) }
    {
        let at = Position {
            line: self.before.line,
            token: self.before.token + 1,
        };
        at.refused(rule)
    }

    /// Goes to the end of the text.
    #[tactic(auto, unfolding(crate::specs::Tokens::tokens_at))]
    pub(crate) fn skip_all(&mut self)
        ensures { position_of self.new.before.line self.new.before.token
            ≡ end_of (tokens_at self.old) }
    {
        while self.next.is_some() {
            *self = tokens_after(self.rest, self.before);
        }
    }

    /// Whether the next token is this word.
    #[tactic(auto, unfolding(crate::specs::Tokens::tokens_at))]
    pub(crate) fn begins(&self, word: &[u8]) -> bool
        ensures { result ≡ begins word.now (tokens_at self.now) }
    {
        match self.next {
            Some(token) => is(token.bytes, word),
            None => false,
        }
    }

    /// Whether there is a next token, and it isn't this word.
    #[tactic(auto, unfolding(crate::specs::Tokens::tokens_at))]
    pub(crate) fn goes_on(&self, word: &[u8]) -> bool
        ensures { result ≡ goes_on word.now (tokens_at self.now) }
    {
        match self.next {
            Some(token) => !is(token.bytes, word),
            None => false,
        }
    }
}
