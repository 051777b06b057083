ghost use Rattle.std.specs.Prelude.{◌≡◌, ◌≤◌, length};
ghost use Rattle.run_lines.specs.Reading.{verb_in};
ghost use Rattle.run_lines.specs.Verb.{verb_text};

use crate::letters::is;

/// The word that says what happened.
#[derive(Clone, Copy, Debug, PartialEq, Eq)]
pub enum Verb {
    Call,
    Back,
    Done,
    Begin,
    End,
    Throw,
    Drop,
    Claim,
    Release,
    Lock,
    Unlock,
    Mark,
    After,
    Cancel,
    Work,
    Stop,
    Restart,
}

/// The verb that a word is.
#[tactic(auto, unfolding(crate::specs::Reading::verb_in))]
pub(crate) fn verb_of(word: &[u8]) -> Option<Verb>
    ensures { result ≡ verb_in word.now }
{
    if is(word, b"call") {
        Some(Verb::Call)
    } else if is(word, b"back") {
        Some(Verb::Back)
    } else if is(word, b"done") {
        Some(Verb::Done)
    } else if is(word, b"begin") {
        Some(Verb::Begin)
    } else if is(word, b"end") {
        Some(Verb::End)
    } else if is(word, b"throw") {
        Some(Verb::Throw)
    } else if is(word, b"drop") {
        Some(Verb::Drop)
    } else if is(word, b"claim") {
        Some(Verb::Claim)
    } else if is(word, b"release") {
        Some(Verb::Release)
    } else if is(word, b"lock") {
        Some(Verb::Lock)
    } else if is(word, b"unlock") {
        Some(Verb::Unlock)
    } else if is(word, b"mark") {
        Some(Verb::Mark)
    } else if is(word, b"after") {
        Some(Verb::After)
    } else if is(word, b"cancel") {
        Some(Verb::Cancel)
    } else if is(word, b"work") {
        Some(Verb::Work)
    } else if is(word, b"stop") {
        Some(Verb::Stop)
    } else if is(word, b"restart") {
        Some(Verb::Restart)
    } else {
        None
    }
}
