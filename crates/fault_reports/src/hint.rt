//! What may help with a script that is refused.
use crate::hint_grammar::{brace_hint, declaration_hint, guard_hint, unknown_hint, version_hint};
use crate::hint_token::{
    bytes_hint, comment_hint, glued_hint, near_word_hint, number_hint, text_hint,
};
use session_script::{Refusal, Rule};
use std::alloc::Global;
use text_places::{Text, token_from};

/// Where hints are looked for: the script, where and why it is refused, and what could stand there.
#[derive(Clone, Copy)]
pub(crate) struct HintPlace<'t> {
    /// The text that the reader got.
    pub(crate) script: &'t [u8],
    /// How many lines of the file stand before it.
    pub(crate) lines_before: usize,
    pub(crate) refusal: Refusal,
    /// Where the token begins; the script's length where it is missing.
    pub(crate) at: usize,
    /// The line of what could stand there.
    pub(crate) could_stand: &'t [u8],
}

impl<'t> HintPlace<'t> {
    /// The token; nothing where the script ends.
    pub(crate) fn token(&self) -> &'t [u8] {
        token_from(self.script, self.at)
    }

    /// The script before the token.
    pub(crate) fn before(&self) -> &'t [u8] {
        self.script.get(..self.at).unwrap_or(self.script)
    }
}

/// Hints on a token that isn't what the grammar wants.
fn write_token_hints(alloc: Global, at: &HintPlace, hints: &mut Text) {
    let token = at.token();
    let is_told = comment_hint(token, hints)
        || glued_hint(token, hints)
        || bytes_hint(token, at.could_stand, hints)
        || declaration_hint(token, at.before(), hints)
        || version_hint(alloc, at, hints);
    if !is_told {
        near_word_hint(alloc, token, at.could_stand, hints);
        brace_hint(at, hints);
    }
}

/// The hints that there are for a refusal, a line each.
pub(crate) fn write_hints(alloc: Global, at: &HintPlace, hints: &mut Text) {
    match at.refusal.rule {
        Rule::NotText => text_hint(at.script, at.at, hints),
        Rule::TooLong => {}
        Rule::Token | Rule::Shape => write_token_hints(alloc, at, hints),
        Rule::Number => number_hint(at.token(), hints),
        Rule::Unknown => unknown_hint(at, hints),
        Rule::Limit => {
            let _ = version_hint(alloc, at, hints);
        }
        Rule::Guard => guard_hint(at, hints),
        Rule::Version => hints.line("`session 1` and `session 2` are the versions of the language"),
    }
}
