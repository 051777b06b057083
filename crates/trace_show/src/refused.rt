use crate::could_stand::name_what_could_stand;
use crate::detail::Detail;
use asio_types::NoMemory;
use session_script::{Refusal, Rule};
use std::alloc::Global;
use trace_check::part;

/// A rule of refusal by its name, and what breaks it.
fn rule_words(rule: Rule) -> &'static str {
    match rule {
        Rule::NotText => {
            "NotText: a byte that is neither printable ASCII nor a space, a tab or a line end"
        }
        Rule::TooLong => "TooLong: more than 262,144 bytes",
        Rule::Token => "Token: neither a word, a number, bytes as x6869, `{`, `}` nor `-`",
        Rule::Shape => "Shape: another kind or word than the grammar allows here",
        Rule::Number => "Number: a leading zero, or 2^64 and more",
        Rule::Unknown => "Unknown: a number that isn't below what is declared",
        Rule::Limit => "Limit: outside the limits of the version",
        Rule::Guard => "Guard: a declared guard that no act releases; each needs a `release`",
        Rule::Version => "Version: neither 1 nor 2",
    }
}

/// A token of a script, and what stands before it.
#[derive(Clone, Copy)]
struct TokenAt<'s> {
    before: &'s [u8],
    /// The token; nothing where the script ends before it.
    token: Option<&'s [u8]>,
}

fn token_between(script: &[u8], start: usize, end: usize) -> TokenAt<'_> {
    TokenAt {
        before: script.get(..start).unwrap_or(script),
        token: script.get(start..end),
    }
}

/// The token with this number, from 1.
fn token_of(script: &[u8], number: u32) -> TokenAt<'_> {
    let mut count = 0u32;
    let mut start = 0;
    let mut inside = false;
    for (i, byte) in script.iter().enumerate() {
        let printable = 0x21 <= *byte && *byte <= 0x7E;
        if printable && !inside {
            count = count.saturating_add(1);
            start = i;
        }
        if !printable && inside && count == number {
            return token_between(script, start, i);
        }
        inside = printable;
    }
    if inside && count == number {
        token_between(script, start, script.len())
    } else {
        TokenAt {
            before: script,
            token: None,
        }
    }
}

/// Whether what could stand in the place of the token is what mends the fault.
fn is_of_token(rule: Rule) -> bool {
    match rule {
        Rule::NotText | Rule::TooLong | Rule::Guard => false,
        Rule::Token | Rule::Shape | Rule::Number | Rule::Unknown | Rule::Limit | Rule::Version => {
            true
        }
    }
}

/// The first byte that may not stand in a script.
fn bad_byte(script: &[u8]) -> Option<u8> {
    for byte in script {
        if !(matches!(*byte, 0x20..=0x7E | 0x09 | 0x0A | 0x0D)) {
            return Some(*byte);
        }
    }
    None
}

/// What stands where a script was refused.
fn name_token(
    detail: &mut Detail,
    script: &[u8],
    rule: Rule,
    token: Option<&[u8]>,
) -> Result<(), NoMemory> {
    match (rule, bad_byte(script), token) {
        (Rule::TooLong, _, _) => {}
        (Rule::NotText, Some(byte), _) => detail.field(": a byte of value ", byte as u64)?,
        (_, _, Some(token)) => {
            detail.words(": ")?;
            detail.bytes(token)?;
        }
        (_, _, None) => detail.words(": the script ends here")?,
    }
    detail.words("\n")
}

/// Why a script was refused: the rule, the token itself, and what could stand in its place.
pub(crate) fn refusal_detail(
    alloc: Global,
    input: &[u8],
    refusal: Refusal,
) -> Result<Detail, NoMemory> {
    let mut detail = Detail::empty(alloc);
    detail.words("rule: ")?;
    detail.words(rule_words(refusal.rule))?;
    detail.field("\nline ", refusal.line as u64)?;
    detail.field(", token ", refusal.token as u64)?;
    let script = match part(input) {
        Some(parted) => parted.script,
        None => input,
    };
    let at = token_of(script, refusal.token);
    name_token(&mut detail, script, refusal.rule, at.token)?;
    if is_of_token(refusal.rule) {
        name_what_could_stand(&mut detail, alloc, at.before, refusal.token)?;
    }
    Ok(detail)
}
