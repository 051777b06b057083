//! Hints that come from the token alone.
use asio_types::NoMemory;
use std::alloc::Global;
use std::str;
use strsim::osa_distance;
use text_places::{Text, len_before};

/// A byte order mark.
pub(crate) const BYTE_ORDER_MARK: &[u8] = b"\xEF\xBB\xBF";

/// A longer word is near none.
const LONGEST_WORD: usize = 16;

/// On a byte that may not stand in a script.
pub(crate) fn text_hint(script: &[u8], at: usize, hints: &mut Text) {
    if script.starts_with(BYTE_ORDER_MARK) {
        return hints.line("the text begins with a byte order mark: save it without one");
    }
    let byte = script.get(at).copied().unwrap_or(0);
    hints.field("the byte has the value ", byte as u64);
    hints.line(if byte >= 0x80 {
        ": a script is ASCII alone"
    } else {
        ""
    });
}

/// With what comments begin elsewhere.
const COMMENT_MARKS: &[&str] = &["#", "//", "/*", ";", "--"];

/// Whether a token begins as a comment does elsewhere.
fn is_comment(token: &[u8]) -> bool {
    for mark in COMMENT_MARKS {
        if token.starts_with(mark.as_bytes()) {
            return true;
        }
    }
    false
}

/// On a comment.
pub(crate) fn comment_hint(token: &[u8], hints: &mut Text) -> bool {
    if token == b"--".as_slice() {
        hints.line("the line between a script and a trace is `--` alone, without blanks");
        return true;
    }
    let is_comment = is_comment(token);
    if is_comment {
        hints.line(
            "no comments are allowed in the text itself; lines that begin with `#` may stand before it",
        );
    }
    is_comment
}

/// On a brace without blanks round it.
pub(crate) fn glued_hint(token: &[u8], hints: &mut Text) -> bool {
    let has_brace = len_before(token, b'{').min(len_before(token, b'}')) < token.len();
    let is_glued = token.len() > 1 && has_brace;
    if is_glued {
        hints.line("a brace is a token of its own: put blanks round it");
    }
    is_glued
}

/// The digits of what is meant as bytes.
fn meant_digits(token: &[u8]) -> Option<&[u8]> {
    let digits = match token {
        [b'0', b'x' | b'X', digits @ ..] => digits,
        [b'x' | b'X', digits @ ..] => digits,
        _ => return None,
    };
    for digit in digits {
        if !digit.is_ascii_hexdigit() {
            return None;
        }
    }
    Some(digits)
}

/// Bytes as they are written, from their digits.
fn write_bytes_meant(digits: &[u8], hints: &mut Text) {
    hints.words("write `x");
    for digit in digits {
        hints.bytes(&[digit.to_ascii_lowercase()]);
    }
    hints.line("`: bytes are `x` and pairs of digits, in lower case");
}

/// On what is meant as bytes.
pub(crate) fn bytes_hint(token: &[u8], could_stand: &[u8], hints: &mut Text) -> bool {
    let is_told = could_stand.ends_with(b"bytes as x6869");
    if is_told {
        write_bytes_hint(meant_digits(token), hints);
    }
    is_told
}

/// On what is meant as bytes, if it has such digits.
fn write_bytes_hint(digits: Option<&[u8]>, hints: &mut Text) {
    match digits {
        None => {
            hints.line(
                "bytes are `x` and pairs of digits from 0 to 9 and a to f, as `x6869` for `hi`",
            )
        }
        Some(digits) if digits.is_empty() || digits.len() % 2 == 1 => {
            hints.field(
                "bytes have pairs of digits, and here the number of digits is ",
                digits.len() as u64,
            );
            hints.words("\n");
        }
        Some(digits) => write_bytes_meant(digits, hints),
    }
}

/// How many zeros stand at the front of a token.
fn zeros_at_front(token: &[u8]) -> usize {
    for (at, byte) in token.iter().enumerate() {
        if *byte != b'0' {
            return at;
        }
    }
    token.len()
}

/// On a number.
pub(crate) fn number_hint(token: &[u8], hints: &mut Text) {
    let zeros = zeros_at_front(token);
    if zeros == 0 {
        return hints.line("numbers are below 2^64");
    }
    let rest = token.get(zeros..).unwrap_or(&[]);
    hints.quoted(
        "without a leading zero: ",
        if rest.is_empty() { b"0" } else { rest },
    );
    hints.words("\n");
}

/// How far two words are apart: how many letters are added, left out, changed or swapped.
fn distance(alloc: Global, word: &str, other: &str) -> Result<usize, NoMemory> {
    Ok(osa_distance(alloc, word, other)?)
}

/// The word in backticks of a line that is nearest to a token, if one is near.
fn nearest<'t>(alloc: Global, line: &'t str, token: &str) -> Result<Option<&'t str>, NoMemory> {
    let mut best = None;
    let mut least = if token.len() < 4 { 2usize } else { 3 };
    let mut is_word = false;
    for word in line.split('`') {
        if is_word {
            let distance = distance(alloc, word, token)?;
            if distance < least && distance < word.len() {
                least = distance;
                best = Some(word);
            }
        }
        is_word = !is_word;
    }
    Ok(best)
}

/// The word in backticks of a line that is nearest to a token, in whatever case that is written.
fn near_word<'t>(alloc: Global, token: &[u8], line: &'t [u8]) -> Result<Option<&'t str>, NoMemory> {
    let (Ok(token), Ok(line)) = (str::from_utf8(token), str::from_utf8(line)) else {
        return Ok(None);
    };
    let lower = token.to_ascii_lowercase(alloc)?;
    nearest(alloc, line, lower.as_str())
}

/// Whether a letter stands in a token.
fn has_letter(token: &[u8]) -> bool {
    for byte in token {
        if byte.is_ascii_alphabetic() {
            return true;
        }
    }
    false
}

/// A word in backticks of this line that is near the token.
pub(crate) fn near_word_hint(alloc: Global, token: &[u8], line: &[u8], hints: &mut Text) {
    if token.len() > LONGEST_WORD || !has_letter(token) {
        return;
    }
    match near_word(alloc, token, line) {
        Ok(Some(word)) => {
            hints.quoted("did you mean ", word.as_bytes());
            hints.words("?\n");
        }
        Ok(None) => {}
        Err(NoMemory) => hints.cut(),
    }
}
