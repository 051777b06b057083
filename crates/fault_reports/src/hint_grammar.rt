//! Hints that come from what stands before the token.

ghost use Rattle.std.specs.Prelude.{◌<◌, IfSome, length};

use crate::event_fields::is_among;
use crate::hint::HintPlace;
use asio_types::NoMemory;
use itoa::Buffer;
use session_script::{ScriptFault, read_script};
use std::alloc::Global;
use text_places::{Text, column_of, lines_in, tokens_of};

/// The words of declarations in their order, and those that stand behind all of them.
const WORDS_IN_ORDER: &[&str] = &[
    "strands", "timers", "slots", "streams", "guards", "at", "open",
];

/// How many of these are words of declarations.
const DECLARATIONS: usize = 5;

/// The place of a word among them.
fn place_in_order(token: &[u8]) -> Option<usize> {
    for (place, word) in WORDS_IN_ORDER.iter().enumerate() {
        if word.as_bytes() == token {
            return Some(place);
        }
    }
    None
}

/// The word at this place.
fn word_in_order(place: usize) -> &'static str {
    match WORDS_IN_ORDER.get(place) {
        Some(word) => word,
        None => "",
    }
}

/// The place of the last one of these words.
fn last_in_order(before: &[u8]) -> Option<usize> {
    let mut last = None;
    for token in tokens_of(before) {
        if let Some(place) = place_in_order(token.bytes) {
            last = Some(place);
        }
    }
    last
}

/// On the word of a declaration behind the word at a place among them.
fn write_order(token: &[u8], place: usize, last: usize, hints: &mut Text) {
    if last >= DECLARATIONS {
        hints.quoted("declarations stand before ", word_in_order(last).as_bytes());
        hints.words("\n");
        return;
    }
    hints.quoted("", token);
    if place == last {
        hints.line(" stands once");
    } else {
        hints.quoted(" comes before ", word_in_order(last).as_bytes());
        hints.words("\n");
    }
}

/// On a declaration that stands behind one that it comes before.
pub(crate) fn declaration_hint(token: &[u8], before: &[u8], hints: &mut Text) -> bool {
    let (Some(place), Some(last)) = (place_in_order(token), last_in_order(before)) else {
        return false;
    };
    let is_told = place < DECLARATIONS && place <= last;
    if is_told {
        write_order(token, place, last, hints);
    }
    is_told
}

/// A script with 2 in place of its version; none where its version isn't 1.
fn in_version_2(alloc: Global, script: &[u8]) -> Result<Option<Vec<u8>>, NoMemory> {
    let Some(version) = tokens_of(script).nth(1) else {
        return Ok(None);
    };
    if version.bytes != b"1".as_slice() {
        return Ok(None);
    }
    let mut text = Vec::from_slice(alloc, script)?;
    if let Some(byte) = text.get_mut(version.at) {
        *byte = b'2';
    }
    Ok(Some(text))
}

/// Whether a script is right, or right up to a token behind this one.
fn is_right_behind(alloc: Global, script: &[u8], token: u32) -> Result<bool, NoMemory> {
    match read_script(alloc, script) {
        Ok(_) => Ok(true),
        Err(ScriptFault::Refused(refusal)) => Ok(refusal.token > token),
        Err(ScriptFault::NoMemory) => Err(NoMemory),
    }
}

/// Whether a script comes further in version 2 than to this token.
fn goes_on_in_version_2(alloc: Global, script: &[u8], token: u32) -> Result<bool, NoMemory> {
    match in_version_2(alloc, script)? {
        Some(text) => is_right_behind(alloc, text.as_slice(), token),
        None => Ok(false),
    }
}

/// On what version 2 has and version 1 hasn't.
pub(crate) fn version_hint(alloc: Global, at: &HintPlace, hints: &mut Text) -> bool {
    match goes_on_in_version_2(alloc, at.script, at.refusal.token) {
        Ok(true) => {}
        Ok(false) => return false,
        Err(NoMemory) => hints.cut(),
    }
    let token = at.token();
    if is_among(&["expiresat", "only"], token) {
        hints.quoted("`session 2` has ", token);
        hints.words("\n");
    } else {
        hints.line("`session 2` allows it");
    }
    true
}

/// Where a number of something declared stands: behind which word, how many tokens behind it, and to
/// which declaration it belongs.
const NUMBERS: [(&str, usize, usize); 32] = [
    ("post", 1, 0),
    ("defer", 1, 0),
    ("dispatch", 1, 0),
    ("expires", 1, 1),
    ("expiresat", 1, 1),
    ("cancel", 1, 1),
    ("cancelone", 1, 1),
    ("wait", 1, 1),
    ("wait", 2, 0),
    ("wait", 3, 2),
    ("emit", 1, 2),
    ("readsome", 1, 3),
    ("read", 1, 3),
    ("until", 1, 3),
    ("writesome", 1, 3),
    ("write", 1, 3),
    ("close", 1, 3),
    ("feed", 1, 3),
    ("end", 1, 3),
    ("reset", 1, 3),
    ("room", 1, 3),
    ("readsome", 3, 0),
    ("readsome", 4, 2),
    ("read", 3, 0),
    ("read", 4, 2),
    ("writesome", 3, 0),
    ("writesome", 4, 2),
    ("write", 3, 0),
    ("write", 4, 2),
    ("until", 4, 0),
    ("until", 5, 2),
    ("release", 1, 4),
];

/// Which declaration the number belongs to that stands so many tokens behind this word.
fn declared_by(word: &[u8], behind: usize) -> Option<usize> {
    for (name, place, declaration) in &NUMBERS {
        if *place == behind && name.as_bytes() == word {
            return Some(*declaration);
        }
    }
    None
}

/// Whether a token is a word: no word begins with an `x`.
fn is_word(token: &[u8]) -> bool {
    match token.first() {
        Some(byte) => byte.is_ascii_lowercase() && *byte != b'x',
        None => false,
    }
}

/// Which declaration the number belongs to that stands behind these tokens: by the last word.
fn declaration_wanted(before: &[u8]) -> Option<usize> {
    let mut word: &[u8] = &[];
    let mut behind = 1usize;
    for token in tokens_of(before) {
        behind = behind.saturating_add(1);
        if is_word(token.bytes) {
            word = token.bytes;
            behind = 1;
        }
    }
    declared_by(word, behind)
}

/// The number that a script declares by this word, as it stands there.
fn declared_number<'t>(script: &'t [u8], word: &[u8]) -> Option<&'t [u8]> {
    let mut is_next = false;
    for token in tokens_of(script) {
        if is_next {
            return Some(token.bytes);
        }
        is_next = token.bytes == word;
    }
    None
}

/// On a number that isn't declared.
pub(crate) fn unknown_hint(at: &HintPlace, hints: &mut Text) {
    let Some(order) = declaration_wanted(at.before()) else {
        return;
    };
    let word = word_in_order(order);
    match declared_number(at.before(), word.as_bytes()) {
        Some(number) if number != b"0".as_slice() => {
            hints.quoted("", word.as_bytes());
            hints.words(" declares so many: ");
            hints.bytes(number);
            hints.line("; their numbers begin at 0");
        }
        _ => {
            hints.words("no ");
            hints.words(word);
            hints.line(" are declared");
        }
    }
}

/// The innermost brace that is open behind this part of a script, all of whose tokens are right.
fn open_brace(before: &[u8]) -> Option<usize>
    ensures { IfSome result (λ at. at < length before.now) }
{
    let mut closed = 0usize;
    for k in 0..before.len() {
        let at = before.len() - 1 - k;
        match before[at] {
            b'}' => closed = closed.saturating_add(1),
            b'{' if closed == 0 => return Some(at),
            b'{' => closed = closed.saturating_sub(1),
            _ => {}
        }
    }
    None
}

/// On a body that isn't closed, where the script goes on or ends as if it were.
pub(crate) fn brace_hint(at: &HintPlace, hints: &mut Text) {
    let token = at.token();
    let is_behind = token.is_empty() || is_among(&["run", "poll", "restart", "open"], token);
    let before = at.before();
    match open_brace(before) {
        Some(place) if is_behind => {
            let lines = at.lines_before.saturating_add(lines_in(&before[..place]));
            hints.field("the brace of line ", (lines as u64).saturating_add(1));
            hints.field(", column ", column_of(before, place) as u64);
            hints.line(" is open");
        }
        None if token == b"}".as_slice() => hints.line("no brace is open here"),
        _ => {}
    }
}

/// Whether a script has an act that releases a guard.
fn releases(script: &[u8], guard: &[u8]) -> bool {
    let mut is_next = false;
    for token in tokens_of(script) {
        if is_next && token.bytes == guard {
            return true;
        }
        is_next = token.bytes == b"release".as_slice();
    }
    false
}

/// On a guard that no act releases.
pub(crate) fn guard_hint(at: &HintPlace, hints: &mut Text) {
    for guard in 0..64u64 {
        if !releases(at.script, Buffer::new().format(guard).as_bytes()) {
            hints.field("no act releases guard ", guard);
            hints.field(": write `release ", guard);
            return hints.line("` in a body");
        }
    }
}
