ghost use Rattle.std.specs.Prelude.{◌≡◌, ◌+◌, ◌<◌, ◌≤◌, IfSome, length};
ghost use Rattle.session_script.specs.Rules.{number_of_rule};
ghost use Rattle.fault_reports.specs.FaultPlace.{IsFaultPlace, IsFileSpot, IsTokenPlace, fault_line};

use crate::fault::{Fault, FaultKind, FileText, Place};
use crate::hint::{HintPlace, write_hints};
use crate::place::place_in;
use session_script::{Refusal, Rule};
use std::alloc::Global;
use text_places::{ScriptParts, Text, is_printable, lines_in, lines_of, token_at, token_from};

/// What the library says of a refused script beside the place: the rule in words, and what could
/// stand there.
#[derive(Drop)]
struct Explained {
    rule: Text,
    could_stand: Text,
}

/// Takes the library's lines apart.
fn explained_by(alloc: Global, lines: &[u8]) -> Explained {
    let mut said = Explained {
        rule: Text::empty(alloc),
        could_stand: Text::empty(alloc),
    };
    for line in lines_of(lines) {
        if let Some(words) = line.strip_prefix(b"rule: ") {
            said.rule.bytes(words);
        }
        if let Some(words) = line.strip_prefix(b"could stand here: ") {
            said.could_stand.bytes(words);
        }
    }
    said
}

/// A part of a script.
#[derive(Clone, Copy)]
struct Span {
    at: usize,
    width: usize,
}

/// The first byte that may not stand in a script.
fn bad_byte_at(script: &[u8]) -> Option<usize>
    ensures { IfSome result (λ at. at < length script.now) }
{
    for (at, byte) in script.iter().enumerate() {
        if !is_printable(*byte) && !matches!(*byte, b' ' | b'\t' | b'\n' | b'\r') {
            return Some(at);
        }
    }
    None
}

/// The token with this number; the end of the script where it is missing.
fn token_span(script: &[u8], number: u32) -> Span
    ensures is { IsTokenPlace script.now number result.at }
    ensures within { result.at ≤ length script.now }
{
    match token_at(script, number) {
        Some(at) => Span {
            at,
            width: token_from(script, at).len(),
        },
        None => Span {
            at: script.len(),
            width: 1,
        },
    }
}

/// Where a script is refused; none where it is too long.
fn span_of(script: &[u8], refusal: Refusal) -> Option<Span>
    ensures is { IfSome result (λ span. IsFaultPlace script.now refusal span.at) }
    ensures within { IfSome result (λ span. span.at ≤ length script.now) }
{
    match refusal.rule {
        Rule::TooLong => None,
        Rule::NotText => {
            let at = bad_byte_at(script)?;
            Some(Span { at, width: 1 })
        }
        _ => Some(token_span(script, refusal.token)),
    }
}

/// The place in its file where a script is refused that stands behind this head.
fn place_of(file: &[u8], parts: ScriptParts, refusal: Refusal) -> Option<Place>
    ensures { length parts.entry.head.now + length parts.entry.rest.now ≤ length file.now →
        IfSome result (IsFileSpot file.now (length parts.entry.head.now)
        (IsFaultPlace parts.entry.rest.now refusal)) }
{
    match span_of(parts.rest, refusal) {
        Some(span) => Some(place_in(file, parts.head.len(), span.at, span.width)),
        None => None,
    }
}

/// The words of a refusal.
fn title_of(alloc: Global, refusal: Refusal, rule: &[u8]) -> Text {
    let mut title = Text::empty(alloc);
    title.field("refused by rule ", refusal.rule.number() as u64);
    title.words(", ");
    if refusal.rule == Rule::TooLong {
        title.words("TooLong: more than 262,144 bytes");
    } else {
        title.bytes(rule);
    }
    title
}

/// The line of a file in which a refusal stands whose script has this head.
fn line_in_file(refusal: Refusal, head: &[u8]) -> u64
    ensures { result ≡ fault_line refusal head.now }
{
    if refusal.line == 0 {
        0
    } else {
        refusal.line as u64 + lines_in(head) as u64
    }
}

/// The hints on a refusal.
fn hints_of(alloc: Global, parts: ScriptParts, refusal: Refusal, could_stand: &[u8]) -> Text {
    let mut hints = Text::empty(alloc);
    let at = HintPlace {
        script: parts.rest,
        lines_before: lines_in(parts.head),
        refusal,
        at: match span_of(parts.rest, refusal) {
            Some(span) => span.at,
            None => 0,
        },
        could_stand,
    };
    write_hints(alloc, &at, &mut hints);
    hints
}

/// The fault of a file whose script has these parts and is refused. The library's lines explain it:
/// `rule: ` is the rule in words, and `could stand here: ` what could stand in the place.
pub fn script_fault<'t>(
    alloc: Global,
    file: FileText<'t>,
    parts: ScriptParts<'t>,
    refusal: Refusal,
    lines: &[u8],
) -> Fault<'t>
    ensures line { result.line ≡ fault_line refusal parts.entry.head.now }
    ensures kind { result.kind ≡ FaultKind.Refused (number_of_rule refusal.rule) refusal.token }
    // Where the file has the script, the place is that of the refusal in it, with its column.
    ensures place { length parts.entry.head.now + length parts.entry.rest.now ≤ length file.entry.text.now →
        IfSome result.place (IsFileSpot file.entry.text.now
        (length parts.entry.head.now) (IsFaultPlace parts.entry.rest.now refusal)) }
{
    let said = explained_by(alloc, lines);
    let hints = hints_of(alloc, parts, refusal, said.could_stand.as_bytes());
    let title = title_of(alloc, refusal, said.rule.as_bytes());
    Fault {
        kind: FaultKind::Refused {
            rule: refusal.rule.number(),
            token: refusal.token,
        },
        file,
        line: line_in_file(refusal, parts.head),
        place: place_of(file.text, parts, refusal),
        title,
        could_stand: said.could_stand,
        hints,
    }
}
