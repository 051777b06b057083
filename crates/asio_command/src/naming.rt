//! Names in what is said of a trace.
use crate::names::{NamedKind, Names};
use std::str;
use text_places::{Text, digits_len, pieces_of};

/// What a number counts behind a word.
const COUNTED: [(&str, NamedKind); 15] = [
    ("strand", NamedKind::Strand),
    ("timer", NamedKind::Timer),
    ("slot", NamedKind::Slot),
    ("stream", NamedKind::Stream),
    ("operation", NamedKind::Act),
    ("act", NamedKind::Act),
    ("request", NamedKind::Act),
    ("call", NamedKind::Act),
    ("back", NamedKind::Act),
    ("stop", NamedKind::Act),
    ("begin", NamedKind::Act),
    ("end", NamedKind::Act),
    ("take", NamedKind::Act),
    ("done", NamedKind::Act),
    ("drop", NamedKind::Act),
];

/// What a number behind this word counts.
fn kind_behind(word: &[u8]) -> Option<NamedKind> {
    for (name, kind) in &COUNTED {
        if name.as_bytes() == word {
            return Some(*kind);
        }
    }
    None
}

/// The number at the front of a piece, and how many digits it has.
fn number_at_front(piece: &[u8]) -> Option<(u32, usize)> {
    let digits = digits_len(piece);
    let text = str::from_utf8(piece.get(..digits)?).ok()?;
    let number = text.parse::<u32>().ok()?;
    Some((number, digits))
}

/// The last word of a piece: what stands behind its last line feed, or the last `>` of a picture.
fn last_word(piece: &[u8]) -> &[u8] {
    let mut begin = 0usize;
    for (at, byte) in piece.iter().enumerate() {
        if *byte == b'\n' || *byte == b'>' {
            begin = at.saturating_add(1);
        }
    }
    piece.get(begin..).unwrap_or(&[])
}

/// The name of what the number at the front of a piece counts, and how many digits that has.
fn name_behind<'t>(names: &Names<'t>, before: &[u8], piece: &[u8]) -> Option<(&'t str, usize)> {
    let kind = kind_behind(last_word(before))?;
    let (number, digits) = number_at_front(piece)?;
    let name = names.find(kind, number)?;
    Some((name, digits))
}

/// A piece behind another one, with its number's name behind the number where it has one.
fn write_piece(names: &Names, before: &[u8], piece: &[u8], text: &mut Text) {
    let Some((name, digits)) = name_behind(names, before, piece) else {
        return text.bytes(piece);
    };
    let (number, rest) = piece.split_at(digits.min(piece.len()));
    text.bytes(number);
    text.words(" (");
    text.words(name);
    text.words(")");
    text.bytes(rest);
}

/// Writes what is said of a trace, with the name of each strand, timer, slot, stream and act behind
/// its number.
pub(crate) fn write_with_names(names: &Names, said: &[u8], text: &mut Text) {
    if names.is_empty() {
        return text.bytes(said);
    }
    let mut before: &[u8] = &[];
    let mut is_first = true;
    for piece in pieces_of(said, b' ') {
        text.words(if is_first { "" } else { " " });
        write_piece(names, before, piece, text);
        before = piece;
        is_first = false;
    }
}
