ghost use Rattle.std.specs.Prelude.{◌≡◌, ◌<◌, ◌≤◌, ◌∷◌, ◌++◌, ℕ, List, IfOk, OnOk, length, map, slice_index};
ghost use Rattle.text_places.specs.Excerpt.{PointsAt, blank_of, shown_of};

use asio_types::NoMemory;
use std::alloc::Global;

/// So many bytes of a line are shown at most, and so many of them before the place that is meant.
const MOST_SHOWN: usize = 100;

const MOST_BEFORE: usize = 60;

/// A line, or the part of it round a place, and a second one with carets below that place.
#[derive(Drop)]
pub struct Excerpt {
    /// The line, or the part of it.
    pub shown: Vec<u8>,
    /// The line with the carets.
    pub carets: Vec<u8>,
}

/// A byte as it is shown: what has no form of its own as `?`.
fn shown_byte(byte: u8) -> u8
    ensures { result ≡ shown_of byte }
{
    if byte == b'\t' || (0x20 <= byte && byte != 0x7F) {
        byte
    } else {
        b'?'
    }
}

/// What stands in the line of carets below a byte: as wide a blank.
fn blank(byte: u8) -> u8
    ensures { result ≡ blank_of byte }
{
    if byte == b'\t' { b'\t' } else { b' ' }
}

/// The blanks below some bytes.
fn blanks_below(alloc: Global, bytes: &[u8]) -> Result<Vec<u8>, NoMemory>
    ensures { IfOk result (λ below. below.items ≡ map blank_of bytes.now) }
{
    let mut below = Vec::new(alloc);
    for byte in bytes {
        below.push(blank(*byte))?;
    }
    Ok(below)
}

/// Appends bytes as they are shown.
fn show(shown: &mut Vec<u8>, bytes: &[u8]) -> Result<(), NoMemory>
    ensures { OnOk result (shown.new.items ≡ shown.old.items ++ map shown_of bytes.now) }
{
    for byte in bytes {
        shown.push(shown_byte(*byte))?;
    }
    Ok(())
}

/// So many carets, at least one, behind the blanks below some bytes.
fn carets_below(alloc: Global, front: &[u8], width: usize) -> Result<Vec<u8>, NoMemory>
    ensures { IfOk result (λ carets.
        (more : List ℕ) × (carets.items ≡ map blank_of front.now ++ 94 ∷ more)) }
{
    let more = vec![in alloc; b'^'; width.saturating_sub(1)]?;
    let mut carets = blanks_below(alloc, front)?;
    carets.push(b'^')?;
    carets.extend_from_slice(more.as_slice())?;
    Ok(carets)
}

/// What follows a place in its line, of which so many bytes are shown at most, and one at least.
fn shown_from(alloc: Global, after: &[u8], most: usize) -> Result<Vec<u8>, NoMemory>
    ensures { IfOk result (λ shown. 0 < length after.now →
        slice_index shown.items 0 ≡ shown_of (slice_index after.now 0)) }
{
    let mut shown = Vec::new(alloc);
    let Some((first, others)) = after.split_first() else {
        return Ok(shown);
    };
    let (others, hidden) = others.split_at(most.saturating_sub(1).min(others.len()));
    let end: &[u8] = if hidden.is_empty() { b"" } else { b" .." };
    shown.push(shown_byte(*first))?;
    show(&mut shown, others)?;
    shown.extend_from_slice(end)?;
    Ok(shown)
}

/// How many of the first bytes of a line aren't shown, where this place is meant.
fn hidden_before(line: &[u8], at: usize) -> usize
    ensures { result ≤ at }
{
    if line.len() <= MOST_SHOWN {
        0
    } else {
        at.saturating_sub(MOST_BEFORE)
    }
}

/// What stands before a place in its line, of which so many bytes are hidden, as it is shown.
fn shown_before(alloc: Global, before: &[u8], hidden: usize) -> Result<Vec<u8>, NoMemory>
    requires { hidden ≤ length before.now }
{
    let mark: &[u8] = if hidden == 0 { b"" } else { b".. " };
    let mut shown = Vec::from_slice(alloc, mark)?;
    show(&mut shown, &before[hidden..])?;
    Ok(shown)
}

/// The place in a line, with so many carets below it, at least one.
pub fn excerpt_at(alloc: Global, line: &[u8], at: usize, width: usize) -> Result<Excerpt, NoMemory>
    requires { at ≤ length line.now }
    ensures { IfOk result
        (λ made. PointsAt line.now at made.shown.items made.carets.items) }
{
    let (before, after) = line.split_at(at);
    let hidden = hidden_before(line, at);
    let most = MOST_SHOWN.saturating_sub(at - hidden);
    let mut shown = shown_before(alloc, before, hidden)?;
    let rest = shown_from(alloc, after, most)?;
    let carets = carets_below(alloc, shown.as_slice(), width.min(most))?;
    shown.extend_from_slice(rest.as_slice())?;
    Ok(Excerpt { shown, carets })
}
