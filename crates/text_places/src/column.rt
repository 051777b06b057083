ghost use Rattle.std.specs.Prelude.{◌≡◌, ◌≤◌, ◌<◌, length};
ghost use Rattle.text_places.specs.Column.{IsColumn, IsLineStart};

use crate::pieces::len_before;

/// Where the line begins in which a place lies.
pub(crate) fn line_start(text: &[u8], at: usize) -> usize
    requires { at ≤ length text.now }
    ensures { IsLineStart text.now at result }
{
    let mut begin = 0;
    for i in 0..at {
        if text[i] == b'\n' {
            begin = i + 1;
        }
    }
    begin
}

/// The column of a place, from 1; that of the text's end where the place lies behind it. Looks at the
/// bytes before it.
pub fn column_of(text: &[u8], at: usize) -> usize
    ensures { at ≤ length text.now → IsColumn text.now at result }
{
    let at = at.min(text.len());
    at - line_start(text, at) + 1
}

/// The line in which a place lies, without its line end, and how many bytes of it stand before the place.
pub fn line_round(text: &[u8], at: usize) -> (&[u8], usize)
    ensures { result.1 ≤ length result.0.now }
{
    let at = at.min(text.len());
    let begin = line_start(text, at);
    let after = &text[at..];
    let (rest, _) = after.split_at(len_before(after, b'\n'));
    let rest = rest.strip_suffix(b"\r").unwrap_or(rest);
    (&text[begin..at + rest.len()], at - begin)
}
