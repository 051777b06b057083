ghost use Rattle.std.specs.Prelude.{◌≡◌, ◌≢◌, ◌↔◌, ◌++◌, ◌<◌, ◌≤◌, ℕ, false, length, slice_index, IfSome, IsTrue};
ghost use Rattle.text_places.specs.Lines.{BeginsLine, IsLineAt, line_feeds};

/// A script's text, with the comments at its head apart.
#[derive(Clone, Copy)]
pub struct ScriptParts<'t> {
    /// The lines at its front that begin with `#`.
    pub head: &'t [u8],
    /// The text behind them, which the reader of scripts gets as it is.
    pub rest: &'t [u8],
}

/// Whether the byte at this place is one of the head, where all before it are: no line begins with it
/// that isn't a comment.
fn is_of_head(script: &[u8], at: usize) -> bool
    requires { at < length script.now }
    ensures comment { IsTrue result → BeginsLine script.now at →
        slice_index script.now at ≡ 35 }
    ensures stops { result ≡ false →
        BeginsLine script.now at × (slice_index script.now at ≢ 35) }
{
    if begins_line(script, at) {
        script[at] == b'#'
    } else {
        true
    }
}

/// Whether a line begins at this place.
fn begins_line(text: &[u8], at: usize) -> bool
    requires { at ≤ length text.now }
    ensures { IsTrue result ↔ BeginsLine text.now at }
{
    at == 0 || text[at - 1] == b'\n'
}

/// How many bytes the first lines of a script have that begin with `#`.
fn head_len(script: &[u8]) -> usize
    ensures within { result ≤ length script.now }
    ensures comments { (k : ℕ) → k < result → BeginsLine script.now k →
        slice_index script.now k ≡ 35 }
    ensures stops { result < length script.now →
        BeginsLine script.now result × (slice_index script.now result ≢ 35) }
{
    for at in 0..script.len() {
        if !is_of_head(script, at) {
            return at;
        }
    }
    script.len()
}

/// A script's text, whose first lines that begin with `#` are its head.
pub fn script_parts_of(script: &[u8]) -> ScriptParts<'_>
    ensures whole { script.now ≡ result.head.now ++ result.rest.now }
    // Each line of the head begins with `#`, and the rest doesn't.
    ensures comments { (k : ℕ) → k < length result.head.now → BeginsLine script.now k →
        slice_index script.now k ≡ 35 }
    ensures stops { 0 < length result.rest.now →
        BeginsLine script.now (length result.head.now)
        × (slice_index script.now (length result.head.now) ≢ 35) }
{
    let (head, rest) = script.split_at(head_len(script));
    ScriptParts { head, rest }
}

/// How many lines end in a text.
pub fn lines_in(text: &[u8]) -> usize
    ensures count { result ≡ line_feeds text.now }
    ensures bound { result ≤ length text.now }
{
    let mut lines = 0;
    for byte in text {
        if *byte == b'\n' {
            lines += 1;
        }
    }
    lines
}

/// Where the line with this number, from 1, begins; none where there are fewer line ends before it.
pub fn line_begin(text: &[u8], number: u32) -> Option<usize>
    ensures { IfSome result (IsLineAt text.now number) }
{
    if number == 1 {
        return Some(0);
    }
    let mut line = 1;
    for (at, byte) in text.iter().enumerate() {
        if *byte == b'\n' {
            line += 1;
            if line == number as usize {
                return Some(at + 1);
            }
        }
    }
    None
}
