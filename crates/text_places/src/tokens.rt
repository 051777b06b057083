ghost use Rattle.std.specs.Prelude.{◌≡◌, ◌≤◌, ◌<◌, ◌&&◌, false, if◌then◌else◌, length, not, IfSome, IfNone};
ghost use Rattle.std.specs.Iterator.{at_most};
ghost use Rattle.text_places.specs.Tokens.{IsTokenAt, is_printable, tokens_begun};

/// Whether a byte may stand in a token.
pub fn is_printable(byte: u8) -> bool
    ensures { result ≡ is_printable byte }
{
    0x21 <= byte && byte <= 0x7E
}

/// A token of a script, and where it begins.
#[derive(Clone, Copy)]
pub struct Token<'t> {
    /// The token.
    pub bytes: &'t [u8],
    /// How many bytes stand before it.
    pub at: usize,
}

/// The tokens of a text, from the first one on.
#[derive(Drop)]
pub struct Tokens<'t> {
    rest: &'t [u8],
    at: usize,
}

/// The tokens of a text: the longest runs of printable bytes.
pub fn tokens_of(text: &[u8]) -> Tokens<'_> {
    Tokens { rest: text, at: 0 }
}

fn run_len(text: &[u8]) -> usize
    ensures { result ≤ length text.now }
{
    for (i, byte) in text.iter().enumerate() {
        if !is_printable(*byte) {
            return i;
        }
    }
    text.len()
}

fn space_len(text: &[u8]) -> usize
    ensures { result ≤ length text.now }
{
    for (i, byte) in text.iter().enumerate() {
        if is_printable(*byte) {
            return i;
        }
    }
    text.len()
}

impl<'t> Iterator for Tokens<'t> {
    type Item = Token<'t>;

    ghost remaining = { λ s. at_most (length s.rest.now) };

    fn next(&mut self) -> Option<Token<'t>> {
        let (_, text) = self.rest.split_at(space_len(self.rest));
        let at = self.at.saturating_add(self.rest.len() - text.len());
        let (bytes, rest) = text.split_at(run_len(text));
        if bytes.is_empty() {
            return None;
        }
        self.at = at.saturating_add(bytes.len());
        self.rest = rest;
        Some(Token { bytes, at })
    }
}

/// Where the token with this number, from 1, begins in a text; none where there are fewer.
pub fn token_at(text: &[u8], number: u32) -> Option<usize>
    ensures found { IfSome result (IsTokenAt text.now number) }
    ensures none { IfNone result (0 < number → tokens_begun false text.now < number) }
{
    let mut before = 0;
    let mut inside = false;
    for (at, byte) in text.iter().enumerate() {
        let begun = before + begins(inside, *byte);
        if before < begun && begun == number as usize {
            return Some(at);
        }
        before = begun;
        inside = is_printable(*byte);
    }
    None
}

/// How many tokens begin with a byte, before which one stands or none: one or none.
fn begins(inside: bool, byte: u8) -> usize
    ensures value { result ≡ (if is_printable byte && not inside then 1 else 0) }
    ensures few { result ≤ 1 }
{
    if is_printable(byte) && !inside { 1 } else { 0 }
}

/// The token that begins at a place.
pub fn token_from(text: &[u8], at: usize) -> &[u8] {
    let rest = text.get(at..).unwrap_or(&[]);
    rest.split_at(run_len(rest)).0
}
