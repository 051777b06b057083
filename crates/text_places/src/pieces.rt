ghost use Rattle.std.specs.Prelude.{◌≡◌, ◌≢◌, ◌≤◌, ◌<◌, ℕ, length, slice_index};
ghost use Rattle.std.specs.Iterator.{at_most};

/// How many bytes stand before the first byte of a text that is this one, or in all of it where none is.
pub fn len_before(text: &[u8], stop: u8) -> usize
    ensures within { result ≤ length text.now }
    ensures other { (k : ℕ) → k < result → slice_index text.now k ≢ stop }
{
    for (at, byte) in text.iter().enumerate() {
        if *byte == stop {
            return at;
        }
    }
    text.len()
}

/// How many digits stand at the front of a text.
pub fn digits_len(text: &[u8]) -> usize
    ensures { result ≤ length text.now }
{
    for (at, byte) in text.iter().enumerate() {
        if !byte.is_ascii_digit() {
            return at;
        }
    }
    text.len()
}

/// The pieces of a text, from the first one on.
#[derive(Drop)]
pub struct Pieces<'t> {
    rest: &'t [u8],
    stop: u8,
}

/// The pieces of a text, each of which ends before this byte, or with the text: there is none behind
/// a last such byte.
pub fn pieces_of(text: &[u8], stop: u8) -> Pieces<'_> {
    Pieces { rest: text, stop }
}

/// The lines of a text, without their line feeds.
pub fn lines_of(text: &[u8]) -> Pieces<'_> {
    pieces_of(text, b'\n')
}

impl<'t> Iterator for Pieces<'t> {
    type Item = &'t [u8];

    ghost remaining = { λ s. at_most (length s.rest.now) };

    fn next(&mut self) -> Option<&'t [u8]> {
        if self.rest.is_empty() {
            return None;
        }
        let (piece, behind) = self.rest.split_at(len_before(self.rest, self.stop));
        self.rest = behind.get(1..).unwrap_or(&[]);
        Some(piece)
    }
}
