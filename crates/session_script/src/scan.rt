ghost use Rattle.std.specs.Prelude.{◌≡◌, ◌+◌, ◌≤◌, ◌<◌, ◌^◌, ℕ, [], take, drop, length, slice_index, true, false};
ghost use Rattle.session_script.specs.Tokens.{is_printable, tokens_from, tokens_of, tokens_at};

use crate::token::{Cursor, Position, Token};

/// Whether a byte may stand in a token.
#[tactic(auto, unfolding(crate::specs::Tokens::is_printable))]
pub(crate) fn is_printable(byte: u8) -> bool
    ensures { result ≡ is_printable byte }
{
    0x21 <= byte && byte <= 0x7E
}

/// The bytes from the next printable one on, and its line.
fn skip_space(bytes: &[u8], line: u32) -> (&[u8], u32)
    requires { line + length bytes.now < 2 ^ 32 }
    ensures same { (count : ℕ) →
        tokens_from result.1 count [] result.0.now ≡ tokens_from line count [] bytes.now }
    ensures countable { result.1 + length result.0.now ≤ line + length bytes.now }
    ensures shorter { length result.0.now ≤ length bytes.now }
    ensures stops { 0 < length result.0.now → is_printable (slice_index result.0.now 0) ≡ true }
{
    let mut skipped = 0;
    let mut line = line;
    while skipped < bytes.len() && !is_printable(bytes[skipped]) {
        if bytes[skipped] == b'\n' {
            line += 1;
        }
        skipped += 1;
    }
    (&bytes[skipped..], line)
}

/// How many printable bytes stand at the front.
fn run_len(bytes: &[u8]) -> usize
    ensures in_range { result ≤ length bytes.now }
    ensures same { (line count : ℕ) →
        tokens_from line count (take result bytes.now) (drop result bytes.now)
        ≡ tokens_from line count [] bytes.now }
    ensures stops { result < length bytes.now →
        is_printable (slice_index bytes.now result) ≡ false }
{
    let mut count = 0;
    while count < bytes.len() && is_printable(bytes[count]) {
        count += 1;
    }
    count
}

/// The tokens of what follows a position.
#[tactic(auto, unfolding(crate::specs::Tokens::tokens_at))]
pub(crate) fn tokens_after(rest: &[u8], before: Position) -> Cursor<'_>
    requires lines { before.line + length rest.now < 2 ^ 32 }
    requires tokens { before.token + length rest.now + 1 < 2 ^ 32 }
    ensures { tokens_at result ≡ tokens_from before.line before.token [] rest.now }
{
    let (rest, line) = skip_space(rest, before.line);
    let count = run_len(rest);
    if count == 0 {
        let before = Position {
            line,
            token: before.token,
        };
        return Cursor {
            next: None,
            rest,
            before,
        };
    }
    let (bytes, rest) = rest.split_at(count);
    let at = Position {
        line,
        token: before.token + 1,
    };
    Cursor {
        next: Some(Token { bytes, at }),
        rest,
        before: at,
    }
}

/// All tokens of a text.
pub(crate) fn tokens(text: &[u8]) -> Cursor<'_>
    requires { length text.now + 1 < 2 ^ 32 }
    ensures { tokens_at result ≡ tokens_of text.now }
{
    tokens_after(text, Position { line: 1, token: 0 })
}
