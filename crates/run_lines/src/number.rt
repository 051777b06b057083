ghost use Rattle.std.specs.Prelude.{◌≡◌};
ghost use Rattle.run_lines.specs.Number.{is_plain, number_in};

use std::str;

/// Whether something stands there, with neither a plus sign nor a leading zero in front.
fn is_plain(bytes: &[u8]) -> bool
    ensures { result ≡ is_plain bytes.now }
{
    match bytes {
        [] => false,
        [digit] => *digit != b'+',
        [digit, ..] => *digit != b'+' && *digit != b'0',
    }
}

/// The number below 2^64 that these bytes are the decimal text of.
pub(crate) fn number_of(bytes: &[u8]) -> Option<u64>
    ensures { result ≡ number_in bytes.now }
{
    if !is_plain(bytes) {
        return None;
    }
    let Ok(text) = str::from_utf8(bytes) else {
        return None;
    };
    match text.parse::<u64>() {
        Ok(value) => Some(value),
        Err(_) => None,
    }
}
