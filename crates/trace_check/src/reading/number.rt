ghost use Rattle.std.specs.Prelude.{◌≡◌, ◌^◌};
ghost use Rattle.trace_check.specs.Number.{is_plain, number};

use std::str;

/// Whether something stands there, with neither a plus sign nor a leading zero in front.
fn is_plain(bytes: &[u8]) -> bool
    ensures { result ≡ is_plain bytes.now }
{
    match bytes {
        [] => false,
        [digit] => *digit != b'+',
        [digit, ..] => *digit != b'+' && *digit != b'0',
    }
}

/// The number of 64 bits that these bytes spell in decimal, without a sign or a leading zero.
pub(crate) fn number_of_64(bytes: &[u8]) -> Option<u64>
    ensures { result ≡ number (2 ^ 64) bytes.now }
{
    if !is_plain(bytes) {
        return None;
    }
    let Ok(text) = str::from_utf8(bytes) else {
        return None;
    };
    match text.parse::<u64>() {
        Ok(value) => Some(value),
        Err(_) => None,
    }
}

/// The same of 32 bits.
pub(crate) fn number_of_32(bytes: &[u8]) -> Option<u32>
    ensures { result ≡ number (2 ^ 32) bytes.now }
{
    let value = number_of_64(bytes)?;
    if value <= u32::MAX as u64 {
        Some(value as u32)
    } else {
        None
    }
}
