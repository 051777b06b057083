ghost use Rattle.std.specs.Prelude.{◌≡◌, ◌+◌, Some, None, MatchOption};
ghost use Rattle.trace_check.specs.Split.{split_once};

/// What stands before the first of these bytes, and what stands behind it.
pub(crate) fn split_once(bytes: &[u8], separator: u8) -> Option<(&[u8], &[u8])>
    ensures { MatchOption result (split_once separator bytes.now ≡ None)
        (λ parts. split_once separator bytes.now ≡ Some (parts.0.now, parts.1.now)) }
{
    let mut before = 0;
    while before < bytes.len() && bytes[before] != separator {
        before += 1;
    }
    if before == bytes.len() {
        None
    } else {
        Some((&bytes[..before], &bytes[before + 1..]))
    }
}
