ghost use Rattle.std.specs.Prelude.{◌≡◌, ◌≤◌, None, IfSome, length, take};
ghost use Rattle.stream_rules.specs.Delimiter.{first_end};

/// How many bytes there are up to and including the first occurrence of a delimiter, if there is
/// one (Asio reference, `async_read_until`). The first `seen` bytes, in which no occurrence ends,
/// are looked at again only as far as a delimiter may begin there. Costs at most a comparison for
/// each further byte and each byte of the delimiter.
pub fn first_end(delimiter: &[u8], bytes: &[u8], seen: usize) -> Option<usize>
    requires { first_end delimiter.now (take seen bytes.now) ≡ None }
    ensures found { result ≡ first_end delimiter.now bytes.now }
    ensures within { IfSome result (λ count. count ≤ length bytes.now) }
{
    for start in seen.saturating_sub(delimiter.len())..bytes.len() {
        if bytes[start..].starts_with(delimiter) {
            return Some(start + delimiter.len());
        }
    }
    None
}
