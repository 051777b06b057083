ghost use Rattle.std.specs.Prelude.{◌≡◌, ◌≤◌, length, IfNone, IfSome};
ghost use Rattle.http_handlers.specs.Heads.{HasNoHead, IsHeadSize, ends_empty};

/// A head has at most so many bytes.
pub const MOST_HEAD: usize = 8192;

/// Whether the line that ends behind so many bytes is empty, and another one ends before it.
fn ends_empty(bytes: &[u8], size: usize) -> bool
    requires { size ≤ length bytes.now }
    ensures { result ≡ ends_empty bytes.now size }
{
    2 <= size
        && bytes[size - 1] == b'\n'
        && (bytes[size - 2] == b'\n'
            || 3 <= size && bytes[size - 2] == b'\r' && bytes[size - 3] == b'\n')
}

/// How many bytes the head at the front has; `None` where none ends, or it is too long.
pub(crate) fn head_size(bytes: &[u8]) -> Option<usize>
    ensures some { IfSome result (λ size. IsHeadSize bytes.now size) }
    ensures none { IfNone result (HasNoHead bytes.now) }
{
    let most = bytes.len().min(MOST_HEAD);
    'sizes: for size in 0..most + 1 {
        if ends_empty(bytes, size) {
            return Some(size);
        }
    }
    None
}
