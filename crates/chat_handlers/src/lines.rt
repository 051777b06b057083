ghost use Rattle.std.specs.Prelude.{◌≡◌, length, IfNone, IfSome};
ghost use Rattle.std.specs.List.{position};
ghost use Rattle.chat_handlers.specs.Lines.{BeginsWith, BeginsWithNone, HasNoEnd, is_end, without_return};

/// A line has at most so many bytes before its end.
pub const MOST_LINE: usize = 512;

/// Where the first line ends.
fn end_in(bytes: &[u8]) -> Option<usize>
    ensures { result ≡ position is_end bytes.now }
{
    bytes.iter().position(|byte| *byte == b'\n')
}

/// What stands before the end of the first line, and what behind it; `None` where none ends, or it is too long.
pub(crate) fn next_line(bytes: &[u8]) -> Option<(&[u8], &[u8])>
    ensures begins { IfSome result (λ r. BeginsWith bytes.now r.0.now r.1.now) }
    ensures none { IfNone result (BeginsWithNone bytes.now) }
{
    match end_in(bytes) {
        None => None,
        Some(at) => {
            if at <= MOST_LINE {
                Some((&bytes[..at], &bytes[at + 1..]))
            } else {
                None
            }
        }
    }
}

/// A line without the `\r` at its end.
pub(crate) fn without_return(line: &[u8]) -> &[u8]
    ensures { result.now ≡ without_return line.now }
{
    let size = line.len();
    if size > 0 && line[size - 1] == b'\r' {
        &line[..size - 1]
    } else {
        line
    }
}
