ghost use Rattle.std.specs.Prelude.{◌≡◌, ◌≤◌, ◌*◌, length, All};
ghost use Rattle.std.specs.Fmt.{decimal};
ghost use Rattle.std.specs.List.{flat_map};
ghost use Rattle.session_script.specs.Spelling.{line_words, what_words};
ghost use Rattle.session_script.specs.Writable.{AreBytes, IsFedBytes};
ghost use Rattle.group_script.specs.Limits.{FitsWorldLine, FitsWorldWhat};
ghost use Rattle.group_script.specs.Measure.{span};

use asio_types::{Line, What};
use itoa::Buffer;

/// How many digits a number has.
fn digits(n: u64) -> usize
    ensures digits { result ≡ length (decimal n) }
    ensures few { result ≤ 20 }
{
    let mut buffer = Buffer::new();
    buffer.format(n).len()
}

/// What a `u8` holds is a byte. A law: it runs nothing.
fn are_bytes(bytes: &[u8])
    ensures { AreBytes bytes.now }
{
    let _ = bytes;
}

/// How many bytes of a text the words of what a stream meets take, with a space before each.
#[tactic(auto, unfolding(session_script::specs::Limits::limits_of))]
fn what_length(stream: u8, what: &What, streams: u8) -> usize
    requires { FitsWorldWhat streams what.now }
    ensures length { result ≡ span (what_words stream what.now) }
    ensures few { result ≤ 33_000 }
    ensures fed { IsFedBytes what.now }
{
    let stream = digits(stream as u64);
    match what {
        What::Feed(bytes) => {
            are_bytes(bytes.as_slice());
            5 + (1 + stream) + (2 + 2 * bytes.as_slice().len())
        }
        What::End => 4 + (1 + stream),
        What::Reset => 6 + (1 + stream),
        What::Room(room) => 5 + (1 + stream) + (1 + digits(*room as u64)),
    }
}

/// How many bytes of a text the words of a line take, with a space before each.
fn line_length(line: &Line, streams: u8) -> usize
    requires { FitsWorldLine streams line.now }
    ensures length { result ≡ span (line_words line.now) }
    ensures few { result ≤ 33_100 }
    ensures fed { IsFedBytes line.now.what }
{
    3 + (1 + digits(line.time)) + what_length(line.stream, &line.what, streams)
}

/// How many bytes of a text the words of all lines take, with a space before each.
pub(crate) fn lines_length(lines: &[Line], streams: u8) -> usize
    requires fit { All (FitsWorldLine streams) lines.now }
    requires few { length lines.now ≤ 1024 }
    ensures length { result ≡ span (flat_map line_words lines.now) }
    ensures bound { result ≤ 33_100 * 1024 }
    ensures fed { All (λ line. IsFedBytes line.what) lines.now }
{
    let mut total = 0;
    for line in lines {
        total += line_length(line, streams);
    }
    total
}
