ghost use Rattle.std.specs.Prelude.{◌≡◌, ◌-◌, None, length, take};
ghost use Rattle.stream_rules.specs.Delimiter.{first_end};
ghost use Rattle.stream_rules.specs.Serving.{Until, served_read};
ghost use Rattle.composed_ops.specs.Progress.{before_latest};
ghost use Rattle.composed_ops.specs.Want.{counted_want, until_want, IsWithin};

use asio_types::Code;
use stream_rules::first_end;

/// What an operation on a stream asks for next.
#[derive(Clone, Copy, Debug, PartialEq, Eq)]
pub enum Want {
    /// To consume so many of the held bytes.
    Held(u32),
    /// To read at most so many bytes of the stream.
    Read(u32),
    /// To write `count` of its bytes, from this place on.
    Write { from: u32, count: u32 },
    /// To complete like this, and to consume so many of the held bytes.
    Finish { code: Code, size: u32 },
}

/// Held bytes first; further ones where none is held.
pub(crate) fn counted_want(missing: u32, held: &[u8]) -> Want
    ensures { result ≡ counted_want missing held.now }
{
    if held.is_empty() {
        return Want::Read(missing);
    }
    Want::Held(held.len().min(missing as usize) as u32)
}

/// Up to and including the delimiter within the first `max` held bytes; further ones where fewer
/// are held.
pub(crate) fn until_want(delimiter: &[u8], max: u32, latest: Option<u32>, held: &[u8]) -> Want
    requires { first_end delimiter.now (take (before_latest latest (length held.now)) held.now)
        ≡ None }
    ensures wanted { result
        ≡ until_want (served_read (Until delimiter.now max) 0 held.now None).outcome
        (max - length held.now) }
    ensures within { IsWithin max (length held.now) result }
{
    let within = &held[..held.len().min(max as usize)];
    match first_end(delimiter, within, before_latest(latest, held.len())) {
        Some(count) => Want::Finish {
            code: Code::Ok,
            size: count as u32,
        },
        None if held.len() >= max as usize => Want::Finish {
            code: Code::NotFound,
            size: 0,
        },
        None => Want::Read(max - held.len() as u32),
    }
}

/// How many of the held bytes were there before the latest piece.
fn before_latest(latest: Option<u32>, held: usize) -> usize
    ensures { result ≡ before_latest latest held }
{
    match latest {
        None => 0,
        Some(latest) => held.saturating_sub(latest as usize),
    }
}
