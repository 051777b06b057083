ghost use Rattle.std.specs.Prelude.{◌≡◌, ◌≤◌, ◌<◌, ◌+◌, ◌^◌, IfSome, IsNone, length};
ghost use Rattle.std.specs.Option.{option_map};
ghost use Rattle.stream_rules.specs.Asked.{reading_view, writing_view, IsCountable};
ghost use Rattle.stream_rules.specs.Serving.{all_of, bytes_of, ended_by, read_code, served_read, served_write, some_of, until_found, write_code};

use crate::delimiter::first_end;
use asio_types::{Code, ReadMark, WriteMark};

/// What a reading operation asks for.
#[derive(Clone, Copy, Debug, PartialEq, Eq)]
pub enum Reading<'a> {
    /// As much as is there, at most so many bytes: `async_read_some`.
    Some { size: u32 },
    /// So many bytes in all: `async_read`.
    All { size: u32 },
    /// Up to and including a delimiter, within so many bytes: `async_read_until`.
    Until { delimiter: &'a [u8], max: u32 },
}

/// What a writing operation has to write.
#[derive(Clone, Copy, Debug, PartialEq, Eq)]
pub enum Writing<'a> {
    /// As many of these bytes as there is room for: `async_write_some`.
    Some { bytes: &'a [u8] },
    /// All of these bytes: `async_write`.
    All { bytes: &'a [u8] },
}

/// What an operation does with what is there.
#[derive(Clone, Copy, Debug, PartialEq, Eq)]
pub struct Served {
    /// How much it uses up.
    pub used: u32,
    /// Its code and size where it completes; none where it stays.
    pub outcome: Option<(Code, u32)>,
}

fn code_of_read_mark(mark: Option<ReadMark>) -> Option<Code>
    ensures { result ≡ option_map read_code mark }
{
    mark.map(|mark| match mark {
        ReadMark::Eof => Code::Eof,
        ReadMark::Reset => Code::Reset,
    })
}

fn code_of_write_mark(mark: Option<WriteMark>) -> Option<Code>
    ensures { result ≡ option_map write_code mark }
{
    mark.map(|mark| match mark {
        WriteMark::Broken => Code::Broken,
        WriteMark::Reset => Code::Reset,
    })
}

fn ended_by(mark: Option<Code>, size: u32) -> Option<(Code, u32)>
    ensures { result ≡ ended_by mark size }
{
    mark.map(|code| (code, size))
}

fn some_of(size: u32, there: usize, mark: Option<Code>) -> Served
    ensures { result ≡ some_of size there mark }
{
    if there == 0 {
        return Served {
            used: 0,
            outcome: ended_by(mark, 0),
        };
    }
    let used = there.min(size as usize) as u32;
    Served {
        used,
        outcome: Some((Code::Ok, used)),
    }
}

fn all_of(size: u32, moved: u32, there: usize, mark: Option<Code>) -> Served
    ensures { result ≡ all_of size moved there mark }
{
    let missing = size.saturating_sub(moved);
    if missing as usize <= there {
        return Served {
            used: missing,
            outcome: Some((Code::Ok, size)),
        };
    }
    let used = there as u32;
    Served {
        used,
        outcome: ended_by(mark, moved + used),
    }
}

fn until_found(found: Option<usize>, max: u32, there: usize, mark: Option<Code>) -> Served
    requires { IfSome found (λ count. count ≤ max) }
    ensures { result ≡ until_found found max there mark }
{
    match found {
        Some(count) => Served {
            used: count as u32,
            outcome: Some((Code::Ok, count as u32)),
        },
        None if there >= max as usize => Served {
            used: 0,
            outcome: Some((Code::NotFound, 0)),
        },
        None => Served {
            used: 0,
            outcome: ended_by(mark, 0),
        },
    }
}

/// The bytes of a writing operation.
pub(crate) fn bytes_of<'a>(writing: Writing<'a>) -> &'a [u8]
    ensures { result.now ≡ bytes_of (writing_view writing.entry) }
{
    match writing {
        Writing::Some { bytes } | Writing::All { bytes } => bytes,
    }
}

/// What a reading operation that got `moved` bytes before gives where these bytes are there; a mark
/// is seen behind them. Costs nothing that grows, and for `Until` the search for the delimiter.
pub fn served_read(reading: Reading, moved: u32, there: &[u8], mark: Option<ReadMark>) -> Served
    ensures served { result ≡ served_read (reading_view reading.entry) moved there.now mark }
    ensures within { result.used ≤ length there.now }
    ensures countable { IsNone result.outcome → moved + result.used < 2 ^ 32 }
{
    let mark = code_of_read_mark(mark);
    match reading {
        Reading::Some { size } => some_of(size, there.len(), mark),
        Reading::All { size } => all_of(size, moved, there.len(), mark),
        Reading::Until { delimiter, max } => {
            let within = &there[..there.len().min(max as usize)];
            until_found(first_end(delimiter, within, 0), max, there.len(), mark)
        }
    }
}

/// What a writing operation of which `moved` bytes were taken before gives where there is so much
/// room; a mark is seen behind it. Constant cost.
pub fn served_write(writing: Writing, moved: u32, room: u32, mark: Option<WriteMark>) -> Served
    requires { IsCountable (writing_view writing) }
    ensures served { result ≡ served_write (writing_view writing.entry) moved room mark }
    ensures within { result.used ≤ room }
    ensures countable { IsNone result.outcome → moved + result.used < 2 ^ 32 }
{
    let mark = code_of_write_mark(mark);
    match writing {
        Writing::Some { bytes } => some_of(bytes.len() as u32, room as usize, mark),
        Writing::All { bytes } => all_of(bytes.len() as u32, moved, room as usize, mark),
    }
}
