ghost use Rattle.std.specs.Prelude.{◌≡◌, ◌∷◌, [], OnOk};
ghost use Rattle.std.specs.Fmt.{decimal};
ghost use Rattle.session_script.specs.Text.{act_text};
ghost use Rattle.session_script.specs.Spelling.{written, object_words, tail_words, handler_words, field_words};

use crate::act::Act;
use crate::writer::word::{data, number, number_or_dash, word};
use asio_types::{NoMemory, SlotNo, StrandNo, Types};

/// The word of an act.
pub(crate) fn act_text(act: &Act) -> &'static [u8]
    ensures { result.now ≡ act_text act.now }
{
    match act {
        Act::Post { .. } => b"post",
        Act::Defer { .. } => b"defer",
        Act::Dispatch { .. } => b"dispatch",
        Act::Expires { .. } => b"expires",
        Act::ExpiresAt { .. } => b"expiresat",
        Act::Wait { .. } => b"wait",
        Act::Cancel { .. } => b"cancel",
        Act::CancelOne { .. } => b"cancelone",
        Act::Emit { .. } => b"emit",
        Act::ReadSome { .. } => b"readsome",
        Act::ReadAll { .. } => b"read",
        Act::Until { .. } => b"until",
        Act::WriteSome { .. } => b"writesome",
        Act::WriteAll { .. } => b"write",
        Act::Close { .. } => b"close",
        Act::Release { .. } => b"release",
        Act::Stop => b"stop",
    }
}

/// Two numbers.
fn two(first: u8, second: u64, out: &mut Vec<u8>) -> Result<(), NoMemory>
    ensures { OnOk result
        (out.new.items ≡ written out.old.items (decimal first ∷ decimal second ∷ [])) }
{
    number(first as u64, out)?;
    number(second, out)
}

/// A strand, a slot and the types that it lets through, unless they are all.
fn tail(
    strand: Option<StrandNo>,
    slot: Option<SlotNo>,
    filter: Types,
    out: &mut Vec<u8>,
) -> Result<(), NoMemory>
    ensures { OnOk result (out.new.items ≡ written out.old.items (tail_words strand slot filter)) }
{
    number_or_dash(strand, out)?;
    number_or_dash(slot, out)?;
    if filter.bits() == 7 {
        return Ok(());
    }
    word(b"only", out)?;
    number(filter.bits() as u64, out)
}

/// What an act does: to which object, and how much.
fn object(act: &Act, out: &mut Vec<u8>) -> Result<(), NoMemory>
    ensures { OnOk result (out.new.items ≡ written out.old.items (object_words act.now)) }
{
    match act {
        Act::Post { .. } | Act::Defer { .. } | Act::Dispatch { .. } | Act::Stop => Ok(()),
        Act::Expires { timer, after: time } | Act::ExpiresAt { timer, at: time } => two(
            *timer, *time, out,
        ),
        Act::Wait { timer, .. } | Act::Cancel { timer } | Act::CancelOne { timer } => number(
            *timer as u64,
            out,
        ),
        Act::Emit { slot, types } => two(*slot, types.bits() as u64, out),
        Act::ReadSome { stream, size, .. } | Act::ReadAll { stream, size, .. } => two(
            *stream,
            *size as u64,
            out,
        ),
        Act::Until {
            stream,
            delimiter,
            max,
            ..
        } => {
            number(*stream as u64, out)?;
            data(delimiter.as_slice(), out)?;
            number(*max as u64, out)
        }
        Act::WriteSome { stream, bytes, .. } | Act::WriteAll { stream, bytes, .. } => {
            number(*stream as u64, out)?;
            data(bytes.as_slice(), out)
        }
        Act::Close { stream: number_of } | Act::Release { guard: number_of } => number(
            *number_of as u64,
            out,
        ),
    }
}

/// Where the handler of an act executes, and by what it is cancelled.
fn handler(act: &Act, out: &mut Vec<u8>) -> Result<(), NoMemory>
    ensures { OnOk result (out.new.items ≡ written out.old.items (handler_words act.now)) }
{
    match act {
        Act::Post { strand } | Act::Defer { strand } | Act::Dispatch { strand } => number_or_dash(
            *strand, out,
        ),
        Act::Wait {
            strand,
            slot,
            filter,
            ..
        }
        | Act::ReadSome {
            strand,
            slot,
            filter,
            ..
        }
        | Act::ReadAll {
            strand,
            slot,
            filter,
            ..
        }
        | Act::Until {
            strand,
            slot,
            filter,
            ..
        }
        | Act::WriteSome {
            strand,
            slot,
            filter,
            ..
        }
        | Act::WriteAll {
            strand,
            slot,
            filter,
            ..
        } => tail(*strand, *slot, *filter, out),
        Act::Expires { .. } | Act::ExpiresAt { .. } | Act::Cancel { .. } => Ok(()),
        Act::CancelOne { .. } | Act::Emit { .. } | Act::Close { .. } => Ok(()),
        Act::Release { .. } | Act::Stop => Ok(()),
    }
}

/// What an act has after its word, without its bodies.
pub(crate) fn fields(act: &Act, out: &mut Vec<u8>) -> Result<(), NoMemory>
    ensures { OnOk result (out.new.items ≡ written out.old.items (field_words act.now)) }
{
    object(act, out)?;
    handler(act, out)
}
