ghost use Rattle.std.specs.Prelude.{◌≡◌, ◌≤◌, true, false, IfOk, OnOk};
ghost use Rattle.std.specs.List.{list_all};
ghost use Rattle.session_script.specs.Tokens.{tokens_at};
ghost use Rattle.session_script.specs.Kinds.{is_hexadecimal, decoded};
ghost use Rattle.session_script.specs.Productions.{word, another, bounded, declared_number, optional, types, plug, bytes};
ghost use Rattle.session_script.specs.Outcome.{Gives};

use crate::kind::{another_word, byte_of, chosen, data, exactly, known, within};
use crate::parts::Header;
use crate::refusal::ScriptFault;
use crate::token::Cursor;
use asio_types::{Bytes, SlotNo, Types};
use std::alloc::{AllocError, Global};

/// One word, or a brace.
#[tactic(auto, unfolding(crate::specs::Productions::word))]
pub(crate) fn word(text: &[u8], cursor: &mut Cursor<'_>) -> Result<(), ScriptFault>
    ensures { Gives (λ x. x) result (tokens_at cursor.new) (word text.now (tokens_at cursor.old)) }
{
    let token = cursor.take()?;
    token.at.judged(exactly(text, token.bytes))
}

/// One word, or a brace, that begins one more of something, unless there are enough of them.
#[tactic(auto, unfolding(crate::specs::Productions::another))]
pub(crate) fn another(text: &[u8], full: bool, cursor: &mut Cursor<'_>) -> Result<(), ScriptFault>
    ensures value { Gives (λ x. x) result (tokens_at cursor.new)
        (another text.now full (tokens_at cursor.old)) }
    ensures room { OnOk result (full ≡ false) }
{
    let token = cursor.take()?;
    token.at.judged(another_word(text, full, token.bytes))
}

/// A number within limits.
#[tactic(auto, unfolding(crate::specs::Productions::bounded))]
pub(crate) fn bounded(least: u64, most: u64, cursor: &mut Cursor<'_>) -> Result<u64, ScriptFault>
    ensures value { Gives (λ x. x) result (tokens_at cursor.new)
        (bounded least most (tokens_at cursor.old)) }
    ensures in_range { IfOk result (λ value. value ≤ most) }
{
    let token = cursor.take()?;
    token.at.judged(within(least, most, token.bytes))
}

/// A size from 1 on.
pub(crate) fn size(most: u32, cursor: &mut Cursor<'_>) -> Result<u32, ScriptFault>
    ensures { Gives (λ x. x) result (tokens_at cursor.new) (bounded 1 most (tokens_at cursor.old)) }
{
    let value = bounded(1, most as u64, cursor)?;
    Ok(value as u32)
}

/// The number of a stream, timer, slot or guard.
#[tactic(auto, unfolding(crate::specs::Productions::declared_number))]
pub(crate) fn declared(count: u8, cursor: &mut Cursor<'_>) -> Result<u8, ScriptFault>
    ensures { Gives (λ x. x) result (tokens_at cursor.new)
        (declared_number count (tokens_at cursor.old)) }
{
    let token = cursor.take()?;
    token.at.judged(known(count, token.bytes))
}

/// `-`, or the number of a strand or slot.
#[tactic(auto, unfolding(crate::specs::Productions::optional))]
pub(crate) fn optional(count: u8, cursor: &mut Cursor<'_>) -> Result<Option<u8>, ScriptFault>
    ensures { Gives (λ x. x) result (tokens_at cursor.new) (optional count (tokens_at cursor.old)) }
{
    let token = cursor.take()?;
    token.at.judged(chosen(count, token.bytes))
}

/// A set of cancellation types.
#[tactic(auto, unfolding(crate::specs::Productions::types))]
pub(crate) fn types(cursor: &mut Cursor<'_>) -> Result<Types, ScriptFault>
    ensures { Gives (λ x. x) result (tokens_at cursor.new) (types (tokens_at cursor.old)) }
{
    let bits = bounded(0, 7, cursor)?;
    Ok(Types::of(bits as u8).unwrap())
}

/// A slot and the types that it lets through: all, where no filter stands.
#[tactic(auto, unfolding(crate::specs::Productions::plug))]
pub(crate) fn plug(
    header: &Header,
    cursor: &mut Cursor<'_>,
) -> Result<(Option<SlotNo>, Types), ScriptFault>
    ensures { Gives (λ x. x) result (tokens_at cursor.new)
        (plug header.now (tokens_at cursor.old)) }
{
    let slot = optional(header.slots, cursor)?;
    if slot.is_none() || header.version == 1 || !cursor.begins(b"only") {
        return Ok((slot, Types::all()));
    }
    word(b"only", cursor)?;
    let filter = types(cursor)?;
    Ok((slot, filter))
}

/// The bytes that hexadecimal digits stand for, two digits a byte.
fn decoded(alloc: Global, digits: &[u8]) -> Result<Bytes, AllocError>
    requires { list_all is_hexadecimal digits.now ≡ true }
    ensures { IfOk result (λ bytes. bytes ≡ decoded digits.now) }
{
    let mut bytes = Vec::with_capacity(alloc, digits.len() / 2)?;
    let mut read = 0;
    while read + 1 < digits.len() {
        bytes.push(byte_of(digits[read], digits[read + 1]))?;
        read += 2;
    }
    Ok(Bytes::of(bytes))
}

/// Bytes, at most so many.
#[tactic(auto, unfolding(crate::specs::Productions::bytes))]
pub(crate) fn bytes(alloc: Global, most: u32, cursor: &mut Cursor<'_>) -> Result<Bytes, ScriptFault>
    ensures { Gives (λ x. x) result (tokens_at cursor.new) (bytes most (tokens_at cursor.old)) }
{
    let token = cursor.take()?;
    match data(most, token.bytes) {
        Ok(digits) => Ok(decoded(alloc, digits)?),
        Err(rule) => Err(token.at.refused(rule)),
    }
}
