ghost use Rattle.session_script.specs.Tokens.{tokens_at};
ghost use Rattle.session_script.specs.Acts.{fields};
ghost use Rattle.session_script.specs.Outcome.{Gives};
ghost use Rattle.session_script.specs.declared.reader.act_word.ActWord.TheVariants as words;

use crate::act::Act;
use crate::parts::Header;
use crate::reader::act_word::ActWord;
use crate::reader::field::{bounded, bytes, declared, optional, plug, size, types};
use crate::refusal::ScriptFault;
use crate::token::Cursor;
use std::alloc::Global;

/// An act without its bodies, after its word.
#[tactic(auto, unfolding(crate::specs::Acts::fields))]
pub(crate) fn act(
    alloc: Global,
    header: &Header,
    word: ActWord,
    cursor: &mut Cursor<'_>,
) -> Result<Act, ScriptFault>
    ensures { Gives (λ x. x) result (tokens_at cursor.new)
        (fields header.now word (tokens_at cursor.old)) }
{
    match word {
        ActWord::Post => {
            let strand = optional(header.strands, cursor)?;
            Ok(Act::Post { strand })
        }
        ActWord::Defer => {
            let strand = optional(header.strands, cursor)?;
            Ok(Act::Defer { strand })
        }
        ActWord::Dispatch => {
            let strand = optional(header.strands, cursor)?;
            Ok(Act::Dispatch { strand })
        }
        ActWord::Expires => expires(header, cursor),
        ActWord::ExpiresAt => expires_at(header, cursor),
        ActWord::Wait => wait(header, cursor),
        ActWord::Cancel => {
            let timer = declared(header.timers, cursor)?;
            Ok(Act::Cancel { timer })
        }
        ActWord::CancelOne => {
            let timer = declared(header.timers, cursor)?;
            Ok(Act::CancelOne { timer })
        }
        ActWord::Emit => emit(header, cursor),
        ActWord::ReadSome => read_some(header, cursor),
        ActWord::Read => read_all(header, cursor),
        ActWord::Until => until(alloc, header, cursor),
        ActWord::WriteSome => write_some(alloc, header, cursor),
        ActWord::Write => write_all(alloc, header, cursor),
        ActWord::Close => {
            let stream = declared(header.streams, cursor)?;
            Ok(Act::Close { stream })
        }
        ActWord::Release => {
            let guard = declared(header.guards, cursor)?;
            Ok(Act::Release { guard })
        }
        ActWord::Stop => Ok(Act::Stop),
    }
}

#[tactic(auto, unfolding(crate::specs::Acts::fields))]
fn expires(header: &Header, cursor: &mut Cursor<'_>) -> Result<Act, ScriptFault>
    ensures { Gives (λ x. x) result (tokens_at cursor.new)
        (fields header.now words.Expires (tokens_at cursor.old)) }
{
    let timer = declared(header.timers, cursor)?;
    let after = bounded(0, header.limits.time, cursor)?;
    Ok(Act::Expires { timer, after })
}

#[tactic(auto, unfolding(crate::specs::Acts::fields))]
fn expires_at(header: &Header, cursor: &mut Cursor<'_>) -> Result<Act, ScriptFault>
    ensures { Gives (λ x. x) result (tokens_at cursor.new)
        (fields header.now words.ExpiresAt (tokens_at cursor.old)) }
{
    let timer = declared(header.timers, cursor)?;
    let at = bounded(0, header.limits.time, cursor)?;
    Ok(Act::ExpiresAt { timer, at })
}

#[tactic(auto, unfolding(crate::specs::Acts::fields))]
fn wait(header: &Header, cursor: &mut Cursor<'_>) -> Result<Act, ScriptFault>
    ensures { Gives (λ x. x) result (tokens_at cursor.new)
        (fields header.now words.Wait (tokens_at cursor.old)) }
{
    let timer = declared(header.timers, cursor)?;
    let strand = optional(header.strands, cursor)?;
    let (slot, filter) = plug(header, cursor)?;
    let act = Act::Wait {
        timer,
        strand,
        slot,
        filter,
    };
    Ok(act)
}

#[tactic(auto, unfolding(crate::specs::Acts::fields))]
fn emit(header: &Header, cursor: &mut Cursor<'_>) -> Result<Act, ScriptFault>
    ensures { Gives (λ x. x) result (tokens_at cursor.new)
        (fields header.now words.Emit (tokens_at cursor.old)) }
{
    let slot = declared(header.slots, cursor)?;
    let types = types(cursor)?;
    Ok(Act::Emit { slot, types })
}

#[tactic(auto, unfolding(crate::specs::Acts::fields))]
fn read_some(header: &Header, cursor: &mut Cursor<'_>) -> Result<Act, ScriptFault>
    ensures { Gives (λ x. x) result (tokens_at cursor.new)
        (fields header.now words.ReadSome (tokens_at cursor.old)) }
{
    let stream = declared(header.streams, cursor)?;
    let size = size(header.limits.size, cursor)?;
    let strand = optional(header.strands, cursor)?;
    let (slot, filter) = plug(header, cursor)?;
    let act = Act::ReadSome {
        stream,
        size,
        strand,
        slot,
        filter,
    };
    Ok(act)
}

#[tactic(auto, unfolding(crate::specs::Acts::fields))]
fn read_all(header: &Header, cursor: &mut Cursor<'_>) -> Result<Act, ScriptFault>
    ensures { Gives (λ x. x) result (tokens_at cursor.new)
        (fields header.now words.Read (tokens_at cursor.old)) }
{
    let stream = declared(header.streams, cursor)?;
    let size = size(header.limits.size, cursor)?;
    let strand = optional(header.strands, cursor)?;
    let (slot, filter) = plug(header, cursor)?;
    let act = Act::ReadAll {
        stream,
        size,
        strand,
        slot,
        filter,
    };
    Ok(act)
}

#[tactic(auto, unfolding(crate::specs::Acts::fields))]
fn until(alloc: Global, header: &Header, cursor: &mut Cursor<'_>) -> Result<Act, ScriptFault>
    ensures { Gives (λ x. x) result (tokens_at cursor.new)
        (fields header.now words.Until (tokens_at cursor.old)) }
{
    let stream = declared(header.streams, cursor)?;
    let delimiter = bytes(alloc, header.limits.delimiter, cursor)?;
    let max = size(header.limits.size, cursor)?;
    let strand = optional(header.strands, cursor)?;
    let (slot, filter) = plug(header, cursor)?;
    let act = Act::Until {
        stream,
        delimiter,
        max,
        strand,
        slot,
        filter,
    };
    Ok(act)
}

#[tactic(auto, unfolding(crate::specs::Acts::fields))]
fn write_some(alloc: Global, header: &Header, cursor: &mut Cursor<'_>) -> Result<Act, ScriptFault>
    ensures { Gives (λ x. x) result (tokens_at cursor.new)
        (fields header.now words.WriteSome (tokens_at cursor.old)) }
{
    let stream = declared(header.streams, cursor)?;
    let bytes = bytes(alloc, header.limits.size, cursor)?;
    let strand = optional(header.strands, cursor)?;
    let (slot, filter) = plug(header, cursor)?;
    let act = Act::WriteSome {
        stream,
        bytes,
        strand,
        slot,
        filter,
    };
    Ok(act)
}

#[tactic(auto, unfolding(crate::specs::Acts::fields))]
fn write_all(alloc: Global, header: &Header, cursor: &mut Cursor<'_>) -> Result<Act, ScriptFault>
    ensures { Gives (λ x. x) result (tokens_at cursor.new)
        (fields header.now words.Write (tokens_at cursor.old)) }
{
    let stream = declared(header.streams, cursor)?;
    let bytes = bytes(alloc, header.limits.size, cursor)?;
    let strand = optional(header.strands, cursor)?;
    let (slot, filter) = plug(header, cursor)?;
    let act = Act::WriteAll {
        stream,
        bytes,
        strand,
        slot,
        filter,
    };
    Ok(act)
}
