ghost use Rattle.std.specs.Prelude.{◌<◌, ◌-◌, ◌^◌, nat_le, Some, OnOk};
ghost use lib.Chars.{codes};
ghost use Rattle.session_script.specs.Tokens.{tokens_at, goes_on};
ghost use Rattle.session_script.specs.Productions.{one, repeated};
ghost use Rattle.session_script.specs.Acts.{act_word, branch, branches, body, entry};
ghost use Rattle.session_script.specs.Outcome.{Gives, Leaves, entries_of};

use crate::act::{Bodies, bodies_of};
use crate::parts::{Header, PlacedAct};
use crate::reader::act::act;
use crate::reader::act_word::{ActWord, act_word};
use crate::reader::field::{another, word};
use crate::refusal::ScriptFault;
use crate::token::Cursor;
use asio_types::{Class, OpNo};
use std::alloc::Global;

/// The word that begins an act, after so many acts.
fn first_word(
    header: &Header,
    count: usize,
    cursor: &mut Cursor<'_>,
) -> Result<ActWord, ScriptFault>
    ensures value { Gives (λ x. x) result (tokens_at cursor.new) (one
        (act_word header.now.version (nat_le header.now.limits.acts count))
        (tokens_at cursor.old)) }
    ensures room { OnOk result (count < 2 ^ 32) }
{
    let token = cursor.take()?;
    let full = header.limits.acts as usize <= count;
    token.at.judged(act_word(header.version, full, token.bytes))
}

/// A body in braces: its acts are appended. So many levels are left, this one among them.
#[cycle(bodies)]
#[tactic(auto, unfolding(crate::specs::Acts::braced))]
pub(crate) fn body(
    alloc: Global,
    header: &Header,
    levels: u32,
    parent: Option<(OpNo, Class)>,
    entries: &mut Vec<PlacedAct>,
    cursor: &mut Cursor<'_>,
) -> Result<(), ScriptFault>
    ensures { Leaves result (entries_of entries.new.items) (tokens_at cursor.new)
        (body header.now levels parent (entries_of entries.old.items) (tokens_at cursor.old)) }
{
    another(b"{", levels == 0, cursor)?;
    acts(alloc, header, levels, parent, entries, cursor)?;
    word(b"}", cursor)?;
    Ok(())
}

/// The acts up to the end of a body.
#[cycle(bodies)]
fn acts(
    alloc: Global,
    header: &Header,
    levels: u32,
    parent: Option<(OpNo, Class)>,
    entries: &mut Vec<PlacedAct>,
    cursor: &mut Cursor<'_>,
) -> Result<(), ScriptFault>
    requires { 0 < levels }
    ensures { Leaves result (entries_of entries.new.items) (tokens_at cursor.new)
        (repeated (goes_on (codes "}")) (entry header.now (body header.now (levels - 1)) parent)
        (entries_of entries.old.items) (tokens_at cursor.old)) }
{
    'each_act: while cursor.goes_on(b"}") {
        entry(alloc, header, levels, parent, entries, cursor)?;
    }
    Ok(())
}

/// One act with its bodies.
#[cycle(bodies)]
#[tactic(auto, unfolding(crate::specs::Acts::entry))]
fn entry(
    alloc: Global,
    header: &Header,
    levels: u32,
    parent: Option<(OpNo, Class)>,
    entries: &mut Vec<PlacedAct>,
    cursor: &mut Cursor<'_>,
) -> Result<(), ScriptFault>
    requires { 0 < levels }
    ensures { Leaves result (entries_of entries.new.items) (tokens_at cursor.new)
        (entry header.now (body header.now (levels - 1)) parent (entries_of entries.old.items)
        (tokens_at cursor.old)) }
{
    let op = entries.len();
    let word = first_word(header, op, cursor)?;
    let act = act(alloc, header, word, cursor)?;
    let bodies = bodies_of(&act);
    entries.push(PlacedAct { act, parent })?;
    match bodies {
        Bodies::Nothing => Ok(()),
        Bodies::Posting => body(
            alloc,
            header,
            levels - 1,
            Some((op as u32, Class::Ok)),
            entries,
            cursor,
        ),
        Bodies::Operation => branches(alloc, header, levels, op as u32, entries, cursor),
    }
}

/// The bodies of an asynchronous operation.
#[cycle(bodies)]
#[tactic(auto, unfolding(crate::specs::Acts::branches))]
fn branches(
    alloc: Global,
    header: &Header,
    levels: u32,
    op: OpNo,
    entries: &mut Vec<PlacedAct>,
    cursor: &mut Cursor<'_>,
) -> Result<(), ScriptFault>
    requires { 0 < levels }
    ensures { Leaves result (entries_of entries.new.items) (tokens_at cursor.new)
        (branches (body header.now (levels - 1)) op (entries_of entries.old.items)
        (tokens_at cursor.old)) }
{
    body(
        alloc,
        header,
        levels - 1,
        Some((op, Class::Ok)),
        entries,
        cursor,
    )?;
    branch(
        alloc,
        header,
        levels,
        b"abort",
        (op, Class::Abort),
        entries,
        cursor,
    )?;
    branch(
        alloc,
        header,
        levels,
        b"other",
        (op, Class::Other),
        entries,
        cursor,
    )?;
    Ok(())
}

/// A body after its word, if the word is there.
#[cycle(bodies)]
#[tactic(auto, unfolding(crate::specs::Acts::branch))]
fn branch(
    alloc: Global,
    header: &Header,
    levels: u32,
    text: &[u8],
    parent: (OpNo, Class),
    entries: &mut Vec<PlacedAct>,
    cursor: &mut Cursor<'_>,
) -> Result<(), ScriptFault>
    requires { 0 < levels }
    ensures { Leaves result (entries_of entries.new.items) (tokens_at cursor.new)
        (branch text.now (body header.now (levels - 1)) (Some parent) (entries_of entries.old.items)
        (tokens_at cursor.old)) }
{
    if !cursor.begins(text) {
        return Ok(());
    }
    word(text, cursor)?;
    body(alloc, header, levels - 1, Some(parent), entries, cursor)
}
