ghost use Rattle.std.specs.Prelude.{◌≡◌};
ghost use Rattle.std.specs.List.{list_any};
ghost use Rattle.session_script.specs.Tokens.{tokens_at};
ghost use Rattle.session_script.specs.Grammar.{releases, are_released, ends, script};
ghost use Rattle.session_script.specs.Outcome.{Gives, entries_of, model_of};

use crate::act::Act;
use crate::kind::misplaced;
use crate::parts::{PlacedAct, ScriptParts};
use crate::reader::body::body;
use crate::reader::field::word;
use crate::reader::header::header;
use crate::reader::round::rounds;
use crate::reader::world_line::world_lines;
use crate::refusal::{Rule, ScriptFault};
use crate::token::Cursor;
use asio_types::{GuardNo, Lines, World};
use std::alloc::Global;

/// Whether an act releases a guard.
fn releases(guard: GuardNo, act: &Act) -> bool
    ensures { result ≡ releases guard act.now }
{
    match act {
        Act::Release { guard: released } => *released == guard,
        _ => false,
    }
}

/// Whether some act releases a guard.
fn is_released(guard: GuardNo, entries: &[PlacedAct]) -> bool
    ensures { result ≡ list_any (λ entry. releases guard entry.act) entries.now }
{
    entries.iter().any(|entry| releases(guard, &entry.act))
}

/// Whether each of the guards is released by some act.
fn are_released(guards: u8, entries: &[PlacedAct]) -> bool
    ensures { result ≡ are_released guards (entries_of entries.now) }
{
    for guard in 0..guards {
        if !is_released(guard, entries) {
            return false;
        }
    }
    true
}

/// The end of the text, where all guards are released.
#[tactic(auto, unfolding(crate::specs::Tokens::tokens_at))]
fn end(guards: u8, entries: &[PlacedAct], cursor: &Cursor<'_>) -> Result<(), ScriptFault>
    ensures { Gives (λ x. x) result (tokens_at cursor.now)
        (ends guards (entries_of entries.now) (tokens_at cursor.now)) }
{
    match cursor.next {
        Some(token) => Err(token.at.refused(misplaced(token.bytes))),
        None => {
            if are_released(guards, entries) {
                Ok(())
            } else {
                Err(cursor.missing(Rule::Guard))
            }
        }
    }
}

/// A whole script.
#[tactic(auto, unfolding(crate::specs::Grammar::script, crate::specs::Outcome::model_of))]
pub(crate) fn script(alloc: Global, cursor: &mut Cursor<'_>) -> Result<ScriptParts, ScriptFault>
    ensures { Gives model_of result (tokens_at cursor.new) (script (tokens_at cursor.old)) }
{
    let header = header(cursor)?;
    let lines = world_lines(alloc, &header, cursor)?;
    word(b"open", cursor)?;
    let mut acts = Vec::new(alloc);
    body(
        alloc,
        &header,
        header.limits.nesting,
        None,
        &mut acts,
        cursor,
    )?;
    let rounds = rounds(alloc, &header, cursor)?;
    end(header.guards, acts.as_slice(), cursor)?;
    Ok(ScriptParts {
        version: header.version,
        strands: header.strands,
        timers: header.timers,
        slots: header.slots,
        guards: header.guards,
        acts,
        world: World {
            streams: header.streams,
            lines: Lines::of(lines),
        },
        rounds,
    })
}
