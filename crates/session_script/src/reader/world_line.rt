ghost use Rattle.std.specs.Prelude.{◌≡◌};
ghost use lib.Chars.{codes};
ghost use Rattle.session_script.specs.Tokens.{tokens_at, begins};
ghost use Rattle.session_script.specs.Productions.{one, world_word, what_happens, world_line, next_world_line, repeated, world_lines};
ghost use Rattle.session_script.specs.Outcome.{Gives, Leaves};

use crate::kind::{is, misplaced};
use crate::parts::Header;
use crate::reader::field::{another, bounded, bytes, declared, size};
use crate::refusal::{Rule, ScriptFault};
use crate::token::Cursor;
use asio_types::{Line, What};
use std::alloc::Global;

/// What happens to a stream.
#[derive(Clone, Copy)]
enum WorldWord {
    Feed,
    End,
    Reset,
    Room,
}

/// The word of what happens.
#[tactic(auto, unfolding(crate::specs::Productions::world_word))]
fn world_word(bytes: &[u8]) -> Result<WorldWord, Rule>
    ensures { result ≡ world_word bytes.now }
{
    if is(bytes, b"feed") {
        Ok(WorldWord::Feed)
    } else if is(bytes, b"end") {
        Ok(WorldWord::End)
    } else if is(bytes, b"reset") {
        Ok(WorldWord::Reset)
    } else if is(bytes, b"room") {
        Ok(WorldWord::Room)
    } else {
        Err(misplaced(bytes))
    }
}

/// What happens.
fn happens(cursor: &mut Cursor<'_>) -> Result<WorldWord, ScriptFault>
    ensures { Gives (λ x. x) result (tokens_at cursor.new) (one world_word (tokens_at cursor.old)) }
{
    let token = cursor.take()?;
    token.at.judged(world_word(token.bytes))
}

/// What happens, after its stream.
#[tactic(auto, unfolding(crate::specs::Productions::what_happens))]
fn what(
    alloc: Global,
    header: &Header,
    word: WorldWord,
    cursor: &mut Cursor<'_>,
) -> Result<What, ScriptFault>
    ensures { Gives (λ x. x) result (tokens_at cursor.new)
        (what_happens header.now word (tokens_at cursor.old)) }
{
    match word {
        WorldWord::Feed => {
            let bytes = bytes(alloc, header.limits.size, cursor)?;
            Ok(What::Feed(bytes))
        }
        WorldWord::End => Ok(What::End),
        WorldWord::Reset => Ok(What::Reset),
        WorldWord::Room => {
            let room = size(header.limits.room, cursor)?;
            Ok(What::Room(room))
        }
    }
}

/// One world line.
#[tactic(auto, unfolding(crate::specs::Productions::world_line))]
fn world_line(
    alloc: Global,
    header: &Header,
    full: bool,
    cursor: &mut Cursor<'_>,
) -> Result<Line, ScriptFault>
    ensures { Gives (λ x. x) result (tokens_at cursor.new)
        (world_line header.now full (tokens_at cursor.old)) }
{
    another(b"at", full, cursor)?;
    let time = bounded(0, header.limits.time, cursor)?;
    let word = happens(cursor)?;
    let stream = declared(header.streams, cursor)?;
    let what = what(alloc, header, word, cursor)?;
    Ok(Line { time, stream, what })
}

/// One more world line.
#[tactic(auto, unfolding(crate::specs::Productions::next_world_line))]
fn next_world_line(
    alloc: Global,
    header: &Header,
    lines: &mut Vec<Line>,
    cursor: &mut Cursor<'_>,
) -> Result<(), ScriptFault>
    ensures { Leaves result lines.new.items (tokens_at cursor.new)
        (next_world_line header.now lines.old.items (tokens_at cursor.old)) }
{
    let full = header.limits.lines as usize <= lines.len();
    let next = world_line(alloc, header, full, cursor)?;
    lines.push(next)?;
    Ok(())
}

/// Further world lines.
fn all_world_lines(
    alloc: Global,
    header: &Header,
    lines: &mut Vec<Line>,
    cursor: &mut Cursor<'_>,
) -> Result<(), ScriptFault>
    ensures { Leaves result lines.new.items (tokens_at cursor.new) (repeated (begins (codes "at"))
        (next_world_line header.now) lines.old.items (tokens_at cursor.old)) }
{
    'each_line: while cursor.begins(b"at") {
        next_world_line(alloc, header, lines, cursor)?;
    }
    Ok(())
}

/// The world lines.
#[tactic(auto, unfolding(crate::specs::Productions::world_lines))]
pub(crate) fn world_lines(
    alloc: Global,
    header: &Header,
    cursor: &mut Cursor<'_>,
) -> Result<Vec<Line>, ScriptFault>
    ensures { Gives (λ lines. lines.items) result (tokens_at cursor.new)
        (world_lines header.now (tokens_at cursor.old)) }
{
    let mut lines = Vec::new(alloc);
    all_world_lines(alloc, header, &mut lines, cursor)?;
    Ok(lines)
}
