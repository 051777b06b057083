ghost use Rattle.std.specs.Prelude.{◌≡◌};
ghost use Rattle.session_script.specs.Tokens.{tokens_at};
ghost use Rattle.session_script.specs.Kinds.{pace_word};
ghost use Rattle.session_script.specs.Productions.{one, restart, round, begins_round, next_round, repeated, session_rounds};
ghost use Rattle.session_script.specs.Outcome.{Gives, Leaves};

use crate::kind::{is, misplaced};
use crate::parts::Header;
use crate::reader::field::{another, bounded};
use crate::refusal::{Rule, ScriptFault};
use crate::round::{Pace, Round};
use crate::token::Cursor;
use std::alloc::Global;

/// The word of a pace, while there is room for one more round.
#[tactic(auto, unfolding(crate::specs::Kinds::pace_word))]
fn pace_word(full: bool, bytes: &[u8]) -> Result<Pace, Rule>
    ensures { result ≡ pace_word full bytes.now }
{
    if is(bytes, b"run") {
        if full {
            Err(Rule::Limit)
        } else {
            Ok(Pace::Run)
        }
    } else if is(bytes, b"poll") {
        if full {
            Err(Rule::Limit)
        } else {
            Ok(Pace::Poll)
        }
    } else {
        Err(misplaced(bytes))
    }
}

/// The pace of a round.
fn pace(full: bool, cursor: &mut Cursor<'_>) -> Result<Pace, ScriptFault>
    ensures { Gives (λ x. x) result (tokens_at cursor.new)
        (one (pace_word full) (tokens_at cursor.old)) }
{
    let token = cursor.take()?;
    token.at.judged(pace_word(full, token.bytes))
}

/// Whether the context is restarted, while there is room for one more round.
#[tactic(auto, unfolding(crate::specs::Productions::restart))]
fn restart(full: bool, cursor: &mut Cursor<'_>) -> Result<bool, ScriptFault>
    ensures { Gives (λ x. x) result (tokens_at cursor.new) (restart full (tokens_at cursor.old)) }
{
    if !cursor.begins(b"restart") {
        return Ok(false);
    }
    another(b"restart", full, cursor)?;
    Ok(true)
}

/// One round.
#[tactic(auto, unfolding(crate::specs::Productions::round))]
fn round(header: &Header, full: bool, cursor: &mut Cursor<'_>) -> Result<Round, ScriptFault>
    ensures { Gives (λ x. x) result (tokens_at cursor.new)
        (round header.now full (tokens_at cursor.old)) }
{
    let restart = restart(full, cursor)?;
    let pace = pace(full, cursor)?;
    let workers = bounded(1, header.limits.workers as u64, cursor)?;
    let round = Round {
        restart,
        pace,
        workers: workers as u8,
    };
    Ok(round)
}

/// Whether one more round begins.
#[tactic(auto, unfolding(crate::specs::Productions::begins_round))]
fn begins_round(cursor: &Cursor<'_>) -> bool
    ensures { result ≡ begins_round (tokens_at cursor.now) }
{
    cursor.begins(b"restart") || cursor.begins(b"run") || cursor.begins(b"poll")
}

/// One more round.
#[tactic(auto, unfolding(crate::specs::Productions::next_round))]
fn next_round(
    header: &Header,
    rounds: &mut Vec<Round>,
    cursor: &mut Cursor<'_>,
) -> Result<(), ScriptFault>
    ensures { Leaves result rounds.new.items (tokens_at cursor.new)
        (next_round header.now rounds.old.items (tokens_at cursor.old)) }
{
    let full = header.limits.rounds as usize <= rounds.len();
    let next = round(header, full, cursor)?;
    rounds.push(next)?;
    Ok(())
}

/// The rounds after the first.
fn other_rounds(
    header: &Header,
    rounds: &mut Vec<Round>,
    cursor: &mut Cursor<'_>,
) -> Result<(), ScriptFault>
    ensures { Leaves result rounds.new.items (tokens_at cursor.new)
        (repeated begins_round (next_round header.now) rounds.old.items (tokens_at cursor.old)) }
{
    'each_round: while begins_round(cursor) {
        next_round(header, rounds, cursor)?;
    }
    Ok(())
}

/// The rounds, of which there is one at least.
#[tactic(auto, unfolding(crate::specs::Productions::session_rounds))]
pub(crate) fn rounds(
    alloc: Global,
    header: &Header,
    cursor: &mut Cursor<'_>,
) -> Result<Vec<Round>, ScriptFault>
    ensures { Gives (λ rounds. rounds.items) result (tokens_at cursor.new)
        (session_rounds header.now (tokens_at cursor.old)) }
{
    let mut rounds = Vec::new(alloc);
    let first = round(header, false, cursor)?;
    rounds.push(first)?;
    other_rounds(header, &mut rounds, cursor)?;
    Ok(rounds)
}
