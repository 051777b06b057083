ghost use Rattle.session_script.specs.Tokens.{tokens_at};
ghost use Rattle.session_script.specs.Kinds.{version};
ghost use Rattle.session_script.specs.Productions.{one, count, header};
ghost use Rattle.session_script.specs.Outcome.{Gives};

use crate::kind::version;
use crate::limits::limits_of;
use crate::parts::Header;
use crate::reader::field::{bounded, word};
use crate::refusal::ScriptFault;
use crate::token::Cursor;

/// The version of the script.
fn version_at(cursor: &mut Cursor<'_>) -> Result<u8, ScriptFault>
    ensures { Gives (λ x. x) result (tokens_at cursor.new) (one version (tokens_at cursor.old)) }
{
    let token = cursor.take()?;
    token.at.judged(version(token.bytes))
}

/// How many of something there are: none where its word is missing.
#[tactic(auto, unfolding(crate::specs::Productions::count))]
fn count(text: &[u8], most: u8, cursor: &mut Cursor<'_>) -> Result<u8, ScriptFault>
    ensures { Gives (λ x. x) result (tokens_at cursor.new)
        (count text.now most (tokens_at cursor.old)) }
{
    if !cursor.begins(text) {
        return Ok(0);
    }
    word(text, cursor)?;
    let count = bounded(0, most as u64, cursor)?;
    Ok(count as u8)
}

/// The version, and what is declared.
#[tactic(auto, unfolding(crate::specs::Productions::header))]
pub(crate) fn header(cursor: &mut Cursor<'_>) -> Result<Header, ScriptFault>
    ensures { Gives (λ x. x) result (tokens_at cursor.new) (header (tokens_at cursor.old)) }
{
    word(b"session", cursor)?;
    let version = version_at(cursor)?;
    let limits = limits_of(version);
    let strands = count(b"strands", limits.strands, cursor)?;
    let timers = count(b"timers", limits.timers, cursor)?;
    let slots = count(b"slots", limits.slots, cursor)?;
    let streams = count(b"streams", limits.streams, cursor)?;
    let guards = count(b"guards", limits.guards, cursor)?;
    let header = Header {
        version,
        limits,
        strands,
        timers,
        slots,
        streams,
        guards,
    };
    Ok(header)
}
