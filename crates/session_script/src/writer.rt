ghost use Rattle.std.specs.Prelude.{◌≡◌, ◌≤◌, ℕ, List, length, vec_len, OnOk, IfOk};
ghost use Rattle.session_script.specs.Grammar.{IsScript};
ghost use Rattle.std.specs.List.{flat_map};
ghost use Rattle.session_script.specs.Spelling.{written, count_words, declared_words, line_words, round_words, what_words, words_after_session, spelling_of};

mod act;
mod body;
mod word;

use crate::limits::limits_of;
use crate::round::{Pace, Round};
use crate::script::Script;
use crate::writer::body::body;
use crate::writer::word::{data, number, word};
use asio_types::{Line, NoMemory, StreamNo, What};
use std::alloc::Global;

/// A declaration, unless it is 0.
fn count(text: &[u8], n: u8, out: &mut Vec<u8>) -> Result<(), NoMemory>
    ensures { OnOk result (out.new.items ≡ written out.old.items (count_words text.now n)) }
{
    if n == 0 {
        return Ok(());
    }
    word(text, out)?;
    number(n as u64, out)
}

/// All declarations.
fn declarations(script: &Script, out: &mut Vec<u8>) -> Result<(), NoMemory>
    ensures { OnOk result (out.new.items ≡ written out.old.items (declared_words script.now)) }
{
    count(b"strands", script.strands(), out)?;
    count(b"timers", script.timers(), out)?;
    count(b"slots", script.slots(), out)?;
    count(b"streams", script.world().streams, out)?;
    count(b"guards", script.guards(), out)
}

/// What happens to a stream.
fn what(stream: StreamNo, what: &What, out: &mut Vec<u8>) -> Result<(), NoMemory>
    ensures { OnOk result (out.new.items ≡ written out.old.items (what_words stream what.now)) }
{
    match what {
        What::Feed(bytes) => {
            word(b"feed", out)?;
            number(stream as u64, out)?;
            data(bytes.as_slice(), out)
        }
        What::End => {
            word(b"end", out)?;
            number(stream as u64, out)
        }
        What::Reset => {
            word(b"reset", out)?;
            number(stream as u64, out)
        }
        What::Room(room) => {
            word(b"room", out)?;
            number(stream as u64, out)?;
            number(*room as u64, out)
        }
    }
}

/// One world line.
fn line(line: &Line, out: &mut Vec<u8>) -> Result<(), NoMemory>
    ensures { OnOk result (out.new.items ≡ written out.old.items (line_words line.now)) }
{
    word(b"at", out)?;
    number(line.time, out)?;
    what(line.stream, &line.what, out)
}

/// The world lines.
fn lines(lines: &[Line], out: &mut Vec<u8>) -> Result<(), NoMemory>
    ensures { OnOk result (out.new.items ≡ written out.old.items (flat_map line_words lines.now)) }
{
    for next in lines {
        line(next, out)?;
    }
    Ok(())
}

/// One round.
fn round(round: &Round, out: &mut Vec<u8>) -> Result<(), NoMemory>
    ensures { OnOk result (out.new.items ≡ written out.old.items (round_words round.now)) }
{
    if round.restart {
        word(b"restart", out)?;
    }
    match round.pace {
        Pace::Run => word(b"run", out)?,
        Pace::Poll => word(b"poll", out)?,
    }
    number(round.workers as u64, out)
}

/// The rounds.
fn rounds(rounds: &[Round], out: &mut Vec<u8>) -> Result<(), NoMemory>
    ensures { OnOk result
        (out.new.items ≡ written out.old.items (flat_map round_words rounds.now)) }
{
    for next in rounds {
        round(next, out)?;
    }
    Ok(())
}

/// All words of a script but the first.
#[tactic(auto, unfolding(crate::specs::Spelling::words_after_session))]
fn after_session(script: &Script, out: &mut Vec<u8>) -> Result<(), NoMemory>
    ensures { OnOk result (out.new.items ≡ written out.old.items (words_after_session script.now)) }
{
    let version = script.version();
    number(version as u64, out)?;
    declarations(script, out)?;
    lines(script.world().lines.as_slice(), out)?;
    word(b"open", out)?;
    body(script, limits_of(version).nesting, script.opening(), out)?;
    rounds(script.rounds(), out)
}

/// The text of a script: its words with one space between two, where a declaration of 0, an empty
/// `abort` or `other` body and an `only` of all types are left out. Takes time and memory in
/// proportion to the text.
#[tactic(auto, unfolding(crate::specs::Spelling::spelling_of))]
pub fn write_script(alloc: Global, script: &Script) -> Result<Vec<u8>, NoMemory>
    ensures text { IfOk result (λ text. text.items ≡ spelling_of script.now) }
    // Reading it gives the same script.
    ensures reads_back { IfOk result (λ text. IsScript text.items script.now) }
    // No text of the script is shorter.
    ensures shortest { (bytes : List ℕ) → IsScript bytes script.now →
        IfOk result (λ text. vec_len text ≤ length bytes) }
{
    script.reads_back();
    let mut out = Vec::from_slice(alloc, b"session")?;
    after_session(script, &mut out)?;
    Ok(out)
}
