ghost use Rattle.std.specs.Prelude.{◌≡◌, ℕ, List, ◌+◌, ◌<◌, ◌^◌, ◌↔◌, length, IfOk, IfErr};
ghost use Rattle.std.specs.List.{prefix_len};
ghost use Rattle.session_script.specs.Script.{ScriptModel};
ghost use Rattle.session_script.specs.Tokens.{tokens_of, end_of};
ghost use Rattle.session_script.specs.Productions.{refused};
ghost use Rattle.session_script.specs.Grammar.{is_text, reading, IsScript, first_fault};
ghost use Rattle.session_script.specs.Spelled.{SpellsScript};
ghost use Rattle.session_script.specs.Outcome.{Agrees, Names, model_of};

mod act;
mod act_word;
mod body;
mod field;
mod header;
mod round;
mod script;
mod world_line;

use crate::limits::MOST_BYTES;
use crate::parts::ScriptParts;
use crate::reader::script::script;
use crate::refusal::{Refusal, Rule, ScriptFault};
use crate::scan::{is_printable, tokens};
use std::alloc::Global;

/// Whether a byte may stand in a script: printable ASCII, a space, TAB, LF or CR.
#[tactic(auto, unfolding(crate::specs::Grammar::is_text))]
fn is_text(byte: u8) -> bool
    ensures { result ≡ is_text byte }
{
    is_printable(byte) || byte == b' ' || byte == b'\t' || byte == b'\n' || byte == b'\r'
}

/// How many bytes at the front are text.
fn text_len(bytes: &[u8]) -> usize
    ensures { result ≡ prefix_len is_text bytes.now }
{
    let mut count = 0;
    while count < bytes.len() && is_text(bytes[count]) {
        count += 1;
    }
    count
}

/// The refusal of a text for the byte that follows.
fn not_text(front: &[u8]) -> ScriptFault
    requires { length front.now + 1 < 2 ^ 32 }
    ensures { result ≡ ScriptFault.Refused (refused Rule.NotText (end_of (tokens_of front.now))) }
{
    let mut cursor = tokens(front);
    cursor.skip_all();
    cursor.missing(Rule::NotText)
}

/// What the bytes say.
#[tactic(auto, unfolding(crate::specs::Grammar::reading))]
fn read_text(alloc: Global, bytes: &[u8]) -> Result<ScriptParts, ScriptFault>
    ensures { Agrees model_of result (reading bytes.now) }
{
    if bytes.len() > MOST_BYTES {
        return Err(ScriptFault::Refused(Refusal {
            rule: Rule::TooLong,
            line: 0,
            token: 0,
        }));
    }
    let count = text_len(bytes);
    if count < bytes.len() {
        return Err(not_text(&bytes[..count]));
    }
    script(alloc, &mut tokens(bytes))
}

/// The script that the bytes spell, or their first fault.
pub(crate) fn read_parts(alloc: Global, bytes: &[u8]) -> Result<ScriptParts, ScriptFault>
    // What is read is a script of this text.
    ensures script { IfOk result (λ parts. IsScript bytes.now (model_of parts)) }
    // What is refused has this fault.
    ensures refused { IfErr result (λ fault. Names fault (first_fault bytes.now)) }
{
    read_text(alloc, bytes)
}

/// A text is read as a script exactly where the grammar as it is written spells that script, within
/// the limits.
pub fn scripts_are_spelled()
    ensures { (bytes : List ℕ) (script : ScriptModel) →
        IsScript bytes script ↔ SpellsScript bytes script }
{}
