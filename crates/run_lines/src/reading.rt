ghost use Rattle.std.specs.Prelude.{◌≡◌, IfOk, IfErr, MatchResult};
ghost use Rattle.run_lines.specs.Entry.{IsEntryText, PlainEntry, line, plain};
ghost use Rattle.run_lines.specs.BadLine.{IsBadLine};
ghost use Rattle.run_lines.specs.Reading.{Agrees, entry_in, line_in, name_in, plain_name, words_left};
ghost use Rattle.run_lines.specs.Words.{words_of};

use crate::bad_line::{BadLine, Wants};
use crate::doing::doing_of;
use crate::entry::Entry;
use crate::letters::is;
use crate::line::Line;
use crate::name::Name;
use crate::number::number_of;
use crate::words::Words;

/// What stands behind the word `name`.
#[tactic(auto, unfolding(crate::specs::Reading::name_in))]
fn name_of<'a>(words: &mut Words<'a>) -> Result<Name<'a>, BadLine>
    ensures { Agrees plain_name result (name_in (words_left words.old)) }
{
    let kind = words.kind(2)?;
    let number = words.number(3)?;
    let text = words.text(4)?;
    Ok(Name { kind, number, text })
}

/// What stands behind the number of a thread.
#[tactic(auto, unfolding(crate::specs::Reading::line_in))]
fn line_of(thread: u64, words: &mut Words<'_>) -> Result<Line, BadLine>
    ensures { Agrees line result (line_in thread (words_left words.old)) }
{
    let verb = words.verb(2)?;
    let does = doing_of(verb, words)?;
    Ok(Line { thread, does })
}

/// What a line says, or the first word that can't stand where it does.
#[tactic(auto, unfolding(crate::specs::Reading::entry_in))]
fn entry_of(line: &[u8]) -> Result<Entry<'_>, BadLine>
    ensures { Agrees plain result (entry_in (words_of line.now)) }
{
    let wrong = BadLine {
        word: 1,
        wants: Wants::Thread,
    };
    let mut words = Words::of(line);
    let first = words.take().ok_or(wrong)?;
    if is(first, b"name") {
        let name = name_of(&mut words)?;
        return Ok(Entry::Name(name));
    }
    let thread = number_of(first).ok_or(wrong)?;
    let line = line_of(thread, &mut words)?;
    Ok(Entry::Line(line))
}

/// What a line says, which comes without the line feed at its end. Takes no memory, and looks at
/// each byte a few times.
pub fn read_line(line: &[u8]) -> Result<Entry<'_>, BadLine>
    // What is read has this text.
    ensures read { IfOk result (λ entry. IsEntryText line.now (plain entry)) }
    // What has this text is read.
    ensures only { (entry : PlainEntry) → IsEntryText line.now entry →
        MatchResult result (λ found. plain found ≡ entry) (λ _. ⊥) }
    // Where no entry has it, this word is the first that can't stand where it does.
    ensures bad { IfErr result (IsBadLine (words_of line.now)) }
{
    entry_of(line)
}
