ghost use Rattle.std.specs.Prelude.{◌≡◌, OnOk};
ghost use Rattle.asio_types.specs.Sink.{Extends};
ghost use Rattle.run_names.specs.Names.{name_at};
ghost use Rattle.run_verdict.specs.Text.{IsWritten, against_text, bad_text, illegal_text, name_of, owed_part, owed_text};
ghost use Rattle.run_verdict.specs.Numbered.{numbered};

use crate::against::Against;
use crate::ending::{Ending, Owed};
use crate::naming::write_line_names;
use asio_types::{Failed, Sink, write_all};
use itoa::Buffer;
use run_lines::{BadLine, Line, LineText};
use run_names::Names;
use run_rules::Rule;

/// A number between two texts.
pub(crate) fn write_number<K: Sink>(
    out: &mut K,
    front: &[u8],
    number: u64,
    back: &[u8],
) -> Result<(), Failed>
    ensures { OnOk result (Extends (K.written out.old) (numbered front.now number back.now) (K.written out.new)) }
{
    write_all(out, front)?;
    write_all(out, Buffer::new().format(number).as_bytes())?;
    write_all(out, back)
}

/// The name of a rule.
fn name_of(rule: Rule) -> &'static str
    ensures { result.now ≡ name_of rule }
{
    match rule {
        Rule::New => "New",
        Rule::Single => "Single",
        Rule::Returns => "Returns",
        Rule::Waiting => "Waiting",
        Rule::Asynchronous => "Asynchronous",
        Rule::DoneOnce => "DoneOnce",
        Rule::Outcome => "Outcome",
        Rule::Free => "Free",
        Rule::First => "First",
        Rule::Ready => "Ready",
        Rule::Order => "Order",
        Rule::Stopped => "Stopped",
        Rule::Nested => "Nested",
        Rule::Innermost => "Innermost",
        Rule::Clean => "Clean",
        Rule::Untouched => "Untouched",
        Rule::Unlocked => "Unlocked",
        Rule::Claimed => "Claimed",
        Rule::Locked => "Locked",
        Rule::Marked => "Marked",
        Rule::Finishing => "Finishing",
    }
}

/// What a rule wants.
fn sense_of(rule: Rule) -> &'static str {
    match rule {
        Rule::New => "each operation has a number above those called before",
        Rule::Single => "no other read, and no other write, of this stream is pending",
        Rule::Returns => "this operation is the last call here, and hasn't returned yet",
        Rule::Waiting =>
            "this operation was called, and its handler has neither begun nor been dropped",
        Rule::Asynchronous => "only an asynchronous operation completes by itself",
        Rule::DoneOnce => "an operation completes once",
        Rule::Outcome =>
            "a handler begins with what its operation completed with, and a posting with ok 0",
        Rule::Free =>
            "the strand runs no handler, or this thread runs the one that dispatched this operation",
        Rule::First =>
            "no operation stands in the strand's queue since before this one was submitted",
        Rule::Ready => "an asynchronous operation is done before its handler begins",
        Rule::Order => "this operation is the next one of its strand",
        Rule::Stopped => "the context isn't stopped",
        Rule::Nested => "this thread runs no handler",
        Rule::Innermost => "this is the innermost handler that runs on this thread",
        Rule::Clean => "a handler ends without claims and locks",
        Rule::Untouched => "no other thread has claimed this",
        Rule::Unlocked => "no other thread holds this lock",
        Rule::Claimed => "the handler that runs here has claimed this",
        Rule::Locked => "the handler that runs here holds this lock",
        Rule::Marked => "this mark was made before",
        Rule::Finishing =>
            "drops come when no handler runs, by rising number, and nothing else comes behind them",
    }
}

/// A line on one kind of what is under way, if there is any.
fn write_part<K: Sink>(out: &mut K, number: u64, kind: &[u8]) -> Result<(), Failed>
    ensures { OnOk result (Extends (K.written out.old) (owed_part number kind.now) (K.written out.new)) }
{
    if number == 0 {
        return Ok(());
    }
    write_number(out, b"owed: ", number, kind)
}

fn write_owed<K: Sink>(out: &mut K, owed: &Owed) -> Result<(), Failed>
    ensures { OnOk result (Extends (K.written out.old) (owed_text owed.now) (K.written out.new)) }
{
    write_part(out, owed.waiting as u64, b" operations that wait\n")?;
    write_part(
        out,
        owed.executing as u64,
        b" threads that execute handlers\n",
    )?;
    write_part(out, owed.taken, b" claims and locks\n")
}

fn write_illegal<K: Sink>(
    out: &mut K,
    at: u64,
    rule: Rule,
    line: &Line,
    words: &[u8],
) -> Result<(), Failed>
    ensures { OnOk result (Extends (K.written out.old) (illegal_text at rule line.now words.now) (K.written out.new)) }
{
    write_number(out, b"illegal at line ", at, b": ")?;
    write_all(out, LineText::of(line).as_slice())?;
    write_all(out, b"\nrule: ")?;
    write_all(out, name_of(rule).as_bytes())?;
    write_all(out, b"\nwanted: ")?;
    write_all(out, words)?;
    write_all(out, b"\n")
}

fn write_bad<K: Sink>(out: &mut K, at: u64, bad: BadLine) -> Result<(), Failed>
    ensures { OnOk result (Extends (K.written out.old) (bad_text at bad) (K.written out.new)) }
{
    write_number(out, b"bad run at line ", at, b": ")?;
    write_number(out, b"word ", bad.word as u64, b": expected ")?;
    write_all(out, bad.wants.as_str().as_bytes())?;
    write_all(out, b"\n")
}

/// Writes what came of a run. A fault of reading or of memory has no text here. Takes no memory.
pub fn write_ending<K: Sink>(out: &mut K, ending: &Ending) -> Result<(), Failed>
    ensures { OnOk result (IsWritten ending.now (K.written out.old) (K.written out.new)) }
{
    match ending {
        Ending::Legal => write_all(out, b"legal\n"),
        Ending::SoFar { lines, owed } => {
            write_number(out, b"legal so far, ", *lines, b" lines\n")?;
            write_owed(out, owed)
        }
        Ending::Illegal { at, rule, line } => write_illegal(
            out,
            *at,
            *rule,
            line,
            sense_of(*rule).as_bytes(),
        ),
        Ending::Bad { at, bad } => write_bad(out, *at, *bad),
        Ending::NoHeader => write_all(out, b"bad run at line 1: expected run 1\n"),
        Ending::NoLineFeed { at } => write_number(
            out,
            b"bad run at line ",
            *at,
            b": expected a line feed at its end\n",
        ),
        Ending::TooLong { at } => write_number(
            out,
            b"bad run at line ",
            *at,
            b": expected less than 65536 bytes\n",
        ),
        Ending::ReadFault { .. } | Ending::NoRoom { .. } => Ok(()),
    }
}

/// Writes which line stands against one that breaks a rule, with the names of what it speaks of.
/// Takes no memory.
pub fn write_against<K: Sink>(out: &mut K, names: &Names, against: &Against) -> Result<(), Failed>
    ensures { OnOk result
        (Extends (K.written out.old) (against_text (name_at names.now) against.now) (K.written out.new)) }
{
    write_number(out, b"against: line ", against.at, b": ")?;
    write_all(out, LineText::of(&against.line).as_slice())?;
    write_line_names(out, names, &against.line)?;
    write_all(out, b"\n")
}
