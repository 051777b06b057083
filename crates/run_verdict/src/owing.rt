ghost use Rattle.std.specs.Prelude.{◌≡◌, ◌≤◌, ◌+◌, [], ℕ, IfOk, List, OnOk, Some, if◌then◌else◌, is_some};
ghost use Rattle.asio_types.specs.Sink.{Extends};
ghost use Rattle.run_check.specs.After.{waiter_of};
ghost use Rattle.run_lines.specs.declared.line.Line.{Line};
ghost use Rattle.run_lines.specs.Entry.{PlainEntry};
ghost use Rattle.run_rules.specs.declared.level.Level.{Level};
ghost use Rattle.run_rules.specs.Stacks.{frame};
ghost use Rattle.run_rules.specs.Takings.{is_taken_by};
ghost use Rattle.run_verdict.specs.Endings.{BeginsWith, past_of};
ghost use Rattle.run_verdict.specs.Judges.{HasJudged};
ghost use Rattle.run_names.specs.Names.{name_at};
ghost use Rattle.run_verdict.specs.Owing.{IsTelling, Tells, is_owed, owed_line, owed_lines};

use crate::ending::Ending;
use crate::judge::Judge;
use crate::naming::write_line_names;
use crate::run::{Next, follow_next, next_line, read_header};
use crate::text::write_number;
use asio_types::{Failed, Sink, Source, write_all};
use run_check::Outcome;
use run_lines::{Code, Doing, Line, LineText};
use run_names::Names;
use run_reader::LineReader;
use run_rules::Resource;

/// What is under way isn't told of: a write failed, or the run can't be read again so far.
#[derive(Clone, Copy)]
pub enum NotTold {
    Unwritten,
    /// What came of the second reading.
    Unread { ending: Ending },
}

impl From<Failed> for NotTold {
    fn from(_error: Failed) -> NotTold {
        NotTold::Unwritten
    }
}

/// Whether the frame that writes the next line of this thread, for the second judge, has taken this,
/// and not given it back where the first judge stands.
fn has_kept(judge: &Judge, again: &Judge, thread: u64, resource: Resource) -> bool
    ensures { (level : Level) (past earlier : List Line) → HasJudged level past judge.now → HasJudged level earlier again.now
        → result ≡ is_taken_by past thread (frame earlier thread) resource }
{
    let frame = again.checker().frame(thread);
    judge.checker().is_taken_by(thread, frame, resource)
}

/// Whether an operation waits.
fn waits(judge: &Judge, op: u64) -> bool
    ensures { (level : Level) (past : List Line) → HasJudged level past judge.now → result ≡ is_some (waiter_of past op) }
{
    // the borrow checker's plan has to be told of the types within
    let _outcome: Option<Outcome> = None;
    let _code: Option<Code> = None;
    judge.checker().waiter(op).is_some()
}

/// Whether a line, the next one for the second judge, tells of something that is under way where the
/// first judge stands.
fn is_owed(judge: &Judge, again: &Judge, line: &Line) -> bool
    ensures { (level : Level) (past earlier : List Line) → HasJudged level past judge.now → HasJudged level earlier again.now
        → result ≡ is_owed past earlier line.now.thread line.now.does }
{
    let thread = line.thread;
    match line.does {
        Doing::Call { op, .. } => waits(judge, op),
        Doing::Begin { op, .. } => judge.checker().is_executing(op),
        Doing::Claim { thing } => has_kept(judge, again, thread, Resource::Thing { thing }),
        Doing::Lock { lock } => has_kept(judge, again, thread, Resource::Lock { lock }),
        _ => false,
    }
}

/// Writes a line that tells of something that is under way, its number and its names.
fn write_owed_line<K: Sink>(out: &mut K, names: &Names, at: u64, line: &Line) -> Result<(), Failed>
    ensures { OnOk result (Extends (K.written out.old) (owed_line (name_at names.now) at line.now) (K.written out.new)) }
{
    write_number(out, b"owed: line ", at, b": ")?;
    write_all(out, LineText::of(line).as_slice())?;
    write_line_names(out, names, line)?;
    write_all(out, b"\n")
}

/// Writes a line, if this is asked for.
fn write_if<K: Sink>(
    out: &mut K,
    names: &Names,
    asked: bool,
    at: u64,
    line: &Line,
) -> Result<(), Failed>
    ensures { OnOk result
        (Extends (K.written out.old) (if asked then owed_line (name_at names.now) at line.now else []) (K.written out.new)) }
{
    if asked {
        write_owed_line(out, names, at, line)
    } else {
        Ok(())
    }
}

/// Tells of what stands on a line, before it is followed.
fn tell<K: Sink>(
    judge: &Judge,
    again: &Judge,
    next: &Next,
    at: u64,
    names: &Names,
    out: &mut K,
) -> Result<(), Failed>
    ensures { OnOk result (Tells (name_at names.now) judge.now again.now next.now at (K.written out.old) (K.written out.new)) }
{
    match next {
        Next::Line(line) => write_if(out, names, is_owed(judge, again, line), at, line),
        _ => Ok(()),
    }
}

/// Tells of the lines up to the end of a run.
fn tell_lines<S: Source, K: Sink>(
    reader: &mut LineReader,
    judge: &Judge,
    again: &mut Judge,
    source: &mut S,
    end: u64,
    names: &Names,
    out: &mut K,
) -> Result<(), NotTold>
    ensures { IfOk result (λ _. (level : Level) (text : List ℕ) (past : List Line) → HasJudged level past judge.now
        → IsTelling (name_at names.now) level text past reader.old.held (S.left source.old) again.old 2 (K.written out.old) (K.written out.old)
        → 2 ≤ end
        → IsTelling (name_at names.now) level text past reader.new.held (S.left source.new) again.new end (K.written out.old) (K.written out.new)) }
{
    for at in 2..end {
        let next = next_line(reader, source);
        tell(judge, again, &next, at, names, out)?;
        if let Some(ending) = follow_next(next, again, at) {
            return Err(NotTold::Unread { ending });
        }
    }
    Ok(())
}

/// Writes the lines of a run that tell of what is under way at its end, each with its number and the names of what
/// it speaks of: the calls of
/// operations that wait, the begins of handlers that execute, and what was claimed or locked and isn't given back. The first judge
/// has followed so many lines of the run, which is read again by a new reader and a new judge.
pub fn write_owed_lines<S: Source, K: Sink>(
    reader: &mut LineReader,
    judge: &Judge,
    again: &mut Judge,
    source: &mut S,
    lines: u64,
    names: &Names,
    out: &mut K,
) -> Result<(), NotTold>
    ensures { IfOk result (λ _. (level : Level) (text : List ℕ) (entries : List PlainEntry) → S.left source.old ≡ Some text
        → reader.old.held ≡ [] → HasJudged level [] again.old → BeginsWith level text entries [] (lines + 1)
        → HasJudged level (past_of entries) judge.now
        → Extends (K.written out.old) (owed_lines (name_at names.now) (past_of entries) entries) (K.written out.new)) }
{
    let Some(end) = lines.checked_add(1) else {
        let ending = Ending::NoRoom { at: lines };
        return Err(NotTold::Unread { ending });
    };
    if let Some(ending) = read_header(reader, source) {
        return Err(NotTold::Unread { ending });
    }
    tell_lines(reader, judge, again, source, end, names, out)
}
