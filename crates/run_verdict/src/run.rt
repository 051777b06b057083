ghost use Rattle.std.specs.Prelude.{◌≡◌, ◌+◌, ◌<◌, ◌∷◌, [], ℕ, List, IfNone, IfOk, IfSome, MatchOption, OnErr, Option, Some};
ghost use Rattle.run_lines.specs.declared.line.Line.{Line};
ghost use Rattle.run_rules.specs.declared.level.Level.{Level};
ghost use Rattle.run_verdict.specs.Endings.{CountsFaultsOf, CountsNext, EndsLine, EndsRun, EndsWith, IsOpened, IsReading, IsSaidBy, NextGives, Says, Stops, ended_by};
ghost use Rattle.run_verdict.specs.Judges.{HasJudged};
ghost use Rattle.run_verdict.specs.Search.{BreaksAt, FollowsNext};
ghost use Rattle.run_verdict.specs.declared.judge.Judge.{Judge};

use crate::ending::Ending;
use crate::judge::Judge;
use crate::uses::is;
use asio_types::{NoMemory, Source};
use run_lines::{BadLine, Entry, Line, read_line};
use run_reader::{LineReader, ReadFault};
use run_rules::Level;
use std::alloc::Global;

/// What stands on the next line.
#[derive(Drop)]
pub(crate) enum Next {
    /// What happened.
    Line(Line),
    /// A name.
    Name,
    /// Nothing: the text ends here.
    End,
    /// No line of a run.
    Bad(BadLine),
    /// There is no next line, for this reason.
    Fault(ReadFault),
}

/// What bytes say that are a line without its line feed.
fn said_by(bytes: &[u8]) -> Next
    ensures { IsSaidBy bytes.now result }
{
    match read_line(bytes) {
        Ok(Entry::Line(line)) => Next::Line(line),
        Ok(Entry::Name(_)) => Next::Name,
        Err(bad) => Next::Bad(bad),
    }
}

/// Reads the next line.
pub(crate) fn next_line<S: Source>(reader: &mut LineReader, source: &mut S) -> Next
    ensures gives { NextGives result reader.old.held (S.left source.old) reader.new.held (S.left source.new) }
    ensures counts { CountsNext result (S.faults source.old) (S.faults source.new) }
{
    match reader.advance(source) {
        Ok(more) => {
            if more {
                said_by(reader.line())
            } else {
                Next::End
            }
        }
        Err(fault) => Next::Fault(fault),
    }
}

/// The ending where there is no next line.
fn ending_by(fault: ReadFault, at: u64) -> Ending
    ensures { result ≡ ended_by fault at }
{
    match fault {
        ReadFault::Failed => Ending::ReadFault { at },
        ReadFault::NoLineFeed => Ending::NoLineFeed { at },
        ReadFault::TooLong => Ending::TooLong { at },
    }
}

/// Whether the first line is the header of a run; the ending where it isn't.
pub(crate) fn read_header<S: Source>(reader: &mut LineReader, source: &mut S) -> Option<Ending>
    ensures opens { (text : List ℕ) → S.left source.old ≡ Some text → reader.old.held ≡ [] →
        MatchOption result (IsOpened text reader.new.held (S.left source.new))
        (λ ending. (level : Level) (judge : Judge) → EndsWith level text ending judge) }
    ensures counts { MatchOption result (S.faults source.new ≡ S.faults source.old)
        (λ ending. CountsFaultsOf ending (S.faults source.old) (S.faults source.new)) }
    ensures none { IfSome result (λ ending. (at : ℕ) → BreaksAt at ending) }
{
    match reader.advance(source) {
        Ok(more) => {
            if !more {
                return Some(Ending::NoHeader);
            }
            if is(reader.line(), b"run 1") {
                None
            } else {
                Some(Ending::NoHeader)
            }
        }
        Err(fault) => Some(ending_by(fault, 1)),
    }
}

/// The ending where all lines may come.
fn ending_of(judge: &Judge, lines: u64) -> Ending
    ensures ends { (level : Level) (past : List Line) → HasJudged level past judge.now → EndsRun level past lines result }
    ensures counts { (faults : ℕ) → CountsFaultsOf result faults faults }
    ensures none { (at : ℕ) → BreaksAt at result }
{
    if judge.is_whole() {
        Ending::Legal
    } else {
        Ending::SoFar {
            lines,
            owed: judge.owed(),
        }
    }
}

/// The judgement on a line, if it ends the run.
fn judged(judge: &mut Judge, line: Line, at: u64) -> Option<Ending>
    ensures followed { IfNone result ((level : Level) (past : List Line) → HasJudged level past judge.old
        → HasJudged level (line ∷ past) judge.new) }
    ensures ended { IfSome result (λ ending. (level : Level) (past : List Line) → HasJudged level past judge.old
        → EndsLine level past line at judge.new ending) }
    ensures counts { IfSome result (λ ending. (faults : ℕ) → CountsFaultsOf ending faults faults) }
    ensures here { IfSome result (λ ending. BreaksAt at ending) }
{
    match judge.may_come(&line) {
        Ok(()) => match judge.follow(&line) {
            Ok(()) => None,
            Err(_) => Some(Ending::NoRoom { at }),
        },
        Err(rule) => Some(Ending::Illegal { at, rule, line }),
    }
}

/// Follows what stands on a line, or says how the run ends.
pub(crate) fn follow_next(next: Next, judge: &mut Judge, at: u64) -> Option<Ending>
    requires { 0 < at }
    ensures takes { (level : Level) (text held : List ℕ) (left : Option (List ℕ)) (held_after : List ℕ) (left_after : Option (List ℕ))
        → IsReading level text held left judge.old at → NextGives next held left held_after left_after →
        MatchOption result (IsReading level text held_after left_after judge.new (at + 1))
        (λ ending. EndsWith level text ending judge.new) }
    ensures follows { IfNone result (FollowsNext next judge.old judge.new) }
    ensures counts { (old new : ℕ) → CountsNext next old new →
        MatchOption result (new ≡ old) (λ ending. CountsFaultsOf ending old new) }
    ensures here { IfSome result (λ ending. BreaksAt at ending) }
{
    match next {
        Next::Line(line) => judged(judge, line, at),
        Next::Name => None,
        Next::End => Some(ending_of(judge, at - 1)),
        Next::Bad(bad) => Some(Ending::Bad { at, bad }),
        Next::Fault(fault) => Some(ending_by(fault, at)),
    }
}

/// Reads a line and follows it, or says how the run ends.
fn take_line<S: Source>(
    reader: &mut LineReader,
    judge: &mut Judge,
    source: &mut S,
    at: u64,
) -> Option<Ending>
    requires { 0 < at }
    ensures takes { (level : Level) (text : List ℕ) → IsReading level text reader.old.held (S.left source.old) judge.old at →
        MatchOption result (IsReading level text reader.new.held (S.left source.new) judge.new (at + 1))
        (λ ending. EndsWith level text ending judge.new) }
    ensures counts { MatchOption result (S.faults source.new ≡ S.faults source.old)
        (λ ending. CountsFaultsOf ending (S.faults source.old) (S.faults source.new)) }
{
    let next = next_line(reader, source);
    follow_next(next, judge, at)
}

/// Judges the lines behind the header.
fn take_lines<S: Source>(reader: &mut LineReader, judge: &mut Judge, source: &mut S) -> Ending
    ensures takes { (level : Level) (text : List ℕ) → IsReading level text reader.old.held (S.left source.old) judge.old 2
        → EndsWith level text result judge.new }
    ensures counts { CountsFaultsOf result (S.faults source.old) (S.faults source.new) }
{
    for at in 2..u64::MAX {
        if let Some(ending) = take_line(reader, judge, source, at) {
            return ending;
        }
    }
    Ending::NoRoom { at: u64::MAX }
}

/// Follows the run that a source gives by a reader and a judge, both of them new, as far as it can be
/// read and its lines may come. Where a line breaks a rule, the judge then has followed the lines
/// before it. Takes memory for what is under way.
pub fn take_run<S: Source>(reader: &mut LineReader, judge: &mut Judge, source: &mut S) -> Ending
    ensures says { (level : Level) → HasJudged level [] judge.old → reader.old.held ≡ [] → Says level (S.left source.old) result }
    ensures stops { (level : Level) → HasJudged level [] judge.old → reader.old.held ≡ []
        → Stops level (S.left source.old) result judge.new }
    ensures counts { CountsFaultsOf result (S.faults source.old) (S.faults source.new) }
{
    if let Some(ending) = read_header(reader, source) {
        return ending;
    }
    take_lines(reader, judge, source)
}

/// Judges the run that a source gives at this level, line by line: legal exactly where it is, and
/// otherwise where it ends, or where the first line can't stand, and why. Without the 65,536 bytes
/// for reading the source is not touched.
pub fn judge_run<S: Source>(alloc: Global, level: Level, source: &mut S) -> Result<Ending, NoMemory>
    ensures says { IfOk result (λ ending. Says level (S.left source.old) ending) }
    ensures counts { IfOk result (λ ending. CountsFaultsOf ending (S.faults source.old) (S.faults source.new)) }
    ensures untouched { OnErr result (source.new ≡ source.old) }
{
    let mut reader = LineReader::make(alloc)?;
    let mut judge = Judge::new(alloc, level);
    Ok(take_run(&mut reader, &mut judge, source))
}
