ghost use Rattle.std.specs.Prelude.{◌≡◌, ◌≤◌, [], ℕ, IfErr, List, MatchResult, Some};
ghost use Rattle.run_lines.specs.declared.line.Line.{Line};
ghost use Rattle.run_rules.specs.declared.level.Level.{Level};
ghost use Rattle.run_rules.specs.Against.{StandsAgainst};
ghost use Rattle.run_rules.specs.Breaks.{BreaksRule};
ghost use Rattle.run_verdict.specs.Endings.{CountsFaultsOf, SaysOf, StopsAt};
ghost use Rattle.run_verdict.specs.Judges.{HasJudged};
ghost use Rattle.run_verdict.specs.Search.{Chooses, Confronts, EndsBefore, FindsAgainst, IsEarly, IsSearching, Looks};

use crate::against::{Against, stands_against};
use crate::ending::Ending;
use crate::judge::Judge;
use crate::run::{Next, follow_next, next_line, read_header};
use asio_types::Source;
use run_lines::Line;
use run_reader::LineReader;
use run_rules::Rule;

/// A line that breaks a rule, and its number.
#[derive(Clone, Copy)]
struct Breach {
    at: u64,
    rule: Rule,
    line: Line,
}

/// This line, with its number, if it stands against the other one; else what was found before.
fn choose(
    judge: &Judge,
    again: &Judge,
    breach: &Breach,
    line: Line,
    at: u64,
    found: Option<Against>,
) -> Option<Against>
    ensures { (level : Level) (past before : List Line)
        → Confronts level past breach.now.line breach.now.rule judge.now before line again.now
        → Chooses (StandsAgainst past breach.now.line breach.now.rule before line) line at found result }
{
    if stands_against(judge, again, &breach.line, breach.rule, &line) {
        Some(Against { at, line })
    } else {
        found
    }
}

/// Looks at what stands on a line, before it is followed.
fn look(
    judge: &Judge,
    again: &Judge,
    breach: &Breach,
    next: &Next,
    at: u64,
    found: Option<Against>,
) -> Option<Against>
    ensures { Looks breach.now.line breach.now.rule judge.now again.now next.now at found result }
{
    match next {
        Next::Line(line) => choose(judge, again, breach, *line, at, found),
        _ => found,
    }
}

/// Goes over the lines before the one that breaks a rule.
fn search_lines<S: Source>(
    reader: &mut LineReader,
    judge: &Judge,
    again: &mut Judge,
    breach: &Breach,
    source: &mut S,
) -> Result<Option<Against>, Ending>
    ensures found { (level : Level) (text : List ℕ) (past : List Line) → HasJudged level past judge.now
        → BreaksRule level past breach.now.line breach.now.rule
        → IsSearching level text past breach.now.line breach.now.rule reader.old.held (S.left source.old) again.old 2 None
        → 2 ≤ breach.now.at
        → MatchResult result
        (λ found. IsSearching level text past breach.now.line breach.now.rule reader.new.held (S.left source.new) again.new breach.now.at found)
        (λ other. SaysOf level text other) }
    ensures early { IfErr result (λ other. IsEarly other breach.now.at) }
    ensures counts { MatchResult result (λ _. S.faults source.new ≡ S.faults source.old)
        (λ other. CountsFaultsOf other (S.faults source.old) (S.faults source.new)) }
{
    let mut found: Option<Against> = None;
    for at in 2..breach.at {
        let next = next_line(reader, source);
        found = look(judge, again, breach, &next, at, found);
        if let Some(ending) = follow_next(next, again, at) {
            return Err(ending);
        }
    }
    Ok(found)
}

/// Reads a run again, up to the line that breaks a rule.
fn search<S: Source>(
    reader: &mut LineReader,
    judge: &Judge,
    again: &mut Judge,
    breach: &Breach,
    source: &mut S,
) -> Result<Option<Against>, Ending>
    ensures found { (level : Level) (text : List ℕ) (past : List Line) → S.left source.old ≡ Some text → reader.old.held ≡ []
        → HasJudged level [] again.old → HasJudged level past judge.now → BreaksRule level past breach.now.line breach.now.rule
        → 2 ≤ breach.now.at
        → MatchResult result
        (λ found. IsSearching level text past breach.now.line breach.now.rule reader.new.held (S.left source.new) again.new breach.now.at found)
        (λ other. SaysOf level text other) }
    ensures early { IfErr result (λ other. IsEarly other breach.now.at) }
    ensures counts { MatchResult result (λ _. S.faults source.new ≡ S.faults source.old)
        (λ other. CountsFaultsOf other (S.faults source.old) (S.faults source.new)) }
{
    if let Some(ending) = read_header(reader, source) {
        return Err(ending);
    }
    search_lines(reader, judge, again, breach, source)
}

/// Where a run was found illegal, by this judge, the last line that stands against the one that breaks
/// a rule, if there is one, found in the same run read again by a new reader and a new judge. Where
/// that can't be read or followed so far, or is no longer the same run, the ending of that reading.
pub fn find_against<S: Source>(
    reader: &mut LineReader,
    judge: &Judge,
    again: &mut Judge,
    ending: &Ending,
    source: &mut S,
) -> Result<Option<Against>, Ending>
    ensures found { (level : Level) (text : List ℕ) → S.left source.old ≡ Some text → reader.old.held ≡ []
        → HasJudged level [] again.old → StopsAt level text ending.now judge.now
        → MatchResult result (λ found. FindsAgainst level text ending.now found) (λ other. SaysOf level text other) }
    ensures early { IfErr result (λ other. EndsBefore ending.now other) }
    ensures counts { MatchResult result (λ _. S.faults source.new ≡ S.faults source.old)
        (λ other. CountsFaultsOf other (S.faults source.old) (S.faults source.new)) }
{
    match *ending {
        Ending::Illegal { at, rule, line } => search(
            reader,
            judge,
            again,
            &Breach { at, rule, line },
            source,
        ),
        _ => Ok(None),
    }
}
