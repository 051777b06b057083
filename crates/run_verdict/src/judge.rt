ghost use Rattle.std.specs.Prelude.{◌≡◌, ◌↔◌, ℕ, [], ◌∷◌, length, IfOk, IsTrue, List, MatchResult, Some};
ghost use Rattle.run_lines.specs.declared.line.Line.{Line};
ghost use Rattle.run_rules.specs.declared.level.Level.{Level};
ghost use Rattle.run_rules.specs.Against.{IsPending};
ghost use Rattle.run_rules.specs.Breaks.{BreaksRule};
ghost use Rattle.run_rules.specs.Legal.{IsWhole};
ghost use Rattle.run_rules.specs.declared.rule.Rule.TheVariants as rule;
ghost use Rattle.run_rules.specs.MayCome.{MayCome, MayDo};
ghost use Rattle.run_rules.specs.Strict.{IsStrict};
ghost use Rattle.run_check.specs.After.{IsAfter, loose};
ghost use Rattle.run_check.specs.Judging.{asked};
ghost use Rattle.run_check.specs.Strict.{IsStrictAfter};
ghost use Rattle.run_verdict.specs.Judges.{HasJudged, IsFirstIn, IsOwed, JudgesOrder, StepsAt, is_single};

use crate::ending::Owed;
use crate::streams::Streams;
use run_check::{Checker, NoRoom, Refusal, Strict};
use run_lines::{Doing, Line, Word};
use run_rules::{Level, Rule, Strictness};
use std::alloc::Global;

/// Judges a run line by line, with memory for what is under way.
#[derive(Drop)]
pub struct Judge {
    level: Level,
    checker: Checker,
    streams: Streams,
    strict: Strict,
}

/// The rule First, where the test fails.
fn judge_first(first: bool) -> Result<(), Rule>
    ensures { result ≡ asked first rule.First }
{
    if first { Ok(()) } else { Err(Rule::First) }
}

impl Judge {
    /// A judge that has followed nothing, and that asks as much of a run as this level says.
    pub fn new(alloc: Global, level: Level) -> Self
        ensures { HasJudged level [] result }
    {
        Judge {
            level,
            checker: Checker::new(alloc),
            streams: Streams::new(alloc),
            strict: Strict::new(alloc),
        }
    }

    /// How many lines were followed.
    pub fn lines(&self) -> u64
        ensures { (level : Level) (past : List Line) → HasJudged level past self.now → result ≡ length past }
    {
        self.checker.lines()
    }

    /// Whether no stream has two reads, or two writes, behind this line.
    fn is_single(&self, does: &Doing) -> bool
        ensures { result ≡ is_single self.now does.now }
    {
        match *does {
            Doing::Call { word, thing, .. } => {
                !self.level.streams || self.streams.pending(&word, thing).is_none()
            }
            _ => true,
        }
    }

    /// The operation that is pending on a stream where a call by this word on this thing would be, too,
    /// at a level that looks at streams.
    pub fn pending(&self, word: &Word, thing: Option<u64>) -> Option<u64>
        ensures { (level : Level) (past : List Line) → HasJudged level past self.now → IsTrue level.streams
            → (op : ℕ) → (result ≡ Some op) ↔ IsPending past word.now thing op }
    {
        self.streams.pending(word, thing)
    }

    /// Whether what this line begins is the first of its strand, as far as strands of Boost.Asio have a say.
    fn is_first(&self, does: &Doing) -> bool
        ensures { (level : Level) (past : List Line) (thread : ℕ) → HasJudged level past self.now
            → MayDo loose past thread does.now → IsTrue result ↔ IsFirstIn past does.now }
    {
        match *does {
            Doing::Begin { op, .. } => self.checker.is_first(op),
            _ => true,
        }
    }

    /// Whether a line, which may come where no order is asked, may come in the order that is asked.
    fn is_in_order(&self, line: &Line) -> Result<(), Rule>
        ensures { (level : Level) (past : List Line) → HasJudged level past self.now
            → MayDo loose past line.now.thread line.now.does
            → JudgesOrder level past line.now.thread line.now.does result }
    {
        match self.level.strictness {
            Strictness::Loose => Ok(()),
            Strictness::Plain => judge_first(self.is_first(&line.does)),
            Strictness::Strict => self.strict.may_come(&self.checker, line),
        }
    }

    /// Whether this line may come next, or the first rule that it would break.
    pub fn may_come(&self, line: &Line) -> Result<(), Rule>
        ensures { (level : Level) (past : List Line) → HasJudged level past self.now →
            MatchResult result (λ _. MayCome level past line.now) (λ rule. BreaksRule level past line.now rule) }
    {
        match self.checker.may_come(line) {
            Ok(()) => {
                if self.is_single(&line.does) {
                    self.is_in_order(line)
                } else {
                    Err(Rule::Single)
                }
            }
            Err(rule) => Err(rule),
        }
    }

    /// Follows a line as far as the strict rules have a say, where they are asked.
    fn follow_strict(&mut self, line: &Line) -> Result<(), NoRoom>
        ensures followed { IfOk result
            (λ _. (level : Level) (past : List Line) → HasJudged level past self.old → MayCome level past line.now
            → IsStrict level → IsStrictAfter (line.now ∷ past) self.new.strict) }
        ensures level { self.new.level ≡ self.old.level }
        ensures checker { self.new.checker ≡ self.old.checker }
        ensures streams { self.new.streams ≡ self.old.streams }
    {
        match self.level.strictness {
            Strictness::Strict => self.strict.follow(&self.checker, line),
            Strictness::Loose | Strictness::Plain => Ok(()),
        }
    }

    /// Follows a line that may come. Where there is no room, nothing is said of what was kept.
    pub fn follow(&mut self, line: &Line) -> Result<(), NoRoom>
        ensures { IfOk result
            (λ _. (level : Level) (past : List Line) → HasJudged level past self.old → MayCome level past line.now
            → HasJudged level (line.now ∷ past) self.new) }
    {
        self.follow_strict(line)?;
        self.checker.follow(line)?;
        if !self.level.streams {
            return Ok(());
        }
        self.streams.follow(&line.does)?;
        Ok(())
    }

    /// Follows a line, if it may come. A line that may not changes nothing; where there is no room,
    /// nothing is said of what was kept.
    pub fn step(&mut self, line: &Line) -> Result<(), Refusal>
        ensures { (level : Level) (past : List Line) → HasJudged level past self.old
            → StepsAt level past line.now self.old self.new result }
    {
        if let Err(rule) = self.may_come(line) {
            return Err(Refusal::Broken { rule });
        }
        match self.follow(line) {
            Ok(()) => Ok(()),
            Err(NoRoom) => Err(Refusal::NoRoom),
        }
    }

    /// Whether nothing is under way: nothing waits or executes, and nothing is claimed or locked.
    pub fn is_whole(&self) -> bool
        ensures { (level : Level) (past : List Line) → HasJudged level past self.now → IsTrue result ↔ IsWhole past }
    {
        self.checker.waiting() == 0 && self.checker.executing() == 0 && self.checker.taken() == 0
    }

    /// What is under way.
    pub fn owed(&self) -> Owed
        ensures { (level : Level) (past : List Line) → HasJudged level past self.now → IsOwed past result }
    {
        Owed {
            waiting: self.checker.waiting(),
            executing: self.checker.executing(),
            taken: self.checker.taken(),
        }
    }

    /// What is kept of the run, for questions.
    pub fn checker(&self) -> &Checker
        ensures { (level : Level) (past : List Line) → HasJudged level past self.now → IsAfter past result.now }
    {
        &self.checker
    }

    /// What is kept of a run that is asked for the strict rules.
    pub fn strict(&self) -> &Strict
        ensures { (level : Level) (past : List Line) → HasJudged level past self.now → IsStrict level → IsStrictAfter past result.now }
    {
        &self.strict
    }
}
