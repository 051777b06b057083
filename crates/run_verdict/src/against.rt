ghost use Rattle.std.specs.Prelude.{◌≡◌, ◌↔◌, ◌&&◌, ◌||◌, ◌==◌, List, IsTrue, not};
ghost use Rattle.std.specs.Option.{option_and_then};
ghost use Rattle.run_lines.specs.declared.line.Line.{Line};
ghost use Rattle.run_rules.specs.declared.level.Level.{Level};
ghost use Rattle.run_rules.specs.Against.{BeginsOnStrand, CallsPending, IsUnderWay, StandsAgainst, StandsAgainstOp, StandsAtFinish, TakesElsewhere, TakesInside, TakesIt, TellsOfExecution, next_of};
ghost use Rattle.run_rules.specs.Calls.{Waits, context_of};
ghost use Rattle.run_rules.specs.Strict.{IsStrict, stopped_since};
ghost use Rattle.run_rules.specs.MayCome.{MayCome};
ghost use Rattle.run_rules.specs.Takings.{same_resource};
ghost use Rattle.run_check.specs.Judging.{is_number};
ghost use Rattle.run_verdict.specs.Doings.{both_same};
ghost use Rattle.run_verdict.specs.Judges.{HasJudged};
ghost use Rattle.run_verdict.specs.Search.{Confronts, IsOfWaiting};

use crate::doings::{
    begins, begins_some, begun_by, calls, calls_from, calls_some, completes, drops_some, is_drop,
    op_of, settles, settles_some, spends, taken_by, tells_of,
};
use crate::judge::Judge;
use run_lines::{Doing, Line};
use run_rules::{Frame, Resource, Rule};

/// A line that stands against another one.
#[derive(Clone, Copy, PartialEq, Eq)]
pub struct Against {
    /// Its number, from 1, with the header and the names.
    pub at: u64,
    pub line: Line,
}

/// Whether both are one number.
fn both_same(one: Option<u64>, other: Option<u64>) -> bool
    ensures { result ≡ both_same one other }
{
    match one {
        Some(one) => is_number(other, one),
        None => false,
    }
}

/// Whether a number is this one.
fn is_number(found: Option<u64>, number: u64) -> bool
    ensures { result ≡ is_number found number }
{
    match found {
        Some(found) => found == number,
        None => false,
    }
}

fn both(one: bool, other: bool) -> bool
    ensures { result ≡ (one && other) }
{
    one && other
}

fn either(one: bool, other: bool) -> bool
    ensures { result ≡ (one || other) }
{
    one || other
}

fn differs(one: u64, other: u64) -> bool
    ensures { result ≡ not (one == other) }
{
    one != other
}

/// Whether both are one thing, or one lock.
fn is_same(resource: Resource, other: Resource) -> bool
    ensures { IsTrue result ↔ IsTrue (same_resource resource other) }
{
    resource == other
}

/// Whether a frame is the execution of this operation.
fn is_execution(who: Frame, op: u64) -> bool
    ensures { IsTrue result ↔ (who ≡ Frame.Execution op) }
{
    match who {
        Frame::Execution { op: other } => other == op,
        Frame::Outside { .. } => false,
    }
}

/// Whether a line calls what is pending where this one calls.
fn calls_pending(judge: &Judge, does: &Doing, found: &Doing) -> bool
    ensures { (level : Level) (past : List Line) → HasJudged level past judge.now → IsTrue level.streams
        → IsTrue result ↔ CallsPending past does.now found.now }
{
    match *does {
        Doing::Call { word, thing, .. } => calls_some(found, judge.pending(&word, thing)),
        _ => false,
    }
}

/// Whether a line begins an execution that goes on, on the strand of this operation.
fn begins_on_strand(judge: &Judge, again: &Judge, op: u64, found: &Line) -> bool
    ensures { (level : Level) (past before : List Line) → HasJudged level past judge.now → Waits past op
        → HasJudged level before again.now → MayCome level before found.now → IsTrue result ↔ BeginsOnStrand past op before found.now.does }
{
    match begun_by(&found.does) {
        Some(other) => {
            let there = again.checker().strand(other);
            let strand = judge.checker().strand(op);
            both(
                both_same(there, strand),
                judge.checker().is_executing(other),
            )
        }
        None => false,
    }
}

/// Whether a line begins what executes in this frame, or tells of this operation where nothing does.
fn tells_of_execution(who: Frame, op: u64, found: &Doing) -> bool
    ensures { IsTrue result ↔ TellsOfExecution who op found.now }
{
    match who {
        Frame::Execution { op: innermost } => begins(found, innermost),
        Frame::Outside { .. } => tells_of(found, op),
    }
}

/// Whether a line takes what the execution of this operation has taken and not given back.
fn takes_inside(judge: &Judge, again: &Judge, op: u64, found: &Line) -> bool
    ensures { (level : Level) (past before : List Line) → HasJudged level past judge.now
        → HasJudged level before again.now → IsTrue result ↔ TakesInside past op before found.now }
{
    match taken_by(&found.does) {
        Some(resource) => {
            let inside = is_execution(again.checker().frame(found.thread), op);
            let execution = Frame::Execution { op };
            both(
                inside,
                judge
                    .checker()
                    .is_taken_by(found.thread, execution, resource),
            )
        }
        None => false,
    }
}

/// Whether a line takes this on another thread, which has it still.
fn has_elsewhere(judge: &Judge, thread: u64, resource: Resource, found: &Line) -> bool
    ensures { (level : Level) (past : List Line) → HasJudged level past judge.now
        → IsTrue result ↔ TakesIt past thread resource found.now }
{
    match taken_by(&found.does) {
        Some(other) => {
            let elsewhere = differs(found.thread, thread);
            let kept = judge.checker().has_taken(found.thread, resource);
            both(is_same(other, resource), both(elsewhere, kept))
        }
        None => false,
    }
}

/// Whether a line takes what this one would, on another thread, which has it still.
fn takes_elsewhere(judge: &Judge, line: &Line, found: &Line) -> bool
    ensures { (level : Level) (past : List Line) → HasJudged level past judge.now
        → IsTrue result ↔ TakesElsewhere past line.now.thread line.now.does found.now }
{
    match taken_by(&line.does) {
        Some(resource) => has_elsewhere(judge, line.thread, resource, found),
        None => false,
    }
}

/// The operation that is the next one of the strand of this one, which waits.
fn next_of(judge: &Judge, op: u64) -> Option<u64>
    ensures { (level : Level) (past : List Line) → HasJudged level past judge.now → Waits past op × IsStrict level
        → result ≡ next_of past op }
{
    match judge.checker().strand(op) {
        Some(strand) => judge.strict().next(strand),
        None => None,
    }
}

/// The place of the line by which the context of this operation, which waits, was stopped.
fn stopped_of(judge: &Judge, op: u64) -> Option<u64>
    ensures { (level : Level) (past : List Line) → HasJudged level past judge.now → Waits past op × IsStrict level
        → result ≡ option_and_then (stopped_since past) (context_of past op) }
{
    match judge.checker().context(op) {
        Some(context) => judge.strict().stopped_since(context),
        None => None,
    }
}

/// Whether a line begins an execution that goes on where something would be dropped.
fn is_under_way(judge: &Judge, does: &Doing, found: &Doing) -> bool
    ensures { (level : Level) (past : List Line) → HasJudged level past judge.now
        → IsTrue result ↔ IsUnderWay past does.now found.now }
{
    match begun_by(found) {
        Some(other) => both(is_drop(does), judge.checker().is_executing(other)),
        None => false,
    }
}

/// Whether a line stands against one that comes too early or too late at the end of a context.
fn stands_at_finish(judge: &Judge, does: &Doing, found: &Doing) -> bool
    ensures { (level : Level) (past : List Line) → HasJudged level past judge.now → IsStrict level
        → IsTrue result ↔ StandsAtFinish past does.now found.now }
{
    either(
        is_under_way(judge, does, found),
        drops_some(found, judge.strict().dropped()),
    )
}

/// Whether a line stands against one of this operation, by a rule that speaks of one operation.
fn stands_against_op(
    judge: &Judge,
    again: &Judge,
    thread: u64,
    op: u64,
    rule: Rule,
    found: &Line,
) -> bool
    ensures { (level : Level) (past before : List Line) → HasJudged level past judge.now → IsOfWaiting level past op rule
        → HasJudged level before again.now → MayCome level before found.now
        → IsTrue result ↔ StandsAgainstOp past thread op rule before found.now }
{
    match rule {
        Rule::New => calls_from(&found.does, op),
        Rule::Returns => calls_some(&found.does, judge.checker().last_call(thread)),
        Rule::Waiting => spends(&found.does, op),
        Rule::Asynchronous => calls(&found.does, op),
        Rule::DoneOnce => completes(&found.does, op),
        Rule::Outcome => settles(&found.does, op),
        Rule::Free => begins_on_strand(judge, again, op, found),
        Rule::First => is_number(judge.checker().longest(op), again.lines()),
        Rule::Ready => calls(&found.does, op),
        Rule::Order => settles_some(&found.does, next_of(judge, op)),
        Rule::Stopped => is_number(stopped_of(judge, op), again.lines()),
        Rule::Nested => begins_some(&found.does, judge.checker().innermost(thread)),
        Rule::Innermost => tells_of_execution(judge.checker().frame(thread), op, &found.does),
        Rule::Clean => takes_inside(judge, again, op, found),
        Rule::Single
        | Rule::Untouched
        | Rule::Unlocked
        | Rule::Claimed
        | Rule::Locked
        | Rule::Marked
        | Rule::Finishing => false,
    }
}

/// Whether a line, the next one for the second judge, stands against one that breaks a rule, which is
/// the next one for the first judge.
pub(crate) fn stands_against(
    judge: &Judge,
    again: &Judge,
    line: &Line,
    rule: Rule,
    found: &Line,
) -> bool
    ensures { (level : Level) (past before : List Line) → Confronts level past line.now rule judge.now before found.now again.now
        → IsTrue result ↔ StandsAgainst past line.now rule before found.now }
{
    match rule {
        Rule::Single => calls_pending(judge, &line.does, &found.does),
        Rule::Untouched => takes_elsewhere(judge, line, found),
        Rule::Unlocked => takes_elsewhere(judge, line, found),
        Rule::Finishing => stands_at_finish(judge, &line.does, &found.does),
        _ => match op_of(&line.does) {
            Some(op) => stands_against_op(judge, again, line.thread, op, rule, found),
            None => false,
        },
    }
}
