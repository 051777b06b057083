ghost use Rattle.std.specs.Prelude.{[], IfOk, reverse};
ghost use Rattle.run_rules.specs.declared.level.Level.{Level};
ghost use Rattle.run_rules.specs.Verdicts.{IsVerdict};
ghost use Rattle.run_verdict.specs.Judges.{HasJudged};

use crate::judge::Judge;
use run_check::NoRoom;
use run_lines::Line;
use run_rules::{Level, Verdict};
use std::alloc::Global;

/// The verdict on these lines, by a judge that has followed nothing.
fn judge_all(judge: &mut Judge, lines: &[Line]) -> Result<Verdict, NoRoom>
    ensures { IfOk result
        (λ verdict. (level : Level) → HasJudged level [] judge.old → IsVerdict level (reverse lines.now) verdict) }
{
    for line in lines {
        match judge.may_come(line) {
            Ok(()) => {}
            Err(rule) => {
                let place = judge.lines();
                return Ok(Verdict::Illegal { place, rule });
            }
        }
        judge.follow(line)?;
    }
    if judge.is_whole() {
        Ok(Verdict::Legal)
    } else {
        Ok(Verdict::LegalSoFar)
    }
}

/// The verdict on these lines, in the order of their text: legal exactly where each may come and
/// nothing is owed at the end, and otherwise where the first line breaks a rule, and which.
pub fn verdict_on(alloc: Global, level: Level, lines: &[Line]) -> Result<Verdict, NoRoom>
    ensures { IfOk result (λ verdict. IsVerdict level (reverse lines.now) verdict) }
{
    let mut judge = Judge::new(alloc, level);
    judge_all(&mut judge, lines)
}
