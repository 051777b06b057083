ghost use Rattle.std.specs.Prelude.{◌≡◌, ◌<◌, ◌^◌, ℕ, List, Err, IfOk, OnOk, length};
ghost use Rattle.asio_types.specs.Faults.{CountsFaults};
ghost use Rattle.asio_types.specs.Sink.{Extends};
ghost use Rattle.history_rules.specs.Legal.{state_of};
ghost use Rattle.history_rules.specs.State.{first_state};
ghost use Rattle.text_io.specs.Counts.{CountsFailures};
ghost use Rattle.text_io.specs.Seen.{Writes, seen_by};
ghost use Rattle.trace_check.specs.Verdict.{IsIllegalAt, IsVerdict, legal_part};
ghost use Rattle.trace_check.specs.declared.verdict.Verdict.{Verdict as Verdict_of};
ghost use Rattle.trace_show.specs.Why.{IsWhy, IsWhyText, rule_part, why_text};

use crate::against::reason_against;
use crate::detail::Detail;
use crate::explain::explain;
use crate::owed::owed;
use crate::reason::Reason;
use crate::situation::Situation;
use asio_types::{Event, Failed, NoMemory, Sink, write_all};
use history_book::Replay;
use session_script::Script;
use std::alloc::Global;
use text_io::Unfinished;
use trace_check::{Verdict, judge, write_verdict};

/// The verdict on a trace, and for an illegal event the condition that it breaks.
#[derive(Clone, Copy)]
pub struct Finding {
    /// The verdict.
    pub verdict: Verdict,
    /// The condition, where the verdict is that an event is illegal.
    pub reason: Option<Reason>,
}

/// The condition that the event with this number, from 1, breaks in the state of those before it.
fn reason_at(replay: &Replay, events: &[Event], number: u32) -> Option<Reason>
    requires illegal { IsIllegalAt replay.now.script replay.now.told events.now number }
    requires state { replay.now.state
        ≡ state_of replay.now.script replay.now.told
        (legal_part (Verdict_of.Illegal number) events.now) }
    ensures { IsWhy replay.now.script replay.now.told events.now
        (Verdict_of.Illegal number) result }
{
    let event = events[number as usize - 1];
    reason_against(replay, event)
}

/// The condition that is given with a verdict.
fn reason_of(replay: &Replay, events: &[Event], verdict: Verdict) -> Option<Reason>
    requires verdict { IsVerdict replay.now.script replay.now.told events.now verdict }
    requires state { replay.now.state
        ≡ state_of replay.now.script replay.now.told (legal_part verdict events.now) }
    ensures { IsWhy replay.now.script replay.now.told events.now verdict result }
{
    match verdict {
        Verdict::Illegal(number) => reason_at(replay, events, number),
        Verdict::Legal | Verdict::Incomplete => None,
    }
}

/// Judges the events from a replay's first state on, and says why. Takes no memory.
pub fn finding_on(replay: &mut Replay, events: &[Event]) -> Finding
    requires few { length events.now < 2 ^ 32 }
    requires fresh { replay.old.state ≡ first_state replay.old.script replay.old.told }
    ensures verdict { IsVerdict replay.old.script replay.old.told events.now result.verdict }
    ensures reason { IsWhy replay.old.script replay.old.told events.now
        result.verdict result.reason }
    ensures state { replay.new.state
        ≡ state_of replay.old.script replay.old.told (legal_part result.verdict events.now) }
{
    let verdict = judge(replay, events);
    let reason = reason_of(replay, events, verdict);
    Finding { verdict, reason }
}

/// What stands against the event with this number, from 1.
fn explain_at(
    detail: &mut Detail,
    replay: &Replay,
    tells: bool,
    events: &[Event],
    number: u32,
    reason: Option<Reason>,
) -> Result<(), NoMemory> {
    let index = (number as usize).saturating_sub(1);
    let (Some(before), Some(event), Some(reason)) = (events.get(..index), events.get(index), reason)
    else {
        return Ok(());
    };
    let at = Situation {
        replay,
        before,
        tells,
    };
    explain(detail, &at, *event, reason)
}

/// What is said beside a finding.
fn explain_finding(
    detail: &mut Detail,
    replay: &Replay,
    tells: bool,
    events: &[Event],
    said: Finding,
) -> Result<(), NoMemory> {
    match said.verdict {
        Verdict::Legal => Ok(()),
        Verdict::Incomplete => owed(
            detail,
            &Situation {
                replay,
                before: events,
                tells,
            },
        ),
        Verdict::Illegal(number) => explain_at(detail, replay, tells, events, number, said.reason),
    }
}

/// What is said beside the verdict and the condition.
fn details(
    alloc: Global,
    replay: &Replay,
    tells: bool,
    events: &[Event],
    said: Finding,
) -> Result<Detail, NoMemory> {
    let mut detail = Detail::empty(alloc);
    explain_finding(&mut detail, replay, tells, events, said)?;
    Ok(detail)
}

/// The line that names a condition; nothing where there is none.
fn write_rule<K: Sink>(out: &mut K, reason: Option<Reason>) -> Result<(), Failed>
    ensures whole { OnOk result
        (Extends (K.written out.old) (rule_part reason) (K.written out.new)) }
    ensures counts { CountsFaults result (K.faults out.old) (K.faults out.new) }
{
    let Some(reason) = reason else {
        return Ok(());
    };
    write_all(out, b"rule: ")?;
    write_all(out, reason.words())?;
    write_all(out, b"\n")
}

/// A finding, and what is said beside it.
#[derive(Drop)]
struct Told {
    said: Finding,
    detail: Detail,
}

/// What is to be said of the events of a script.
fn told_on(alloc: Global, script: &Script, tells: bool, events: &[Event]) -> Result<Told, NoMemory>
    requires { length events.now < 2 ^ 32 }
    ensures verdict { IfOk result (λ told.
        IsVerdict script.now tells events.now told.said.verdict) }
    ensures reason { IfOk result (λ told.
        IsWhy script.now tells events.now told.said.verdict told.said.reason) }
{
    let Ok(mut replay) = Replay::make(alloc, script, tells) else {
        return Err(NoMemory);
    };
    let said = finding_on(&mut replay, events);
    let Ok(detail) = details(alloc, &replay, tells, events, said) else {
        return Err(NoMemory);
    };
    Ok(Told { said, detail })
}

/// Writes the verdict on the events of a script and why.
pub(crate) fn write_why<K: Sink>(
    alloc: Global,
    script: &Script,
    tells: bool,
    events: &[Event],
    out: &mut K,
) -> Result<Verdict, Unfinished>
    requires { length events.now < 2 ^ 32 }
    ensures verdict { IfOk result (IsVerdict script.now tells events.now) }
    ensures written { IfOk result (λ verdict.
        (text : List ℕ)
        × IsWhyText script.now tells events.now verdict text
        × Writes (seen_by K.written K.faults out.old out.new) text) }
    ensures counts { CountsFailures result (K.faults out.old) (K.faults out.new) }
    ensures quiet { result ≡ Err Unfinished.NoMemory → out.new ≡ out.old }
{
    let Ok(told) = told_on(alloc, script, tells, events) else {
        return Err(Unfinished::NoMemory);
    };
    match write_answer(out, told.said, events.len() as u32, &told.detail) {
        Ok(()) => Ok(told.said.verdict),
        Err(_) => Err(Unfinished::Failed),
    }
}

/// Writes all that is said of a trace with so many lines.
fn write_answer<K: Sink>(
    out: &mut K,
    said: Finding,
    lines: u32,
    detail: &Detail,
) -> Result<(), Failed>
    ensures whole { OnOk result
        (Extends (K.written out.old)
        (why_text said.verdict said.reason lines detail.now.text.items) (K.written out.new)) }
    ensures counts { CountsFaults result (K.faults out.old) (K.faults out.new) }
{
    write_verdict(out, said.verdict, lines)?;
    write_rule(out, said.reason)?;
    write_all(out, detail.as_bytes())
}
