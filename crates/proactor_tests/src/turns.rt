//! What a proactor makes of turns: of each the event that begins it and the completions that it
//! tells, as a trace.

ghost use Rattle.std.specs.Prelude.{◌≡◌, [], OnOk};
ghost use Rattle.proactor_core.specs.Proactor.{IsSound};

use asio_types::{Code, NoMemory, Point, SetupFault};
use proactor_core::Proactor;
use reactor_script::{FailAt, ScriptReactor};
use reactor_trait::Reactor;
use session_script::{Script, read_script};
use std::alloc::Global;

/// A script, the turns that its reactor makes (the number of an act that is taken, or `tick`), the
/// calls of the reactor that fail, and the trace of all that, where ` / ` stands for the end of a
/// line.
pub(crate) struct Case {
    pub(crate) shows: &'static str,
    pub(crate) script: &'static str,
    pub(crate) turns: &'static str,
    pub(crate) fails: &'static [FailAt],
    pub(crate) trace: &'static str,
}

/// Why a session ended before its last turn.
#[derive(Drop)]
pub(crate) enum Early {
    /// The reactor failed.
    Failed,
    /// The script or a turn isn't one.
    Wrong,
    NoMemory,
}

impl From<NoMemory> for Early {
    fn from(_e: NoMemory) -> Early {
        Early::NoMemory
    }
}

fn word_of(code: Code) -> &'static str {
    match code {
        Code::Ok => "ok",
        Code::Aborted => "aborted",
        Code::Eof => "eof",
        Code::NotFound => "not_found",
        Code::Bad => "bad",
        Code::Broken => "broken",
        Code::Reset => "reset",
    }
}

/// A line of the trace, with a number behind its words.
fn line(trace: &mut String, words: &str, number: u64) -> Result<(), NoMemory> {
    if trace.len() > 0 {
        trace.push_str(" / ")?;
    }
    write!(trace, "{words} {number}")?;
    Ok(())
}

/// A line of one word.
fn word(trace: &mut String, word: &str) -> Result<(), NoMemory> {
    if trace.len() > 0 {
        trace.push_str(" / ")?;
    }
    trace.push_str(word)?;
    Ok(())
}

/// Tells all that is due.
fn tell_all<X: Reactor>(proactor: &mut Proactor<'_, X>, trace: &mut String) -> Result<(), Early>
    requires sound { IsSound X.state X.told proactor.old }
    ensures sound { OnOk result (IsSound X.state X.told proactor.new) }
    ensures nothing_due { OnOk result (proactor.new.tables.due.coming ≡ []) }
    ensures script { OnOk result (proactor.new.script ≡ proactor.old.script) }
{
    while let Some((op, code, size)) = proactor.next_due() {
        line(trace, "done", op as u64)?;
        write!(trace, " {} {size}", word_of(code)).map_err(|_| Early::NoMemory)?;
    }
    Ok(())
}

/// One request is taken, with all that completes by it.
fn take_one<X: Reactor>(
    proactor: &mut Proactor<'_, X>,
    script: &Script,
    act: u32,
    trace: &mut String,
) -> Result<(), Early>
    requires sound { IsSound X.state X.told proactor.old }
    requires nothing_due { proactor.old.tables.due.coming ≡ [] }
    requires script { proactor.old.script ≡ script.now }
    ensures sound { OnOk result (IsSound X.state X.told proactor.new) }
    ensures nothing_due { OnOk result (proactor.new.tables.due.coming ≡ []) }
    ensures script { OnOk result (proactor.new.script ≡ script.now) }
{
    if act >= script.acts() || proactor.was_taken(act) {
        return Err(Early::Wrong);
    }
    line(trace, "take", act as u64)?;
    if proactor.take(act).is_err() {
        return Err(Early::Failed);
    }
    tell_all(proactor, trace)
}

/// The time moves once, with all that completes by it.
fn tick_once<X: Reactor>(
    proactor: &mut Proactor<'_, X>,
    script: &Script,
    trace: &mut String,
) -> Result<(), Early>
    requires sound { IsSound X.state X.told proactor.old }
    requires nothing_due { proactor.old.tables.due.coming ≡ [] }
    requires script { proactor.old.script ≡ script.now }
    ensures sound { OnOk result (IsSound X.state X.told proactor.new) }
    ensures nothing_due { OnOk result (proactor.new.tables.due.coming ≡ []) }
    ensures script { OnOk result (proactor.new.script ≡ script.now) }
{
    let (moved, works) = match proactor.tick() {
        Ok(point) => (Some(point), true),
        Err(fault) => (fault.moved, false),
    };
    match moved {
        Some(Point::Time(now)) => line(trace, "tick", now)?,
        Some(Point::Last) => word(trace, "last")?,
        None => {}
    }
    if !works {
        return Err(Early::Failed);
    }
    tell_all(proactor, trace)
}

/// All turns, one after another.
fn make_turns<X: Reactor>(
    proactor: &mut Proactor<'_, X>,
    script: &Script,
    turns: &str,
    trace: &mut String,
) -> Result<(), Early>
    requires sound { IsSound X.state X.told proactor.old }
    requires nothing_due { proactor.old.tables.due.coming ≡ [] }
    requires script { proactor.old.script ≡ script.now }
{
    for turn in turns.split(' ') {
        match turn.parse() {
            Ok(act) => take_one(proactor, script, act, trace)?,
            Err(_) => tick_once(proactor, script, trace)?,
        }
    }
    Ok(())
}

/// The trace of these turns over a reactor, up to its fault.
pub(crate) fn trace_of<X: Reactor>(
    alloc: Global,
    script: &Script,
    turns: &str,
    reactor: X,
) -> Result<String, Early> {
    let mut trace = String::new(alloc);
    let mut proactor = match Proactor::start(alloc, script, reactor) {
        Ok(proactor) => proactor,
        Err((SetupFault::NoMemory, _)) => return Err(Early::NoMemory),
        Err((SetupFault::Failed, _)) => {
            word(&mut trace, "fault")?;
            return Ok(trace);
        }
    };
    match make_turns(&mut proactor, script, turns, &mut trace) {
        Ok(()) => {}
        Err(Early::Failed) => word(&mut trace, "fault")?,
        Err(early) => return Err(early),
    }
    Ok(trace)
}

/// Whether the scripted reactor makes the trace of a case.
pub(crate) fn is_as_said(alloc: Global, case: &Case) -> Result<bool, Early> {
    let Ok(script) = read_script(alloc, case.script.as_bytes()) else {
        return Err(Early::Wrong);
    };
    let reactor = ScriptReactor::make(alloc, case.fails)?;
    let trace = trace_of(alloc, &script, case.turns, reactor)?;
    Ok(trace.as_str() == case.trace)
}
