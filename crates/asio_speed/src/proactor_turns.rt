ghost use Rattle.std.specs.Prelude.{◌≡◌, [], OnOk};
ghost use Rattle.proactor_core.specs.Proactor.{IsSound};

use proactor_core::{Fault, Proactor};
use reactor_trait::Reactor;
use session_script::Script;
use std::alloc::Global;

/// Takes all completions out, and answers how many there were.
fn told<X: Reactor>(proactor: &mut Proactor<'_, X>) -> u64
    requires sound { IsSound X.state X.told proactor.old }
    ensures sound { IsSound X.state X.told proactor.new }
    ensures nothing_due { proactor.new.tables.due.coming ≡ [] }
    ensures script { proactor.new.script ≡ proactor.old.script }
{
    let mut count: u64 = 0;
    while let Some(_) = proactor.next_due() {
        count = count.saturating_add(1);
    }
    count
}

/// Takes an act that wasn't taken, and answers how many operations completed.
fn taken<X: Reactor>(proactor: &mut Proactor<'_, X>, script: &Script, a: u32) -> Result<u64, Fault>
    requires sound { IsSound X.state X.told proactor.old }
    requires nothing_due { proactor.old.tables.due.coming ≡ [] }
    requires script { proactor.old.script ≡ script.now }
    ensures sound { OnOk result (IsSound X.state X.told proactor.new) }
    ensures nothing_due { OnOk result (proactor.new.tables.due.coming ≡ []) }
    ensures script { OnOk result (proactor.new.script ≡ script.now) }
{
    if a >= script.acts() || proactor.was_taken(a) {
        return Ok(0);
    }
    proactor.take(a)?;
    Ok(told(proactor))
}

/// Moves the time on if something is pending, and answers how many operations completed.
fn ticked<X: Reactor>(proactor: &mut Proactor<'_, X>) -> Result<u64, Fault>
    requires sound { IsSound X.state X.told proactor.old }
    requires nothing_due { proactor.old.tables.due.coming ≡ [] }
    ensures sound { OnOk result (IsSound X.state X.told proactor.new) }
    ensures nothing_due { OnOk result (proactor.new.tables.due.coming ≡ []) }
{
    if proactor.pending() == 0 {
        return Ok(0);
    }
    match proactor.tick() {
        Ok(_) => Ok(told(proactor)),
        Err(_) => Err(Fault),
    }
}

/// Takes all acts in text order, and answers how many operations completed.
fn take_all<X: Reactor>(proactor: &mut Proactor<'_, X>, script: &Script) -> Result<u64, Fault>
    requires sound { IsSound X.state X.told proactor.old }
    requires nothing_due { proactor.old.tables.due.coming ≡ [] }
    requires script { proactor.old.script ≡ script.now }
    ensures sound { OnOk result (IsSound X.state X.told proactor.new) }
    ensures nothing_due { OnOk result (proactor.new.tables.due.coming ≡ []) }
{
    let mut completed: u64 = 0;
    for a in 0..script.acts() {
        completed = completed.saturating_add(taken(proactor, script, a)?);
    }
    Ok(completed)
}

/// Moves the time on until nothing is pending, at most so often; answers how many operations
/// completed.
fn run_out<X: Reactor>(proactor: &mut Proactor<'_, X>, times: u32) -> Result<u64, Fault>
    requires sound { IsSound X.state X.told proactor.old }
    requires nothing_due { proactor.old.tables.due.coming ≡ [] }
{
    let mut completed: u64 = 0;
    for _ in 0..times {
        completed = completed.saturating_add(ticked(proactor)?);
    }
    Ok(completed)
}

/// How many operations of a script complete that is taken in text order, without a handler, until
/// nothing is pending.
pub(crate) fn completions_of<X: Reactor>(
    alloc: Global,
    script: &Script,
    reactor: X,
) -> Option<u64> {
    let Ok(mut proactor) = Proactor::start(alloc, script, reactor) else {
        return None;
    };
    let Ok(at_once) = take_all(&mut proactor, script) else {
        return None;
    };
    let Ok(later) = run_out(&mut proactor, script.acts()) else {
        return None;
    };
    Some(at_once.saturating_add(later))
}
