ghost use Rattle.std.specs.Prelude.{◌≡◌, ◌<◌, ℕ, length, true, Bool};
ghost use Rattle.history_rules.specs.Legal.{state_of};
ghost use Rattle.history_rules.specs.State.{act_at};
ghost use Rattle.session_orders.specs.Same.{AreSameDone, MayPair, bare, free_after, is_quiet};
ghost use Rattle.session_orders.specs.Walk.{HasCome};

use crate::bounds::ReactorKind;
use crate::reaching::Reaching;
use asio_types::Event;
use history_book::Replay;
use history_rules::{ActPhase, CallPhase, is_stop_act, place_of};
use session_script::Script;

/// Whether an event changes nothing but an act and the count of events, where each lane is free.
fn is_quiet(script: &Script, free: bool, event: Event) -> bool
    ensures { result ≡ is_quiet script.now free event }
{
    match event {
        Event::Call { act } => place_of(script, act).is_some(),
        Event::Back { act } => place_of(script, act).is_some() && !is_stop_act(script, act),
        Event::Begin { .. } => free,
        Event::End { .. } => true,
        _ => false,
    }
}

/// Whether each lane is known to be free after an event.
fn free_after(script: &Script, free: bool, event: Event) -> bool
    ensures { result ≡ free_after script.now free event }
{
    match event {
        Event::Back { act } => free && !is_stop_act(script, act),
        Event::Ended | Event::Stopped => false,
        Event::Restart => true,
        _ => free,
    }
}

/// Whether the same operation completes in both.
fn are_same_done(first: Event, second: Event) -> bool
    ensures { result ≡ true → AreSameDone first second }
{
    match (first, second) {
        (Event::Done { op, .. }, Event::Done { op: other, .. }) => op == other,
        _ => false,
    }
}

/// Whether two beginnings may go on by these events and stay alike.
fn may_pair(script: &Script, free: bool, first: Event, second: Event) -> bool
    ensures { result ≡ true → MayPair script.now free first second }
{
    if first == second || are_same_done(first, second) {
        return true;
    }
    is_quiet(script, free, first) && is_quiet(script, free, second)
}

/// Whether these two beginnings are sure to come to the same state but for the acts.
fn are_alike(script: &Script, first: &[Event], second: &[Event]) -> bool
    ensures { result ≡ true → (told : Bool) → bare (state_of script.now told first.now)
        ≡ bare (state_of script.now told second.now) }
{
    if first.len() != second.len() {
        return false;
    }
    let mut free = true;
    for i in 0..first.len() {
        if !may_pair(script, free, first[i], second[i]) {
            return false;
        }
        free = free_after(script, free, first[i]);
    }
    true
}

/// Whether two calls have come equally far.
fn is_same_call(first: CallPhase, second: CallPhase) -> bool
    ensures { result ≡ true → first ≡ second }
{
    first == second
}

/// Whether the same has become of two acts beyond their calls.
fn is_same_phase(first: ActPhase, second: ActPhase) -> bool
    ensures { result ≡ true → first ≡ second }
{
    first == second
}

/// Whether the same has become of an act.
fn have_same_act(first: &Replay<'_>, second: &Replay<'_>, n: u32) -> bool
    ensures { result ≡ true →
        act_at first.now.state.context n ≡ act_at second.now.state.context n }
{
    let one = first.act(n);
    let other = second.act(n);
    if !is_same_call(one.call, other.call) {
        return false;
    }
    is_same_phase(one.phase, other.phase)
}

/// Whether the same has become of each act.
fn have_same_acts(first: &Replay<'_>, second: &Replay<'_>) -> bool
    ensures { result ≡ true → (n : ℕ) → n < length first.now.script.acts →
        act_at first.now.state.context n ≡ act_at second.now.state.context n }
{
    let acts = first.script().acts();
    for n in 0..acts {
        if !have_same_act(first, second, n) {
            return false;
        }
    }
    true
}

/// Whether these two are sure to be the same state.
pub(crate) fn is_same(
    script: &Script,
    kind: ReactorKind,
    first: &Reaching<'_>,
    second: &Reaching<'_>,
) -> bool
    requires first { HasCome script.now kind first.now.replay first.now.path }
    requires second { HasCome script.now kind second.now.replay second.now.path }
    ensures { result ≡ true → first.now.replay.state ≡ second.now.replay.state }
{
    let path = first.path();
    let other = second.path();
    let came = first.replay();
    let went = second.replay();
    if path.len() != other.len() {
        return false;
    }
    if !have_same_acts(came, went) {
        return false;
    }
    are_alike(script, path, other)
}
