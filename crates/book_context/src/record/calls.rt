//! What the calls of an execution do to what a context keeps.
ghost use Rattle.std.specs.Prelude.{◌≡◌, ◌+◌, ◌≤◌, [], ◌∷◌, length};
ghost use Rattle.session_script.specs.Script.{stops};
ghost use Rattle.history_rules.specs.Calls.{accepted};
ghost use Rattle.history_rules.specs.Order.{is_request};
ghost use Rattle.strand_core.specs.Execution.{events_of};
ghost use Rattle.strand_core.specs.declared.posted.Posted.{Posted};
ghost use Rattle.execution_laws.specs.Called.{are_stopping};
ghost use Rattle.execution_laws.specs.Order.{postings_of, requests_of};
ghost use Rattle.execution_laws.specs.Ready.{is_ready};
ghost use Rattle.book_context.specs.Listed.{with_events, with_listed};

use crate::record::lists::Lists;
use asio_types::{ActNo, Code, Event};
use history_book::History;
use session_script::{Act, Script};
use strand_core::Posted;

/// Whether the call of an act makes it ready: a posting that doesn't execute inside its call.
fn is_ready_at_once(script: &Script, act: ActNo) -> bool
    ensures { result ≡ is_ready (accepted script.now act) }
{
    act < script.acts()
        && !script.is_inline(act)
        && matches!(
            script.act(act),
            Act::Post { .. } | Act::Defer { .. } | Act::Dispatch { .. }
        )
}

/// Whether the call of an act asks something of the reactor: whatever is neither a posting nor a
/// stop.
fn is_request(script: &Script, act: ActNo) -> bool
    ensures { result ≡ is_request (accepted script.now act) }
{
    act < script.acts()
        && !script.is_inline(act)
        && !matches!(
            script.act(act),
            Act::Post { .. } | Act::Defer { .. } | Act::Dispatch { .. } | Act::Stop
        )
}

/// Whether an act stops the context; a number that no act has doesn't.
fn is_stop(script: &Script, act: ActNo) -> bool
    ensures { result ≡ stops script.now act }
{
    act < script.acts() && script.is_stop(act)
}

/// Records the call of an act, and its stop if it stops the context; answers whether it does.
fn record_call(script: &Script, act: ActNo, history: &mut History) -> bool
    requires { length (events_of script.now (Posted.Call act ∷ [])) ≤ history.old.spare }
    ensures history { history.new
        ≡ with_events (events_of script.now (Posted.Call act ∷ [])) history.old }
    ensures stops { result ≡ are_stopping script.now (Posted.Call act ∷ []) }
{
    if is_stop(script, act) {
        history.push_reserved(Event::Call { act });
        history.push_reserved(Event::Stop { act: Some(act) });
        true
    } else {
        history.push_reserved(Event::Call { act });
        false
    }
}

/// Lists what the call of an act leaves to be done.
fn list_call(script: &Script, act: ActNo, lists: &mut Lists)
    requires ready { length lists.old.ready + length (postings_of script.now (Posted.Call act ∷ []))
        ≤ lists.old.room }
    requires requests { length lists.old.requests
        + length (requests_of script.now (Posted.Call act ∷ [])) ≤ lists.old.room }
    ensures { lists.new ≡ with_listed script.now (Posted.Call act ∷ []) lists.old }
{
    lists.mark_called(act);
    if is_ready_at_once(script, act) {
        lists.push_ready(act, Code::Ok, 0);
    } else if is_request(script, act) {
        lists.push_request(act);
    }
}

/// Records one call; answers whether it stops the context.
fn record_one(script: &Script, call: Posted, history: &mut History, lists: &mut Lists) -> bool
    requires spare { length (events_of script.now (call ∷ [])) ≤ history.old.spare }
    requires ready { length lists.old.ready + length (postings_of script.now (call ∷ []))
        ≤ lists.old.room }
    requires requests { length lists.old.requests + length (requests_of script.now (call ∷ []))
        ≤ lists.old.room }
    ensures history { history.new ≡ with_events (events_of script.now (call ∷ [])) history.old }
    ensures lists { lists.new ≡ with_listed script.now (call ∷ []) lists.old }
    ensures stops { result ≡ are_stopping script.now (call ∷ []) }
{
    match call {
        Posted::Begin { op, code, size, .. } => {
            history.push_reserved(Event::Begin { op, code, size });
            false
        }
        Posted::Call { act } => {
            list_call(script, act, lists);
            record_call(script, act, history)
        }
        Posted::Back { act } => {
            history.push_reserved(Event::Back { act });
            false
        }
        Posted::End { op, ran } => {
            history.push_reserved(Event::End { op, mark: ran.mark });
            false
        }
    }
}

/// Records some calls, one after another; answers whether one of them stops the context. Takes no
/// memory.
pub(crate) fn record_calls(
    script: &Script,
    calls: &[Posted],
    history: &mut History,
    lists: &mut Lists,
) -> bool
    requires spare { length (events_of script.now calls.now) ≤ history.old.spare }
    requires ready { length lists.old.ready + length (postings_of script.now calls.now)
        ≤ lists.old.room }
    requires requests { length lists.old.requests + length (requests_of script.now calls.now)
        ≤ lists.old.room }
    ensures history { history.new ≡ with_events (events_of script.now calls.now) history.old }
    ensures lists { lists.new ≡ with_listed script.now calls.now lists.old }
    ensures stops { result ≡ are_stopping script.now calls.now }
{
    let mut stopped = false;
    for &call in calls {
        stopped |= record_one(script, call, history, lists);
    }
    stopped
}
