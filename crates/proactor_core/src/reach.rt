ghost use Rattle.std.specs.Prelude.{◌≡◌, ◌<◌, bit_and};
ghost use Rattle.std.specs.Option.{ForSome};
ghost use Rattle.session_script.specs.Script.{act_of};
ghost use Rattle.history_rules.specs.Requests.{slot_in};
ghost use Rattle.history_rules.specs.Kinds.{filter_of, slot_of, supported_by};

use asio_types::{OpNo, SlotNo, Types};
use session_script::{Act, Script, acts_fit};

/// The slot that an operation is connected to, if any.
pub(crate) fn slot_of(act: &Act) -> Option<SlotNo>
    ensures { result ≡ slot_of act.now }
{
    match act {
        Act::Wait { slot, .. } => *slot,
        Act::ReadSome { slot, .. } => *slot,
        Act::ReadAll { slot, .. } => *slot,
        Act::Until { slot, .. } => *slot,
        Act::WriteSome { slot, .. } => *slot,
        Act::WriteAll { slot, .. } => *slot,
        _ => None,
    }
}

/// The slot that the operation with a number is connected to, if any; none where no act has that
/// number.
pub(crate) fn slot_at(script: &Script, op: OpNo) -> Option<SlotNo>
    ensures slot { result ≡ slot_in (act_of script.now op) }
    ensures known { ForSome result (λ slot. slot < script.now.slots) }
{
    acts_fit(script);
    if op < script.acts() {
        slot_of(script.act(op))
    } else {
        None
    }
}

/// Terminal and partial: a composed operation that was cancelled totally would have had no effect.
fn composed() -> Types
    ensures { result ≡ 3 }
{
    let Some(types) = Types::of(3) else {
        unreachable!()
    };
    types
}

/// No types.
fn none() -> Types
    ensures { result ≡ 0 }
{
    let Some(types) = Types::of(0) else {
        unreachable!()
    };
    types
}

/// The cancellation types that reach an operation: those that it supports and lets through (Asio
/// reference, Overview, "Per-Operation Cancellation").
pub(crate) fn reached_by(act: &Act) -> Types
    ensures { result ≡ bit_and (supported_by act.now) (filter_of act.now) }
{
    match act {
        Act::Wait { filter, .. } => Types::all().both(*filter),
        Act::ReadSome { filter, .. } => Types::all().both(*filter),
        Act::WriteSome { filter, .. } => Types::all().both(*filter),
        Act::ReadAll { filter, .. } => composed().both(*filter),
        Act::Until { filter, .. } => composed().both(*filter),
        Act::WriteAll { filter, .. } => composed().both(*filter),
        _ => none(),
    }
}
