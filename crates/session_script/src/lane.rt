ghost use Rattle.std.specs.Prelude.{◌≡◌, ◌≤◌, [], length, IfOk};
ghost use Rattle.session_script.specs.Lanes.{strand_of, caller_lane, is_inside, lane_or_reactor, place_lane, lane_in, lanes_after};
ghost use Rattle.session_script.specs.Outcome.{entries_of};
ghost use Rattle.session_script.specs.Limits.{most_acts};

use crate::act::{Act, is_operation, is_stop};
use crate::parts::PlacedAct;
use asio_types::{Class, Lane, NoMemory, OpNo, StrandNo};
use std::alloc::Global;

/// The strand that an act names.
fn strand_of(act: &Act) -> Option<StrandNo>
    ensures { result ≡ strand_of act.now }
{
    match act {
        Act::Post { strand } | Act::Defer { strand } | Act::Dispatch { strand } => *strand,
        Act::Wait { strand, .. } | Act::ReadSome { strand, .. } | Act::ReadAll { strand, .. } =>
            *strand,
        Act::Until { strand, .. } | Act::WriteSome { strand, .. } | Act::WriteAll { strand, .. } =>
            *strand,
        Act::Expires { .. } | Act::ExpiresAt { .. } | Act::Cancel { .. } | Act::CancelOne { .. } =>
            None,
        Act::Emit { .. } | Act::Close { .. } | Act::Release { .. } | Act::Stop => None,
    }
}

/// The lane of the handler that calls the acts of a place; none in `open`.
pub(crate) fn caller_lane(lanes: &[Lane], parent: Option<(OpNo, Class)>) -> Option<Lane>
    ensures { result ≡ caller_lane lanes.now parent }
{
    match parent {
        Some((op, _)) => lanes.get(op as usize).copied(),
        None => None,
    }
}

/// Whether an act is a dispatch that executes inside its call.
pub(crate) fn is_inside(caller: Option<Lane>, act: &Act) -> bool
    ensures { result ≡ is_inside caller act.now }
{
    match (caller, act) {
        (Some(_), Act::Dispatch { strand: None }) => true,
        (
            Some(Lane::Strand(on)),
            Act::Dispatch {
                strand: Some(strand),
            },
        ) => on == *strand,
        _ => false,
    }
}

/// The caller's lane, and the reactor's where nothing calls.
fn lane_or_reactor(caller: Option<Lane>) -> Lane
    ensures { result ≡ lane_or_reactor caller }
{
    match caller {
        Some(lane) => lane,
        None => Lane::Reactor,
    }
}

/// The lane of an operation outside its call: its strand, or else its own.
fn place_lane(number: u32, strand: Option<StrandNo>) -> Lane
    ensures { result ≡ place_lane number strand }
{
    match strand {
        Some(strand) => Lane::Strand(strand),
        None => Lane::Own(number),
    }
}

/// The lane of an act.
fn lane_in(caller: Option<Lane>, number: u32, act: &Act) -> Lane
    ensures { result ≡ lane_in caller number act.now }
{
    if is_inside(caller, act) {
        return lane_or_reactor(caller);
    }
    if is_operation(act) {
        return place_lane(number, strand_of(act));
    }
    if is_stop(act) {
        lane_or_reactor(caller)
    } else {
        Lane::Reactor
    }
}

/// The lanes of all acts.
pub(crate) fn lanes(alloc: Global, acts: &[PlacedAct]) -> Result<Vec<Lane>, NoMemory>
    requires { length acts.now ≤ most_acts }
    ensures { IfOk result (λ lanes. lanes.items ≡ lanes_after [] (entries_of acts.now)) }
{
    let mut lanes = Vec::with_capacity(alloc, acts.len())?;
    for (n, entry) in acts.iter().enumerate() {
        let caller = caller_lane(lanes.as_slice(), entry.parent);
        lanes.push(lane_in(caller, n as u32, &entry.act))?;
    }
    Ok(lanes)
}
