ghost use Rattle.std.specs.Prelude.{◌≡◌, ◌≤◌, ◌∷◌, ◌++◌, [], true, false, IfOk, OnOk, length};
ghost use Rattle.session_orders.specs.Bound.{IsCutOff, IsFull};
ghost use Rattle.session_orders.specs.Listed.{events_in};
ghost use Rattle.session_orders.specs.Order.{AreOrders, HasAllOrders};
ghost use Rattle.session_orders.specs.Walk.{ArePassed, HasCome};

use crate::advance::Move;
use crate::bounds::Bounds;
use crate::orders::Orders;
use crate::walk::Walk;
use asio_types::{Event, NoMemory};
use history_book::History;
use session_script::Script;
use std::alloc::Global;

/// A history of these events.
fn history_of(alloc: Global, events: &[Event]) -> Result<History, NoMemory>
    requires { length events.now ≤ u32.MAX }
    ensures { IfOk result (λ history. history.events ≡ events.now) }
{
    let mut history = History::with_room(alloc, events.len() as u32)?;
    for event in events {
        history.push_reserved(*event);
    }
    Ok(history)
}

/// A history of these events joins those that are listed, unless these are as many as may be. Answers
/// whether it did.
fn offer(
    alloc: Global,
    bounds: Bounds,
    events: &[Event],
    histories: &mut Vec<History>,
) -> Result<bool, NoMemory>
    requires short { length events.now ≤ u32.MAX }
    requires within { length histories.old.items ≤ bounds.histories }
    ensures within { OnOk result (length histories.new.items ≤ bounds.histories) }
    ensures kept { IfOk result (λ kept. kept ≡ true →
        events_in histories.new.items ≡ events_in histories.old.items ++ events.now ∷ []) }
    ensures full { IfOk result (λ kept. kept ≡ false →
        (length histories.new.items ≡ bounds.histories)
        × (events_in histories.new.items ≡ events_in histories.old.items)) }
{
    if histories.len() >= bounds.histories {
        return Ok(false);
    }
    let history = history_of(alloc, events)?;
    histories.push(history)?;
    Ok(true)
}

/// Lists the histories that a walk has passed before its first step: the empty one, where that is
/// whole. Answers whether they are no more than may be.
fn list_first(
    alloc: Global,
    bounds: Bounds,
    walk: &Walk<'_>,
    histories: &mut Vec<History>,
) -> Result<bool, NoMemory>
    requires come { HasCome walk.now.script.now walk.now.kind walk.now.replay [] }
    requires none { histories.old.items ≡ [] }
    ensures within { OnOk result (length histories.new.items ≤ bounds.histories) }
    ensures passed { IfOk result (λ kept. kept ≡ true → ArePassed walk.now.script.now walk.now.kind
        [] 0 (events_in histories.new.items)) }
    ensures right { OnOk result (AreOrders walk.now.script.now walk.now.kind
        (events_in histories.new.items)) }
    ensures full { IfOk result (λ kept. kept ≡ false → IsFull walk.now.script.now walk.now.kind
        bounds.histories (events_in histories.new.items)) }
{
    if walk.replay.whole() {
        return offer(alloc, bounds, &[], histories);
    }
    Ok(true)
}

/// Lists the whole histories that a walk comes to. Answers whether it came to its end, and not to a
/// bound.
fn list_on(
    alloc: Global,
    bounds: Bounds,
    walk: &mut Walk<'_>,
    histories: &mut Vec<History>,
) -> Result<bool, NoMemory>
    requires come { HasCome walk.old.script.now bounds.reactor walk.old.replay [] }
    requires path { walk.old.path.items ≡ [] }
    requires place { walk.old.place ≡ 0 }
    requires kind { walk.old.kind ≡ bounds.reactor }
    requires within { length histories.old.items ≤ bounds.histories }
    requires passed { ArePassed walk.old.script.now bounds.reactor [] 0
        (events_in histories.old.items) }
    ensures right { OnOk result
        (AreOrders walk.old.script.now bounds.reactor (events_in histories.new.items)) }
    ensures within { OnOk result (length histories.new.items ≤ bounds.histories) }
    ensures whole { IfOk result (λ all. all ≡ true →
        HasAllOrders walk.old.script.now bounds.reactor (events_in histories.new.items)) }
    ensures cut { IfOk result (λ all. all ≡ false →
        IsCutOff walk.old.script.now bounds (events_in histories.new.items)) }
{
    'beginnings: for count in 0..bounds.beginnings {
        match walk.advance()? {
            Move::Entered => {}
            Move::Whole => {
                if !offer(alloc, bounds, walk.path.as_slice(), histories)? {
                    return Ok(false);
                }
            }
            Move::Over => return Ok(true),
        }
    }
    Ok(false)
}

/// Lists the whole histories that a walk from the first event on comes to. Answers whether these
/// are all.
fn list_all(
    alloc: Global,
    script: &Script,
    bounds: Bounds,
    histories: &mut Vec<History>,
) -> Result<bool, NoMemory>
    requires { histories.old.items ≡ [] }
    ensures right { OnOk result
        (AreOrders script.now bounds.reactor (events_in histories.new.items)) }
    ensures within { OnOk result (length histories.new.items ≤ bounds.histories) }
    ensures whole { IfOk result (λ all. all ≡ true →
        HasAllOrders script.now bounds.reactor (events_in histories.new.items)) }
    ensures cut { IfOk result (λ all. all ≡ false →
        IsCutOff script.now bounds (events_in histories.new.items)) }
{
    let mut walk = Walk::make(alloc, script, bounds.reactor)?;
    if !list_first(alloc, bounds, &walk, histories)? {
        return Ok(false);
    }
    list_on(alloc, bounds, &mut walk, histories)
}

/// The legal whole histories of the script for what is known of the reactor: those without a stop
/// from outside, with the marks of the program, and where the reactor may fail also those in which
/// it does. They are all unless a bound was reached: there are more histories, or so many
/// beginnings were looked at. Takes memory for what it lists, and for each beginning time in
/// proportion to its events, to the script's acts and, where bytes are untold, to the sizes that
/// its pending operations may have.
pub fn list_orders(alloc: Global, script: &Script, bounds: Bounds) -> Result<Orders, NoMemory>
    ensures right { IfOk result (λ found. AreOrders script.now bounds.reactor found.orders) }
    ensures within { IfOk result (λ found. length found.orders ≤ bounds.histories) }
    ensures whole { IfOk result (λ found.
        found.all ≡ true → HasAllOrders script.now bounds.reactor found.orders) }
    ensures cut { IfOk result (λ found.
        found.all ≡ false → IsCutOff script.now bounds found.orders) }
{
    let mut histories = Vec::new(alloc);
    let all = list_all(alloc, script, bounds, &mut histories)?;
    Ok(Orders::of(histories, all))
}
