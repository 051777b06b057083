ghost use Rattle.std.specs.Prelude.{◌≡◌, ◌≤◌, ◌<◌, ◌+◌, ◌↔◌, [], ◌∷◌, ◌++◌, true, false, Contains, IfOk, IsTrue, OnOk, length};
ghost use Rattle.session_orders.specs.Listed.{events_in};
ghost use Rattle.order_questions.specs.Answer.{order_at};
ghost use Rattle.order_questions.specs.Handlers.{AreCutOff, AreHandlerOrders, AreHandlersOf, HasAllHandlerOrders, handlers_in, is_handler};

use asio_types::{Event, NoMemory};
use history_book::History;
use session_orders::{Bounds, list_orders};
use session_script::Script;
use std::alloc::Global;

/// The orders of handlers: begins, ends and drops alone.
#[derive(Drop)]
pub struct HandlerOrders {
    /// Some of them.
    pub lists: Vec<History>,
    /// Whether these are all.
    pub all: bool,
}

/// Whether a handler begins, ends or is destroyed.
fn is_handler(event: Event) -> bool
    ensures { result ≡ is_handler event }
{
    matches!(
        event,
        Event::Begin { .. } | Event::End { .. } | Event::Dropped { .. }
    )
}

/// Appends an event where it is a handler's.
fn push_shown(shown: &mut History, event: Event)
    requires { 1 ≤ shown.old.spare }
    ensures events { shown.new.events ≡ shown.old.events ++ handlers_in (event ∷ []) }
    ensures spare { shown.old.spare ≤ shown.new.spare + 1 }
{
    if is_handler(event) {
        shown.push_reserved(event);
    }
}

/// The events of handlers among these.
fn handlers_in(alloc: Global, events: &[Event]) -> Result<History, NoMemory>
    ensures { IfOk result (λ shown. shown.events ≡ handlers_in events.now) }
{
    let Ok(room) = u32::try_from(events.len()) else {
        return Err(NoMemory);
    };
    let mut shown = History::with_room(alloc, room)?;
    for event in events {
        push_shown(&mut shown, *event);
    }
    Ok(shown)
}

/// The events of handlers of the history with this number.
fn handlers_at(alloc: Global, histories: &[History], i: usize) -> Result<History, NoMemory>
    requires { i < length histories.now }
    ensures { IfOk result
        (λ shown. shown.events ≡ handlers_in (order_at (events_in histories.now) i)) }
{
    let history = &histories[i];
    handlers_in(alloc, history.events())
}

/// Whether these are the same event.
fn is_same(first: Event, second: Event) -> bool
    ensures { IsTrue result ↔ first ≡ second }
{
    first == second
}

/// Whether these are the same events.
fn are_same(first: &[Event], second: &[Event]) -> bool
    ensures { IsTrue result ↔ first.now ≡ second.now }
{
    if first.len() != second.len() {
        return false;
    }
    for i in 0..first.len() {
        if !is_same(first[i], second[i]) {
            return false;
        }
    }
    true
}

/// Whether these events are those of one of these histories.
fn is_there(lists: &[History], shown: &[Event]) -> bool
    ensures { IsTrue result ↔ Contains (events_in lists.now) shown.now }
{
    for list in lists {
        if are_same(list.events(), shown) {
            return true;
        }
    }
    false
}

/// What the history with this number has joins what the histories before it have.
fn add(
    alloc: Global,
    histories: &[History],
    lists: &mut Vec<History>,
    i: usize,
) -> Result<(), NoMemory>
    requires within { i < length histories.now }
    requires are { AreHandlersOf (events_in histories.now) i (events_in lists.old.items) }
    ensures { OnOk result
        (AreHandlersOf (events_in histories.now) (i + 1) (events_in lists.new.items)) }
{
    let shown = handlers_at(alloc, histories, i)?;
    if is_there(lists.as_slice(), shown.events()) {
        return Ok(());
    }
    lists.push(shown)?;
    Ok(())
}

/// What these histories have, each list once.
fn handlers_of(alloc: Global, histories: &[History]) -> Result<Vec<History>, NoMemory>
    ensures { IfOk result (λ lists. AreHandlersOf (events_in histories.now)
        (length (events_in histories.now)) (events_in lists.items)) }
{
    let mut lists = Vec::new(alloc);
    for i in 0..histories.len() {
        add(alloc, histories, &mut lists, i)?;
    }
    Ok(lists)
}

/// The orders of handlers that the script allows: of each legal whole history that `list_orders` lists
/// within these bounds its begins, ends and drops alone, and none of these lists twice. They are all
/// where it came to no bound. Compares each with all that differ.
pub fn list_handlers(
    alloc: Global,
    script: &Script,
    bounds: Bounds,
) -> Result<HandlerOrders, NoMemory>
    ensures right { IfOk result (λ found.
        AreHandlerOrders script.now bounds.reactor (events_in found.lists.items)) }
    ensures whole { IfOk result (λ found. found.all ≡ true →
        HasAllHandlerOrders script.now bounds.reactor (events_in found.lists.items)) }
    ensures cut { IfOk result (λ found. found.all ≡ false →
        AreCutOff script.now bounds (events_in found.lists.items)) }
{
    let orders = list_orders(alloc, script, bounds)?;
    let lists = handlers_of(alloc, orders.histories())?;
    Ok(HandlerOrders {
        lists,
        all: orders.are_all(),
    })
}
