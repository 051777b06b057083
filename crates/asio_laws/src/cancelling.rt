use crate::rows::Row;
use asio_types::{Code, SlotNo, StreamNo, TimerNo, Types};
use session_script::Act;

/// The stream that an operation reads from or writes to.
pub(crate) fn stream_of(act: &Act) -> Option<StreamNo> {
    match act {
        Act::ReadSome { stream, .. } | Act::ReadAll { stream, .. } => Some(*stream),
        Act::Until { stream, .. } => Some(*stream),
        Act::WriteSome { stream, .. } | Act::WriteAll { stream, .. } => Some(*stream),
        _ => None,
    }
}

/// The timer that it waits for.
pub(crate) fn timer_of(act: &Act) -> Option<TimerNo> {
    match act {
        Act::Wait { timer, .. } => Some(*timer),
        _ => None,
    }
}

/// The slot that it is connected to, if any, and the types that it lets through.
fn plug_of(act: &Act) -> Option<(SlotNo, Types)> {
    let (slot, filter) = match act {
        Act::Wait { slot, filter, .. } => (slot, filter),
        Act::ReadSome { slot, filter, .. } => (slot, filter),
        Act::ReadAll { slot, filter, .. } => (slot, filter),
        Act::Until { slot, filter, .. } => (slot, filter),
        Act::WriteSome { slot, filter, .. } => (slot, filter),
        Act::WriteAll { slot, filter, .. } => (slot, filter),
        _ => return None,
    };
    match *slot {
        Some(slot) => Some((slot, *filter)),
        None => None,
    }
}

/// Whether an emit of these types is one that the operation supports and lets through. A composed
/// operation doesn't support total, which is 4.
fn is_reached(act: &Act, filter: Types, types: Types) -> bool {
    let is_composed = matches!(
        act,
        Act::ReadAll { .. } | Act::Until { .. } | Act::WriteAll { .. }
    );
    let shared = types.both(filter);
    shared.bits() != 0 && !(is_composed && shared.bits() == 4)
}

/// Whether the first act may cancel the second.
fn may_cancel(by: &Act, target: &Act) -> bool {
    match by {
        Act::Expires { timer, .. } | Act::ExpiresAt { timer, .. } => {
            timer_of(target) == Some(*timer)
        }
        Act::Cancel { timer } | Act::CancelOne { timer } => timer_of(target) == Some(*timer),
        Act::Close { stream } => stream_of(target) == Some(*stream),
        Act::Emit { slot, types } => match plug_of(target) {
            Some((plug, filter)) => plug == *slot && is_reached(target, filter, *types),
            None => false,
        },
        _ => false,
    }
}

/// Whether something that may cancel it was taken while it was pending, if it was aborted.
fn was_cancelled(rows: &[Row<'_>], row: &Row<'_>) -> bool {
    let Some((Code::Aborted, _)) = row.gave else {
        return true;
    };
    rows.iter().any(|by| {
        may_cancel(by.act, row.act) && row.taken.precedes(by.taken) && by.taken.precedes(row.done)
    })
}

/// Whether another wait of its timer that was taken before it is pending at this place.
fn is_behind_another(rows: &[Row<'_>], row: &Row<'_>, place: usize) -> bool {
    rows.iter().any(|other| {
        timer_of(other.act) == timer_of(row.act)
            && other.taken.precedes(row.taken)
            && other.is_pending_at(place)
    })
}

/// Whether another operation was connected to its slot behind it, before this place.
fn is_replaced(rows: &[Row<'_>], row: &Row<'_>, slot: SlotNo, place: usize) -> bool {
    rows.iter().any(|other| match plug_of(other.act) {
        Some((plug, _)) => {
            plug == slot && row.taken.precedes(other.taken) && other.taken.is_before(place)
        }
        None => false,
    })
}

/// Whether this act, taken at this place, cancels the operation, which is pending there.
fn cancels(rows: &[Row<'_>], by: &Act, place: usize, row: &Row<'_>) -> bool {
    match by {
        Act::CancelOne { .. } => { may_cancel(by, row.act) && !is_behind_another(rows, row, place) }
        Act::Emit { slot, .. } => {
            may_cancel(by, row.act) && !is_replaced(rows, row, *slot, place)
        }
        _ => may_cancel(by, row.act),
    }
}

/// Whether it begins as aborted, if at all, if this act reached it.
fn heeds(rows: &[Row<'_>], by: &Row<'_>, row: &Row<'_>) -> bool {
    let Some(place) = by.taken.place() else {
        return true;
    };
    if !row.is_pending_at(place) || !cancels(rows, by.act, place, row) {
        return true;
    }
    match row.given {
        Some((code, _)) => code == Code::Aborted,
        None => true,
    }
}

/// An operation is aborted only where something that may cancel it was taken while it was pending,
/// and whatever was cancelled so begins as aborted, if at all.
pub(crate) fn cancelled(rows: &[Row<'_>]) -> bool {
    rows.iter().all(|row| {
        was_cancelled(rows, row) && rows.iter().all(|by| heeds(rows, by, row))
    })
}
