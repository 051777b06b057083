use crate::rows::{Row, act_of};
use asio_types::{Code, Event};
use session_script::is_operation;

/// Whether it was executed to its end once and not destroyed, or destroyed once and never executed.
fn is_spent_once(row: &Row<'_>) -> bool {
    match (row.begun.count(), row.ended.count(), row.dropped.count()) {
        (1, 1, 0) => row.begun.precedes(row.ended),
        (0, 0, 1) => true,
        _ => false,
    }
}

fn has_no_handler(row: &Row<'_>) -> bool {
    row.begun.count() == 0 && row.ended.count() == 0 && row.dropped.count() == 0
}

fn is_called_once(row: &Row<'_>) -> bool {
    match row.called.count() {
        0 => has_no_handler(row),
        1 if is_operation(row.act) => is_spent_once(row),
        1 => has_no_handler(row),
        _ => false,
    }
}

/// Each act is called at most once. The handler of each operation that was called begins once and
/// ends once, or is destroyed once. Nothing else has a handler.
pub(crate) fn once(rows: &[Row<'_>], events: &[Event]) -> bool {
    let are_acts = events.iter().all(|event| match act_of(*event) {
        Some(act) => (act as usize) < rows.len(),
        None => true,
    });
    are_acts && rows.iter().all(|row| is_called_once(row))
}

/// A posting begins behind its call with `ok` and 0, and any other operation behind its completion,
/// with what that gave.
fn begins_behind(row: &Row<'_>) -> bool {
    if row.begun.count() == 0 {
        return true;
    }
    if row.is_posting() {
        return row.called.precedes(row.begun) && row.given == Some((Code::Ok, 0));
    }
    row.done.precedes(row.begun) && row.given == row.gave
}

/// It is taken behind its call, and completes behind that.
fn completes_behind(row: &Row<'_>) -> bool {
    row.taken.count() <= 1
        && row.done.count() <= 1
        && (row.taken.count() == 0 || row.called.precedes(row.taken))
        && (row.done.count() == 0 || row.taken.precedes(row.done))
}

/// Handlers follow what completes them.
pub(crate) fn after_completion(rows: &[Row<'_>]) -> bool {
    rows.iter()
        .all(|row| begins_behind(row) && completes_behind(row))
}
