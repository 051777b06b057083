use crate::rows::Row;

/// Whether its call is open at this place, and a handler of its strand makes it that runs there.
fn is_called_by_running(rows: &[Row<'_>], row: &Row<'_>, place: usize) -> bool {
    let Some((caller, _)) = row.parent else {
        return false;
    };
    match rows.get(caller as usize) {
        Some(caller) => {
            row.is_open_at(place) && caller.lane == row.lane && caller.runs_at(place)
        }
        None => false,
    }
}

/// Whether nothing of its strand runs where it begins, save what makes its open call.
fn begins_alone(rows: &[Row<'_>], row: &Row<'_>) -> bool {
    let Some(place) = row.begun.place() else {
        return true;
    };
    let runs = |other: &Row<'_>| other.lane == row.lane && other.runs_at(place);
    !rows.iter().any(runs) || is_called_by_running(rows, row, place)
}

/// No two handlers of a strand run at a time, but for a dispatch inside its call.
pub(crate) fn alone(rows: &[Row<'_>]) -> bool {
    rows.iter().all(|row| begins_alone(rows, row))
}

/// Whether the first of two postings has begun where the second begins, if its call was back before
/// that of the second was made.
fn keep_order(first: &Row<'_>, second: &Row<'_>) -> bool {
    let are_ordered = first.lane == second.lane && first.back.precedes(second.called);
    !are_ordered || second.begun.count() == 0 || first.begun.precedes(second.begun)
}

fn begins_in_order(rows: &[Row<'_>], second: &Row<'_>) -> bool {
    rows.iter()
        .all(|first| !first.is_posting() || keep_order(first, second))
}

/// Postings to a strand begin in the order in which they were made; a dispatch inside its call goes
/// before all others.
pub(crate) fn in_order(rows: &[Row<'_>]) -> bool {
    rows.iter().all(|second| !second.is_posting()
        || second.is_inline
        || begins_in_order(rows, second))
}
