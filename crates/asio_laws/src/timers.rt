use crate::cancelling::timer_of;
use crate::rows::{Row, Seen};
use asio_types::{Code, Event, NoMemory};
use session_script::Act;
use std::alloc::Global;

/// A wait that completed without an error.
#[derive(Clone, Copy)]
struct Completion {
    taken: Seen,
    place: usize,
    /// The time there, and its timer's expiry.
    now: u64,
    expiry: u64,
}

/// What an act that is taken makes of the expiries.
fn set_expiry(expiries: &mut Vec<u64>, act: &Act, now: u64) {
    let (timer, at) = match act {
        Act::Expires { timer, after } => (*timer, now.saturating_add(*after)),
        Act::ExpiresAt { timer, at } => (*timer, *at),
        _ => return,
    };
    if let Some(expiry) = expiries.get_mut(timer as usize) {
        *expiry = at;
    }
}

/// The waits that completed without an error, in their order.
fn waited(alloc: Global, rows: &[Row<'_>], events: &[Event]) -> Result<Vec<Completion>, NoMemory> {
    let mut waits = Vec::new(alloc);
    let mut expiries = vec![in alloc; 0u64; 256]?;
    let mut now = 0;
    for (place, event) in events.iter().enumerate() {
        match *event {
            Event::Tick { now: later } => now = later,
            Event::Take { act } => {
                if let Some(row) = rows.get(act as usize) {
                    set_expiry(&mut expiries, row.act, now);
                }
            }
            Event::Done {
                op,
                code: Code::Ok,
                ..
            } => {
                if let Some(row) = rows.get(op as usize)
                    && let Some(timer) = timer_of(row.act)
                {
                    let expiry = expiries.get(timer as usize).copied().unwrap_or(0);
                    waits.push(Completion {
                        taken: row.taken,
                        place,
                        now,
                        expiry,
                    })?;
                }
            }
            _ => {}
        }
    }
    Ok(waits)
}

/// Whether it completes no sooner than it expires, and those that are pending there no sooner than it.
fn keeps_time(waits: &[Completion], first: &Completion) -> bool {
    first.expiry <= first.now
        && waits.iter().all(|second| {
            second.place <= first.place
                || !second.taken.is_before(first.place)
                || first.expiry <= second.expiry
        })
}

/// Whether every call is back at this place, and every handler that is ready has run.
fn is_at_rest(rows: &[Row<'_>], place: usize) -> bool {
    rows.iter().all(|row| {
        !row.is_open_at(place)
            && !row.runs_at(place)
            && (!row.done.is_before(place) || row.begun.is_before(place))
    })
}

fn time_rises(rows: &[Row<'_>], events: &[Event]) -> bool {
    let mut now = 0;
    for (place, event) in events.iter().enumerate() {
        if let Event::Tick { now: later } = *event {
            if later <= now || !is_at_rest(rows, place) {
                return false;
            }
            now = later;
        }
    }
    true
}

/// No wait completes early, and none before another one that expires sooner; time rises, and moves
/// only where all is at rest.
pub(crate) fn timers(alloc: Global, rows: &[Row<'_>], events: &[Event]) -> Result<bool, NoMemory> {
    let waits = waited(alloc, rows, events)?;
    let waits = waits.as_slice();
    Ok(time_rises(rows, events) && waits.iter().all(|wait| keeps_time(waits, wait)))
}
