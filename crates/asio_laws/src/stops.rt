use crate::rows::Row;
use asio_types::{Event, Lane, NoMemory, StrandNo};
use session_script::{Act, Pace, Round, Script};
use std::alloc::Global;

/// The strand on which a handler begins here, and not inside its call.
fn strand_of(rows: &[Row<'_>], event: Event) -> Option<StrandNo> {
    let Event::Begin { op, .. } = event else {
        return None;
    };
    match rows.get(op as usize) {
        Some(
            Row {
                lane: Lane::Strand(strand),
                is_inline: false,
                ..
            },
        ) => Some(*strand),
        _ => None,
    }
}

fn is_turn(event: Event) -> bool {
    matches!(event, Event::Take { .. } | Event::Tick { .. } | Event::Last)
}

/// How much begins behind a place until the next restart: on each strand, and at the reactor.
#[derive(Drop)]
struct Begun {
    handlers: Vec<u32>,
    turns: u32,
}

fn begun_behind(
    alloc: Global,
    rows: &[Row<'_>],
    events: &[Event],
    place: usize,
) -> Result<Begun, NoMemory> {
    let mut handlers = vec![in alloc; 0u32; 256]?;
    let mut turns: u32 = 0;
    let behind = events.iter().skip(place).skip(1);
    for event in behind.take_while(|event| **event != Event::Restart) {
        if let Some(strand) = strand_of(rows, *event)
            && let Some(count) = handlers.get_mut(strand as usize)
        {
            *count = count.saturating_add(1);
        }
        if is_turn(*event) {
            turns = turns.saturating_add(1);
        }
    }
    Ok(Begun { handlers, turns })
}

/// Whether little begins behind the return of this stop: nothing on its own strand, and nothing at
/// all behind one in `open`.
fn heeds_stop(begun: &Begun, stop: &Row<'_>) -> bool {
    let most = if stop.parent.is_none() { 0 } else { 1 };
    let on_its_own = match stop.lane {
        Lane::Strand(strand) => begun.handlers.get(strand as usize).copied().unwrap_or(0),
        _ => 0,
    };
    begun.turns <= 1 && on_its_own == 0 && begun.handlers.iter().all(|count| *count <= most)
}

fn stops_are_heeded(alloc: Global, rows: &[Row<'_>], events: &[Event]) -> Result<bool, NoMemory> {
    for row in rows {
        if matches!(row.act, Act::Stop)
            && let Some(back) = row.back.place()
            && !heeds_stop(&begun_behind(alloc, rows, events, back)?, row)
        {
            return Ok(false);
        }
    }
    Ok(true)
}

/// After a stop each strand begins at most one handler and the reactor one turn, until the restart;
/// its own strand none, and behind the end of a round none at all.
pub(crate) fn after_stop(
    alloc: Global,
    rows: &[Row<'_>],
    events: &[Event],
) -> Result<bool, NoMemory> {
    for (place, event) in events.iter().enumerate() {
        if matches!(*event, Event::Ended | Event::Stopped) {
            let begun = begun_behind(alloc, rows, events, place)?;
            if begun.handlers.iter().any(|count| *count > 0) {
                return Ok(false);
            }
        }
    }
    stops_are_heeded(alloc, rows, events)
}

fn is_round_end(event: Event) -> bool {
    matches!(event, Event::Ended | Event::Stopped | Event::Polled)
}

/// Whether the rounds that end are these, each once, and nothing but destroyed handlers comes behind
/// the last: a round of `poll` alone may end polled.
fn ends_each(rounds: &[Round], events: &[Event]) -> bool {
    let mut closed: usize = 0;
    for event in events {
        if closed == rounds.len() && !matches!(*event, Event::Dropped { .. }) {
            return false;
        }
        let polls = match rounds.get(closed) {
            Some(round) => round.pace == Pace::Poll,
            None => false,
        };
        if *event == Event::Polled && !polls {
            return false;
        }
        if is_round_end(*event) {
            closed = closed.saturating_add(1);
        }
    }
    closed == rounds.len() || events.iter().any(|event| *event == Event::Fault)
}

/// Each round closes once, unless the reactor fails.
pub(crate) fn closes_once(script: &Script, events: &[Event]) -> bool {
    ends_each(script.rounds(), events)
}

/// A history has at most seven events an act and 1,154 more, stops from outside aside.
pub(crate) fn length(rows: &[Row<'_>], events: &[Event]) -> bool {
    let outside = Event::Stop { act: None };
    let count = events.iter().filter(|event| **event != outside).count();
    count <= rows.len().saturating_mul(7).saturating_add(1154)
}
