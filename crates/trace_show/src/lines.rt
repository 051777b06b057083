use asio_types::{ActNo, Event};

/// The kinds of events that are about one act.
#[derive(Clone, Copy, PartialEq, Eq)]
pub(crate) enum EventKind {
    /// Its call.
    Called,
    /// That call is back.
    Back,
    /// It stopped the context.
    Stopped,
    /// Its handler began.
    Begun,
    /// Its handler has ended.
    Ended,
    /// It was taken.
    Taken,
    /// It has completed.
    Done,
    /// Its handler was destroyed.
    Dropped,
    /// Any other.
    Other,
}

/// What kind of event this is, and of which act.
fn kind_of(event: Event) -> (EventKind, ActNo) {
    match event {
        Event::Call { act } => (EventKind::Called, act),
        Event::Back { act } => (EventKind::Back, act),
        Event::Stop { act: Some(act) } => (EventKind::Stopped, act),
        Event::Begin { op, .. } => (EventKind::Begun, op),
        Event::End { op, .. } => (EventKind::Ended, op),
        Event::Take { act } => (EventKind::Taken, act),
        Event::Done { op, .. } => (EventKind::Done, op),
        Event::Dropped { op, .. } => (EventKind::Dropped, op),
        _ => (EventKind::Other, 0),
    }
}

/// The number of the last of the events that is of this kind and about this act, from 1.
pub(crate) fn line_about(events: &[Event], kind: EventKind, act: ActNo) -> Option<u32> {
    let mut line = None;
    for (i, event) in events.iter().enumerate() {
        let (found, of) = kind_of(*event);
        if found == kind && of == act {
            line = number_of(i);
        }
    }
    line
}

/// The number of the last of these events, from 1.
pub(crate) fn line_of_event(events: &[Event], wanted: Event) -> Option<u32> {
    let mut line = None;
    for (i, event) in events.iter().enumerate() {
        if *event == wanted {
            line = number_of(i);
        }
    }
    line
}

/// The number of the last event after which the context is stopped and wasn't restarted.
pub(crate) fn line_of_stop(events: &[Event]) -> Option<u32> {
    let mut line = None;
    for (i, event) in events.iter().enumerate() {
        if matches!(
            event,
            Event::Stop { .. } | Event::Ended | Event::Stopped | Event::Fault
        ) {
            line = number_of(i);
        }
    }
    line
}

/// The number of the event of this place.
pub(crate) fn number_of(index: usize) -> Option<u32> {
    match u32::try_from(index) {
        Ok(index) => index.checked_add(1),
        Err(_) => None,
    }
}
