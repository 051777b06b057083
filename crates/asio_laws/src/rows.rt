use asio_types::{ActNo, Class, Code, Event, Lane, NoMemory, OpNo};
use session_script::{Act, Script};
use std::alloc::Global;

/// How often an event stands in a history, and at which place it stands first.
#[derive(Clone, Copy)]
pub(crate) struct Seen {
    count: u32,
    at: usize,
}

impl Seen {
    const NEVER: Seen = Seen { count: 0, at: 0 };

    fn note(&mut self, place: usize) {
        if self.count == 0 {
            self.at = place;
        }
        self.count = self.count.saturating_add(1);
    }

    /// How often it stands.
    pub(crate) fn count(self) -> u32 {
        self.count
    }

    /// Where it stands first, if it does.
    pub(crate) fn place(self) -> Option<usize> {
        if self.count == 0 { None } else { Some(self.at) }
    }

    /// Whether it stands before this place.
    pub(crate) fn is_before(self, place: usize) -> bool {
        self.count > 0 && self.at < place
    }

    /// Whether both stand, this one first.
    pub(crate) fn precedes(self, later: Seen) -> bool {
        later.count > 0 && self.is_before(later.at)
    }
}

/// An act, and where its events stand in a history.
#[derive(Clone, Copy)]
pub(crate) struct Row<'a> {
    pub(crate) act: &'a Act,
    pub(crate) parent: Option<(OpNo, Class)>,
    pub(crate) lane: Lane,
    /// A dispatch that executes inside its call.
    pub(crate) is_inline: bool,
    pub(crate) called: Seen,
    pub(crate) back: Seen,
    pub(crate) taken: Seen,
    pub(crate) done: Seen,
    pub(crate) begun: Seen,
    pub(crate) ended: Seen,
    pub(crate) dropped: Seen,
    /// What its completion gave, and what its handler was given.
    pub(crate) gave: Option<(Code, u32)>,
    pub(crate) given: Option<(Code, u32)>,
}

impl<'a> Row<'a> {
    /// Whether its handler runs at this place.
    pub(crate) fn runs_at(&self, place: usize) -> bool {
        self.begun.is_before(place) && !self.ended.is_before(place)
    }

    /// Whether its call is open at this place.
    pub(crate) fn is_open_at(&self, place: usize) -> bool {
        self.called.is_before(place) && !self.back.is_before(place)
    }

    /// Whether the reactor has it at this place: it was taken, and hasn't completed.
    pub(crate) fn is_pending_at(&self, place: usize) -> bool {
        self.taken.is_before(place) && !self.done.is_before(place)
    }

    /// A post, a defer or a dispatch.
    pub(crate) fn is_posting(&self) -> bool {
        matches!(
            self.act,
            Act::Post { .. } | Act::Defer { .. } | Act::Dispatch { .. }
        )
    }
}

fn new_row(script: &Script, act: ActNo) -> Option<Row<'_>> {
    if act >= script.acts() {
        return None;
    }
    Some(Row {
        act: script.act(act),
        parent: script.parent_of(act),
        lane: script.lane_of(act),
        is_inline: script.is_inline(act),
        called: Seen::NEVER,
        back: Seen::NEVER,
        taken: Seen::NEVER,
        done: Seen::NEVER,
        begun: Seen::NEVER,
        ended: Seen::NEVER,
        dropped: Seen::NEVER,
        gave: None,
        given: None,
    })
}

/// Notes an event of the act.
fn note(row: &mut Row<'_>, place: usize, event: Event) {
    match event {
        Event::Call { .. } => row.called.note(place),
        Event::Back { .. } => row.back.note(place),
        Event::Take { .. } => row.taken.note(place),
        Event::End { .. } => row.ended.note(place),
        Event::Dropped { .. } => row.dropped.note(place),
        Event::Begin { code, size, .. } => {
            row.begun.note(place);
            row.given = Some((code, size));
        }
        Event::Done { code, size, .. } => {
            row.done.note(place);
            row.gave = Some((code, size));
        }
        _ => {}
    }
}

/// The act that an event is of, if of any.
pub(crate) fn act_of(event: Event) -> Option<ActNo> {
    match event {
        Event::Call { act } | Event::Back { act } | Event::Take { act } => Some(act),
        Event::Begin { op, .. } | Event::End { op, .. } => Some(op),
        Event::Done { op, .. } | Event::Dropped { op, .. } => Some(op),
        _ => None,
    }
}

/// A row for each act of the script, by its number.
pub(crate) fn rows_of<'a>(
    alloc: Global,
    script: &'a Script,
    events: &[Event],
) -> Result<Vec<Row<'a>>, NoMemory> {
    let mut rows = Vec::new(alloc);
    for act in 0..script.acts() {
        if let Some(row) = new_row(script, act) {
            rows.push(row)?;
        }
    }
    for (place, event) in events.iter().enumerate() {
        if let Some(act) = act_of(*event)
            && let Some(row) = rows.get_mut(act as usize)
        {
            note(row, place, *event);
        }
    }
    Ok(rows)
}
