ghost use Rattle.std.specs.Prelude.{◌≡◌, ◌≤◌, ◌+◌, [], ◌∷◌, ◌++◌, IfOk};
ghost use Rattle.history_book.specs.Trace.{AreEvents, HasItsNumbers};

use asio_types::{Event, NoMemory};
use std::alloc::Global;
use std::marker::Model;

/// The events of one io_context in order, and the room that is reserved for more.
#[derive(Debug, Drop)]
pub struct History {
    events: Vec<Event>,
    spare: u32,
}

impl Model for History {
    ghost use Rattle.std.specs.Prelude.{◌+◌, ◌≤◌, vec_len, vec_capacity};
    ghost use Rattle.history_book.specs.History.{Recorded};
    ghost use Rattle.history_book.specs.Trace.{AreEvents};

    ghost Value = { Recorded };

    ghost view = { λ h. record { events = h.events.items; spare = h.spare } };

    ghost invariant = { λ h.
        (vec_len h.events + h.spare ≤ vec_capacity h.events) × AreEvents h.events.items };
}

/// The numbers of an event fit their types: it is read, and nothing more.
fn numbers_fit(event: Event)
    ensures { HasItsNumbers event }
{
    match event {
        Event::Call { act } | Event::Back { act } | Event::Take { act } => {
            let _act = act;
        }
        Event::Stop { act } => {
            let _act = act;
        }
        Event::Begin { op, size, .. } | Event::Done { op, size, .. } => {
            let _numbers = (op, size);
        }
        Event::End { op, mark } | Event::Dropped { op, mark } => {
            let _numbers = (op, mark);
        }
        Event::Tick { now } => {
            let _now = now;
        }
        Event::Last
        | Event::Fault
        | Event::Ended
        | Event::Stopped
        | Event::Polled
        | Event::Restart => {}
    }
}

impl History {
    /// No events, with room for so many.
    pub fn with_room(alloc: Global, room: u32) -> Result<History, NoMemory>
        ensures { IfOk result (λ history. history ≡ record { events = []; spare = room }) }
    {
        Ok(History {
            events: Vec::with_capacity(alloc, room as usize)?,
            spare: room,
        })
    }

    /// Appends an event to the reserved room. Takes no memory.
    pub fn push_reserved(&mut self, event: Event)
        requires { 1 ≤ self.old.spare }
        ensures events { self.new.events ≡ self.old.events ++ event ∷ [] }
        ensures spare { self.new.spare + 1 ≡ self.old.spare }
    {
        numbers_fit(event);
        self.events.push_reserved(event);
        self.spare -= 1;
    }

    /// The events so far.
    pub fn events(&self) -> &[Event]
        ensures { result.now ≡ self.now.events }
    {
        self.events.as_slice()
    }

    /// The numbers of the events fit their types. Runs nothing.
    pub fn holds_events(&self)
        ensures { AreEvents self.now.events }
    {
        let _events = &self.events;
    }
}
