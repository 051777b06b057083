//! The list of what executions posted, and the history of which it is a part.

ghost use Rattle.std.specs.Prelude.{◌≡◌, ◌∷◌, ◌++◌, []};
ghost use Rattle.strand_core.specs.declared.posted.Posted.{Posted};

use crate::wanted::MEMORY;
use asio_types::{ActNo, Code, Event, OpNo};
use op_handlers::Ran;
use session_script::Script;
use std::alloc::Global;
use std::process::Abort;
use strand_core::{Answered, Posted, Poster};

/// Keeps the list of its calls until it is cleared, and the events of all.
pub(crate) struct Listing<'a, R> {
    rt: R,
    script: &'a Script,
    posted: Vec<Posted>,
    events: Vec<Event>,
}

impl<'a, R: Abort> Listing<'a, R> {
    /// One that has no call.
    pub(crate) fn new(rt: R, alloc: Global, script: &'a Script) -> Listing<'a, R> {
        Listing {
            rt,
            script,
            posted: Vec::new(alloc),
            events: Vec::new(alloc),
        }
    }

    /// The calls since it was cleared.
    pub(crate) fn posted(&self) -> &[Posted] {
        self.posted.as_slice()
    }

    /// Forgets the calls so far, and none of their events.
    pub(crate) fn clear(&mut self) {
        self.posted.clear();
    }

    /// An event behind those so far.
    pub(crate) fn record(&mut self, event: Event)
        ensures { self.new.posted.items ≡ self.old.posted.items }
    {
        self.events.push(event).expect(&self.rt, MEMORY);
    }

    /// An act is called, by a handler or by `open`.
    pub(crate) fn note_call(&mut self, act: ActNo)
        ensures { self.new.posted.items ≡ self.old.posted.items ++ Posted.Call act ∷ [] }
    {
        self.record(Event::Call { act });
        if act < self.script.acts() && self.script.is_stop(act) {
            self.record(Event::Stop { act: Some(act) });
        }
        self.push(Posted::Call { act });
    }

    fn push(&mut self, posted: Posted)
        ensures { self.new.posted.items ≡ self.old.posted.items ++ posted ∷ [] }
    {
        self.posted.push(posted).expect(&self.rt, MEMORY);
    }
}

impl<'a, R: Copy> Listing<'a, R> {
    /// All events.
    pub(crate) fn into_events(self) -> Vec<Event> {
        let Listing {
            rt: _,
            script: _,
            posted: _,
            events,
        } = self;
        events
    }
}

impl<'a, R: Abort> Poster for Listing<'a, R> {
    ghost made = { λ p. p.posted.items };

    ghost takes = { λ p calls. Unit {0} };

    fn begin(&mut self, op: OpNo, code: Code, size: u32) -> u64 {
        let begun = self.events.len() as u64;
        self.record(Event::Begin { op, code, size });
        self.push(Posted::Begin {
            op,
            code,
            size,
            begun,
        });
        begun
    }

    fn call(&mut self, act: ActNo, answered: &Answered) {
        self.note_call(act);
    }

    fn back(&mut self, act: ActNo) {
        self.record(Event::Back { act });
        self.push(Posted::Back { act });
    }

    fn end(&mut self, op: OpNo, ran: Ran) {
        self.record(Event::End { op, mark: ran.mark });
        self.push(Posted::End { op, ran });
    }

    ghost first_part = { λ p first rest taken. tt };
}
