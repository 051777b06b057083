ghost use Rattle.std.specs.Prelude.{◌≡◌, ◌≤◌, [], IfOk, OnErr};
ghost use Rattle.asio_types.specs.Faults.{CountsFaults};

use crate::event_edge::edge_of;
use crate::token::WAKER;
use asio_types::Failed;
use io_reactor::Edges;
use mio::{Events, Poll};
use std::marker::Model;
use std::time::Duration;

/// The right to wait for the sockets of a reactor. Contracts see how often it has failed.
pub struct MioPoll {
    poll: Poll,
    events: Events,
    faults: u64,
}

impl Model for MioPoll {
    ghost use Rattle.std.specs.Prelude.{ℕ};

    ghost Value = { ℕ };

    ghost view = { λ p. p.faults };
}

/// The edges of these events; the waker's has none.
fn collect(events: &Events, edges: &mut Edges) {
    for event in events.iter() {
        if event.token() != WAKER && !edges.is_full() {
            edges.push_reserved(edge_of(event));
        }
    }
}

impl MioPoll {
    /// It never failed.
    pub(crate) fn of(poll: Poll, events: Events) -> MioPoll
        ensures { result ≡ 0 }
    {
        MioPoll {
            poll,
            events,
            faults: 0,
        }
    }

    /// Waits so many nanoseconds at most, or without end.
    pub(crate) fn wait(&mut self, timeout: Option<u64>, edges: &mut Edges) -> Result<(), Failed>
        ensures failed { OnErr result (edges.new ≡ []) }
        ensures counts { CountsFaults result self.old self.new }
        ensures later { self.old ≤ self.new }
    {
        edges.clear();
        let timeout = match timeout {
            Some(nanos) => Some(Duration::from_nanos(nanos)),
            None => None,
        };
        if self.poll.poll(&mut self.events, timeout).is_err() {
            self.faults = self.faults.saturating_add(1);
            return Err(Failed);
        }
        collect(&self.events, edges);
        Ok(())
    }

    pub(crate) fn destroy(self) {
        let MioPoll {
            poll: _,
            events: _,
            faults: _,
        } = self;
    }
}
