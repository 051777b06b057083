//! All workers of a context, and the opener.
ghost use Rattle.std.specs.Prelude.{◌≡◌};

use crate::worker::Worker;
use crate::workers_apart::{OpenerApart, WorkersApart};
use lane_logs::LaneSession;
use lane_turns::{Baton, EndingRoom, Opener};
use op_handlers::CompletionHandler;
use reactor_trait::Reactor;
use std::marker::Model;

/// All workers of a context: as many as its greatest round has, and last the caller's own. With them
/// goes the seat of the opener, who makes the calls of `open`, and closes and restarts rounds (Asio
/// reference, io_context::run, ::restart).
pub struct Workers<'a, X: Reactor, H: CompletionHandler, N: LaneSession> {
    pub(crate) all: Vec<Worker<'a, X, H, N>>,
    pub(crate) opener: Opener<N>,
    // where the values of all lanes lie at an event; empty between
    pub(crate) bench: Vec<Baton<'a, X, H, N>>,
    // the memory for the end of the session
    pub(crate) room: EndingRoom<'a, H, N>,
}

impl<'a, X: Reactor, H: CompletionHandler, N: LaneSession> Model for Workers<'a, X, H, N> {
    ghost use Rattle.std.specs.Prelude.{◌≡◌, ◌≤◌, [], vec_capacity};
    ghost use Rattle.lane_turns.specs.AllWorkers.{WorkersView};
    ghost use Rattle.lane_logs.specs.SeatNumbers.{lane_count};

    ghost Value = { WorkersView H X };

    ghost view = { λ w. record { all = w.all.items; opener = w.opener } };

    ghost invariant = { λ w. record {
      none : w.bench.items ≡ [];
      room : lane_count N.names.script ≤ vec_capacity w.bench;
    } };
}

impl<'a, X: Reactor, H: CompletionHandler, N: LaneSession> Workers<'a, X, H, N> {
    /// Takes them apart, so that each can be used by itself. Takes no memory.
    pub fn apart(self) -> WorkersApart<'a, X, H, N>
        ensures all { result.all.items ≡ self.entry.all }
        ensures opener { result.opener ≡ self.entry.opener }
    {
        let Workers {
            all,
            opener,
            bench,
            room,
        } = self;
        let opener = OpenerApart {
            opener,
            bench,
            room,
        };
        WorkersApart { all, opener }
    }

    /// Puts them together again. Takes no memory.
    pub fn together(apart: WorkersApart<'a, X, H, N>) -> Workers<'a, X, H, N>
        ensures all { result.all ≡ apart.entry.all.items }
        ensures opener { result.opener ≡ apart.entry.opener }
    {
        let WorkersApart { all, opener } = apart;
        let OpenerApart {
            opener,
            bench,
            room,
        } = opener;
        Workers {
            all,
            opener,
            bench,
            room,
        }
    }
}
