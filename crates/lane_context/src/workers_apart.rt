//! All workers and the opener, apart: so that threads can have a worker each.
use crate::worker::Worker;
use lane_logs::LaneSession;
use lane_turns::{Baton, EndingRoom, Opener};
use op_handlers::CompletionHandler;
use reactor_trait::Reactor;
use std::marker::Model;

/// All workers, the caller's own last, and the opener.
pub struct WorkersApart<'a, X: Reactor, H: CompletionHandler, N: LaneSession> {
    pub all: Vec<Worker<'a, X, H, N>>,
    pub opener: OpenerApart<'a, X, H, N>,
}

/// The opener without the workers.
pub struct OpenerApart<'a, X: Reactor, H: CompletionHandler, N: LaneSession> {
    pub(crate) opener: Opener<N>,
    // where the values of all lanes lie at an event; empty between
    pub(crate) bench: Vec<Baton<'a, X, H, N>>,
    // the memory for the end of the session
    pub(crate) room: EndingRoom<'a, H, N>,
}

impl<'a, X: Reactor, H: CompletionHandler, N: LaneSession> Model for OpenerApart<'a, X, H, N> {
    ghost use Rattle.std.specs.Prelude.{◌≡◌, ◌≤◌, [], vec_capacity};
    ghost use Rattle.lane_turns.specs.Openers.{OpenerView};
    ghost use Rattle.lane_logs.specs.SeatNumbers.{lane_count};

    ghost Value = { OpenerView };

    ghost view = { λ o. o.opener };

    ghost invariant = { λ o. record {
      none : o.bench.items ≡ [];
      room : lane_count N.names.script ≤ vec_capacity o.bench;
    } };
}
