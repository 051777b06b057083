//! A worker at an event of the opener.
use crate::worker::Worker;
use lane_clock::LaneClock;
use lane_logs::LaneSession;
use lane_turns::{Attendee, Opener};
use op_handlers::CompletionHandler;
use reactor_trait::Reactor;
use session_script::Script;

impl<'a, X: Reactor, H: CompletionHandler, N: LaneSession> Attendee<N> for Worker<'a, X, H, N> {
    ghost use Rattle.lane_turns.specs.Besides.{besides_of};

    ghost seat = { λ w. w.seat.pen.seat };

    ghost base = { λ w. w.seat.round.base };

    ghost running = { λ w. w.seat.round.running };

    ghost place = { λ w. 0 };

    ghost rest = { besides_of };

    fn report(&mut self, opener: &mut Opener<N>, clock: &LaneClock) {
        self.seat.report(opener, clock);
    }

    fn attend(&mut self, opener: &mut Opener<N>, clock: &LaneClock, script: &Script) {
        self.seat.attend(opener, clock, script);
    }
}
