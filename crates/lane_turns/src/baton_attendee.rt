//! A lane at an event of the opener, whichever it is.
ghost use Rattle.std.specs.Prelude.{◌≡◌};
ghost use Rattle.lane_turns.specs.LaneOf.{has_failed};

use crate::attendee::{Attendee, LaneAttendee};
use crate::baton::{Baton, BatonKind};
use crate::opener::Opener;
use lane_clock::LaneClock;
use lane_logs::LaneSession;
use op_handlers::CompletionHandler;
use reactor_trait::Reactor;
use session_script::Script;

impl<'a, X: Reactor, H: CompletionHandler, N: LaneSession> Baton<'a, X, H, N> {
    /// Whether it is the reactor's, and that has failed.
    pub fn is_failed(&self) -> bool
        ensures { result ≡ has_failed self.now }
    {
        match &self.kind {
            BatonKind::Handlers(slot) => {
                let _baton = slot.get();
                false
            }
            BatonKind::Reactor(slot) => slot.get().is_failed(),
        }
    }
}

impl<'a, X: Reactor, H: CompletionHandler, N: LaneSession> Attendee<N> for Baton<'a, X, H, N> {
    ghost use Rattle.lane_turns.specs.Besides.{nothing_besides};
    ghost use Rattle.lane_turns.specs.LaneOf.{base_in, place_in, runs_in, seat_of};

    ghost seat = { seat_of };

    ghost base = { base_in };

    ghost running = { runs_in };

    ghost place = { place_in };

    ghost rest = { λ b. nothing_besides };

    fn report(&mut self, opener: &mut Opener<N>, clock: &LaneClock) {
        match &mut self.kind {
            BatonKind::Handlers(slot) => match &mut *slot.inside {
                Some(baton) => baton.report(opener, clock),
                None => unreachable!(),
            },
            BatonKind::Reactor(slot) => match &mut *slot.inside {
                Some(baton) => baton.report(opener, clock),
                None => unreachable!(),
            },
        }
    }

    fn attend(&mut self, opener: &mut Opener<N>, clock: &LaneClock, script: &Script) {
        match &mut self.kind {
            BatonKind::Handlers(slot) => match &mut *slot.inside {
                Some(baton) => baton.attend(opener, clock, script),
                None => unreachable!(),
            },
            BatonKind::Reactor(slot) => match &mut *slot.inside {
                Some(baton) => baton.attend(opener, clock, script),
                None => unreachable!(),
            },
        }
    }
}

impl<'a, X: Reactor, H: CompletionHandler, N: LaneSession> LaneAttendee<N> for Baton<'a, X, H, N> {
    fn number(&self) -> u32 {
        match &self.kind {
            BatonKind::Handlers(slot) => slot.get().number(),
            BatonKind::Reactor(slot) => slot.get().number(),
        }
    }

    fn next_place(&self) -> u32 {
        match &self.kind {
            BatonKind::Handlers(slot) => slot.get().next_place(),
            BatonKind::Reactor(slot) => slot.get().next_place(),
        }
    }

    fn has_failed(&self) -> bool {
        match &self.kind {
            BatonKind::Handlers(slot) => slot.get().has_failed(),
            BatonKind::Reactor(slot) => slot.get().has_failed(),
        }
    }
}
