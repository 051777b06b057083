//! The values of all lanes, when the table of turns is closed, by what they are.
ghost use Rattle.std.specs.Prelude.{◌≡◌, ◌<◌, ◌≤◌, ◌∷◌, ◌++◌, [], Some, length, map, vec_capacity};
ghost use Rattle.turn_table.specs.Laid.{AreAtHome};
ghost use Rattle.lane_map.specs.LaneNumbers.{reactor_lane};
ghost use Rattle.lane_logs.specs.SeatNumbers.{lane_count};
ghost use Rattle.lane_turns.specs.LaneValues.{handlers, home_of, reactor};

use crate::baton::{Baton, BatonKind};
use crate::handler_baton::HandlerBaton;
use crate::reactor_baton::ReactorBaton;
use lane_logs::LaneSession;
use op_handlers::CompletionHandler;
use reactor_trait::Reactor;

impl<'a, X: Reactor, H: CompletionHandler, N: LaneSession> Baton<'a, X, H, N> {
    /// The lane on which handlers execute, out of its box.
    fn into_handlers(self) -> HandlerBaton<'a, H, N>
        requires lane { home_of self < reactor_lane N.names.script }
        ensures { self.entry ≡ handlers (Some result) }
    {
        let Baton { kind } = self;
        match kind {
            BatonKind::Handlers(slot) => slot.into_inner(),
            BatonKind::Reactor(slot) => {
                let baton = slot.into_inner();
                baton.is_one();
                unreachable!()
            }
        }
    }

    /// The reactor's lane, out of its box.
    fn into_reactor(self) -> ReactorBaton<'a, X, N>
        requires lane { home_of self ≡ reactor_lane N.names.script }
        ensures { self.entry ≡ reactor (Some result) }
    {
        let Baton { kind } = self;
        match kind {
            BatonKind::Handlers(slot) => {
                let baton = slot.into_inner();
                baton.is_one();
                unreachable!()
            }
            BatonKind::Reactor(slot) => slot.into_inner(),
        }
    }
}

/// The lanes on which handlers execute, in the order of their numbers, and the reactor's, which is
/// the last.
pub struct LaneBatons<'a, X: Reactor, H: CompletionHandler, N: LaneSession> {
    pub handlers: Vec<HandlerBaton<'a, H, N>>,
    pub reactor: ReactorBaton<'a, X, N>,
}

/// Takes the values of all lanes out of their boxes. `room` is where those go on which handlers
/// execute.
pub fn part_values<'a, X: Reactor, H: CompletionHandler, N: LaneSession>(
    values: Vec<Baton<'a, X, H, N>>,
    room: Vec<HandlerBaton<'a, H, N>>,
) -> LaneBatons<'a, X, H, N>
    requires count { length values.items ≡ lane_count N.names.script }
    requires home { AreAtHome home_of values.items }
    requires none { room.items ≡ [] }
    requires room { reactor_lane N.names.script ≤ vec_capacity room }
    ensures { values.entry.items ≡ map (λ baton. handlers (Some baton)) result.handlers.items
        ++ reactor (Some result.reactor) ∷ [] }
{
    let mut rest = values;
    let last = rest.take_last();
    let reactor = last.into_reactor();
    let mut all = room;
    let mut lanes = rest.into_iter();
    while let Some(value) = lanes.next() {
        all.push_reserved(value.into_handlers());
    }
    lanes.destroy_empty();
    LaneBatons {
        handlers: all,
        reactor,
    }
}
