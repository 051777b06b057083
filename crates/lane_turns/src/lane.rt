ghost use Rattle.std.specs.Prelude.{◌≡◌, ◌+◌, ◌^◌, ◌<◌, Some};
ghost use Rattle.std.specs.Option.{option_or};

use crate::pen::Pen;
use asio_types::OpNo;
use std::marker::Model;

/// Where a lane stands.
#[derive(Clone, Copy)]
pub struct LaneStanding {
    // its number
    pub lane: u32,
    // how many of its notes were executed or taken
    pub place: u32,
    // the stops that the last restart found, or a number that no stops are where no round is open
    pub base: u64,
    // whether time may pass
    pub running: bool,
    // the operation that was missed first
    pub missed: Option<OpNo>,
}

impl LaneStanding {
    /// After one more note that was executed or taken.
    pub fn one_place_on(self) -> LaneStanding
        requires { self.place + 1 < 2 ^ 32 }
        ensures { result ≡ record self { place = self.place + 1 } }
    {
        LaneStanding {
            lane: self.lane,
            place: self.place + 1,
            base: self.base,
            running: self.running,
            missed: self.missed,
        }
    }

    /// After a miss, of which the first is kept.
    pub fn missed_too(self, op: OpNo) -> LaneStanding
        ensures { result ≡ record self { missed = option_or self.missed (Some op) } }
    {
        LaneStanding {
            lane: self.lane,
            place: self.place,
            base: self.base,
            running: self.running,
            missed: self.missed.or(Some(op)),
        }
    }
}

/// What each lane keeps from one turn to the next.
#[derive(Drop)]
pub struct LaneState {
    pub pen: Pen,
    pub at: LaneStanding,
}

impl Model for LaneState {
    ghost use Rattle.lane_turns.specs.Batons.{LaneView};

    ghost Value = { LaneView };

    ghost view = { λ l. record {
      lane = l.at.lane;
      pen = l.pen;
      place = l.at.place;
      base = l.at.base;
      running = l.at.running;
      missed = l.at.missed;
    } };
}
