ghost use Rattle.std.specs.Prelude.{◌≡◌, IfOk};
ghost use Rattle.lane_clock.specs.Seats.{all_left};
ghost use Rattle.lane_logs.specs.Logs.{session_layout};

use asio_types::NoMemory;
use lane_clock::{LaneClock, SeatList};
use lane_map::{LaneMap, lanes_have_cells};
use lane_turns::worker_count;
use session_script::{Script, scripts_are_well_formed};
use std::alloc::Global;
use std::marker::Model;

/// What a context without a lock is made of: the clock of a session that hasn't begun, and all its
/// seats. Contracts see which clock it is.
#[derive(Drop)]
pub struct Parts {
    pub(crate) clock: LaneClock,
    pub(crate) seats: SeatList,
}

impl Model for Parts {
    ghost use Rattle.std.specs.Prelude.{◌≡◌};
    ghost use Rattle.lane_clock.specs.Seats.{ClockId, all_left};

    ghost Value = { ClockId };

    ghost view = { λ p. p.clock };

    ghost invariant = { λ p. p.seats ≡ all_left p.clock };
}

impl Parts {
    /// The clock of a script's session, whose work are the script's guards, and its seats: one for
    /// each lane of its map, for each worker and for the opener. There is a worker more than any round has,
    /// who is the caller. Takes time and memory in proportion to the acts; `NoMemory` where it is
    /// refused.
    pub fn make(alloc: Global, script: &Script, map: &LaneMap<'_>) -> Result<Parts, NoMemory>
        requires { map.now ≡ script.now }
        ensures { IfOk result (λ parts. parts.plan ≡ session_layout script.now) }
    {
        scripts_are_well_formed(script);
        lanes_have_cells(script);
        let workers = worker_count(script);
        let (clock, seats) = LaneClock::make(alloc, map.cells(), workers, script.guards() as u32)?;
        Ok(Parts { clock, seats })
    }
}
