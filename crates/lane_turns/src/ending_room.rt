//! The memory that the end of a session needs.
ghost use Rattle.std.specs.Prelude.{◌≡◌};

use crate::handler_baton::HandlerBaton;
use crate::log_rooms::worker_count;
use crate::parting::LanesLeft;
use crate::worker_seat::WorkerSeat;
use asio_types::{Event, NoMemory};
use lane_logs::{LaneSession, LogEntry};
use lane_map::{LaneMap, lanes_have_cells};
use op_handlers::{CompletionHandler, Handler};
use session_script::Script;
use std::alloc::Global;
use std::marker::Model;

/// The room for what a session leaves, with two marks for each act that aren't set.
pub struct LeavingRoom<'a, H = Handler> {
    pub left: LanesLeft<'a, H>,
    pub logs: Vec<Vec<LogEntry>>,
    pub drops: Vec<Event>,
    pub called: Vec<bool>,
    pub begun: Vec<bool>,
}

/// All memory that the end of a session needs. It is there before the session begins, so that the
/// end takes none.
pub struct EndingRoom<'a, H: CompletionHandler, N: LaneSession> {
    // where lanes and workers lie when the table of turns is closed
    pub batons: Vec<HandlerBaton<'a, H, N>>,
    pub seats: Vec<WorkerSeat<N>>,
    pub leaving: LeavingRoom<'a, H>,
}

impl<'a, H: CompletionHandler, N: LaneSession> Model for EndingRoom<'a, H, N> {
    ghost use Rattle.std.specs.Prelude.{◌≡◌, ◌≤◌, [], vec_capacity};
    ghost use Rattle.lane_map.specs.LaneNumbers.{reactor_lane};
    ghost use Rattle.lane_logs.specs.SeatNumbers.{worker_count};

    ghost Value = { Unit {0} };

    ghost use Rattle.lane_turns.specs.EndingRooms.{HasLeavingRoom};

    ghost view = { λ r. tt };

    ghost invariant = { λ r. record {
      no_batons : r.batons.items ≡ [];
      batons : reactor_lane N.names.script ≤ vec_capacity r.batons;
      no_seats : r.seats.items ≡ [];
      seats : worker_count N.names.script ≤ vec_capacity r.seats;
      leaving : HasLeavingRoom N.names.script r.leaving;
    } };
}

impl<'a, H: CompletionHandler, N: LaneSession> EndingRoom<'a, H, N> {
    /// Takes that memory, in proportion to the acts, lanes and workers; `NoMemory` where it is
    /// refused.
    pub fn make(
        alloc: Global,
        script: &Script,
        map: &LaneMap<'_>,
    ) -> Result<EndingRoom<'a, H, N>, NoMemory>
        requires script { script.now ≡ N.names.script }
        requires map { map.now ≡ script.now }
    {
        lanes_have_cells(script);
        let lanes = map.lanes() as usize;
        let strands = map.reactor() as usize;
        let workers = worker_count(script) as usize;
        let acts = script.acts() as usize;
        let seats = Vec::with_capacity(alloc, workers)?;
        let pens = Vec::with_capacity(alloc, lanes + workers)?;
        let missed = Vec::with_capacity(alloc, lanes)?;
        let logs = Vec::with_capacity(alloc, lanes + workers + 1)?;
        let drops = Vec::with_capacity(alloc, acts)?;
        let called = vec![in alloc; false; acts]?;
        let begun = vec![in alloc; false; acts]?;
        let hands = Vec::with_capacity(alloc, strands)?;
        let batons = match Vec::with_capacity(alloc, strands) {
            Ok(batons) => batons,
            Err(_refused) => {
                hands.destroy_empty();
                return Err(NoMemory);
            }
        };
        let left = LanesLeft {
            pens,
            missed,
            hands,
        };
        let leaving = LeavingRoom {
            left,
            logs,
            drops,
            called,
            begun,
        };
        Ok(EndingRoom {
            batons,
            seats,
            leaving,
        })
    }

    /// Lets go of it.
    pub fn free(self) {
        let EndingRoom {
            batons,
            seats: _,
            leaving,
        } = self;
        let LeavingRoom {
            left,
            logs: _,
            drops: _,
            called: _,
            begun: _,
        } = leaving;
        let LanesLeft {
            pens: _,
            missed: _,
            hands,
        } = left;
        batons.destroy_empty();
        hands.destroy_empty();
    }
}
