ghost use Rattle.std.specs.Prelude.{◌≡◌, ◌<◌, length, IfOk};
ghost use Rattle.lane_map.specs.LaneNumbers.{asked_lane, cells_of, home_lane, lane_list, operations_on, rank_of, reactor_lane};

use crate::counting::{Ranking, cells, ranks};
use crate::homes::{homes, own_lanes};
use crate::law::lanes_are_numbered;
use asio_types::{ActNo, NoMemory, OpNo};
use session_script::{Act, Script};
use std::alloc::Global;
use std::marker::Model;

/// The numbers of a script's lanes: the strands from 0, then the private places of the operations
/// that have one, by rising number of the operation, and last the reactor (Asio reference,
/// Overview, "Strands: Use Threads Without Explicit Locking"). Each question costs a constant time
/// and takes no memory.
///
/// Contracts see the script that it was made for.
#[derive(Drop)]
pub struct LaneMap<'a> {
    script: &'a Script,
    // the number of the last lane
    reactor: u32,
    // of each act the number of its lane, and its rank there
    home: Vec<u32>,
    rank: Vec<u32>,
    // of each lane
    cells: Vec<u32>,
    operations: Vec<u32>,
}

impl<'a> Model for LaneMap<'a> {
    ghost use Rattle.std.specs.Prelude.{◌≡◌, ◌<◌, ◌^◌, ◌+◌, length, map};
    ghost use Rattle.std.specs.List.{range_with_len};
    ghost use Rattle.session_script.specs.Script.{ScriptModel};
    ghost use Rattle.lane_map.specs.LaneNumbers.{cells_of, home_lane, lane_list, operations_on, rank_of, reactor_lane};

    ghost Value = { ScriptModel };

    ghost view = { λ m. m.script.now };

    ghost invariant = { λ m. record {
      reactor : m.reactor ≡ reactor_lane m.script.now;
      few : m.reactor + 1 < 2 ^ 32;
      last : length (lane_list m.script.now) ≡ m.reactor + 1;
      home : m.home.items
          ≡ map (home_lane m.script.now) (range_with_len 0 (length m.script.now.acts));
      rank : m.rank.items ≡ map (rank_of m.script.now) (range_with_len 0 (length m.script.now.acts));
      cells : m.cells.items ≡ cells_of m.script.now;
      operations : m.operations.items
          ≡ map (operations_on m.script.now) (range_with_len 0 (length (lane_list m.script.now)));
    } };
}

impl<'a> LaneMap<'a> {
    /// The numbers of the lanes of a script. Takes time and memory in proportion to its acts and
    /// lanes.
    pub fn make(alloc: Global, script: &'a Script) -> Result<LaneMap<'a>, NoMemory>
        ensures { IfOk result (λ map. map ≡ script.now) }
    {
        let reactor = script.strands() as u32 + own_lanes(script);
        lanes_are_numbered(script);
        let home = homes(alloc, script)?;
        let Ranking { rank, operations } = ranks(alloc, script, home.as_slice(), reactor + 1)?;
        let cells = cells(alloc, script, home.as_slice(), reactor)?;
        Ok(LaneMap {
            script,
            reactor,
            home,
            rank,
            cells,
            operations,
        })
    }

    /// How many lanes there are; their numbers are below it.
    pub fn lanes(&self) -> u32
        ensures { result ≡ length (lane_list self.now) }
    {
        self.reactor + 1
    }

    /// The number of the reactor's lane, which is the last.
    pub fn reactor(&self) -> u32
        ensures { result ≡ reactor_lane self.now }
    {
        self.reactor
    }

    /// The number of the lane on which an operation executes. An inline operation has its caller's.
    pub fn home(&self, op: OpNo) -> u32
        requires { op < length self.now.acts }
        ensures { result ≡ home_lane self.now op }
    {
        self.home[op as usize]
    }

    /// The number of the lane where the call of an act places it: of a posting its own, of all
    /// others the reactor's.
    pub fn asked(&self, act: ActNo) -> u32
        requires { act < length self.now.acts }
        ensures { result ≡ asked_lane self.now act }
    {
        match self.script.act(act) {
            Act::Post { .. } | Act::Defer { .. } | Act::Dispatch { .. } => self.home(act),
            _ => self.reactor,
        }
    }

    /// How many operations of its lane have a smaller number.
    pub fn rank(&self, op: OpNo) -> u32
        requires { op < length self.now.acts }
        ensures { result ≡ rank_of self.now op }
    {
        self.rank[op as usize]
    }

    /// How many cells each lane has, by its number: one for each operation of the lane that isn't
    /// inline, and the reactor one for each asynchronous operation and control act.
    pub fn cells(&self) -> &[u32]
        ensures { result.now ≡ cells_of self.now }
    {
        self.cells.as_slice()
    }

    /// How many operations execute on a lane. Their ranks are the numbers below.
    pub fn operations(&self, lane: u32) -> u32
        requires { lane < length (lane_list self.now) }
        ensures { result ≡ operations_on self.now lane }
    {
        self.operations[lane as usize]
    }
}
