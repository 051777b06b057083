//! The script of a context, and results of its operations while workers run.
ghost use Rattle.std.specs.Prelude.{◌≡◌, IfSome, true};
ghost use Rattle.lane_clock.specs.Seats.{own};
ghost use Rattle.lane_map.specs.LaneNumbers.{has_cell};
ghost use Rattle.lane_logs.specs.Receipts.{IsReceiptOf};
ghost use Rattle.lane_turns.specs.Receipts.{Finds};
ghost use Rattle.lane_turns.specs.Scanning.{GoesOn};

use crate::context::Context;
use crate::worker::Worker;
use asio_types::OpNo;
use lane_logs::{LaneSession, Receipt};
use lane_map::lanes_have_cells;
use lane_turns::operations_have_lanes;
use op_handlers::CompletionHandler;
use reactor_trait::Reactor;
use session_script::Script;

impl<'a, X: Reactor, H: CompletionHandler, N: LaneSession> Context<'a, X, H, N> {
    /// The script that it runs.
    pub fn script(&self) -> &'a Script
        ensures { result.now ≡ N.names.script }
    {
        self.script
    }

    /// The receipt of an operation that doesn't execute inside its call, where the worker finds that
    /// it is ready. `None` where each cell of the operation's lane, when it was looked at, held
    /// nothing or another operation. May be called while others execute handlers, and after the
    /// reactor failed. Takes no memory, waits for nobody, and takes time in proportion to the cells
    /// of that lane.
    pub fn result(&self, worker: &mut Worker<'a, X, H, N>, op: OpNo) -> Option<Receipt>
        requires op { has_cell N.names.script op ≡ true }
        ensures finds { Finds N.names.script op result worker.old.seat worker.new.seat }
        ensures receipt { IfSome result
            (IsReceiptOf N.names.script (own worker.new.seat.pen.seat)) }
        ensures turns { worker.new.turns ≡ worker.old.turns }
        ensures kept { worker.new.kept ≡ worker.old.kept }
        ensures last { worker.new.last ≡ worker.old.last }
        ensures on { GoesOn worker.old worker.new }
    {
        lanes_have_cells(self.script);
        operations_have_lanes(self.script);
        let lane = self.map.home(op);
        let cells = self.map.cells()[lane as usize];
        worker.seat.find(&self.clock, lane, cells, op)
    }
}
