//! Looking for an operation among the cells of a lane.
ghost use Rattle.std.specs.Prelude.{◌≡◌, IfNone, IfSome, Some, false, slice_index};
ghost use Rattle.lane_logs.specs.Receipts.{holds_op, note_of};
ghost use Rattle.lane_logs.specs.SeatNumbers.{opener_seat};
ghost use Rattle.lane_turns.specs.Pens.{HasGone};
ghost use Rattle.lane_turns.specs.Receipts.{FindsIn, SeatHasGone};

use crate::opener::Opener;
use crate::pen::Pen;
use crate::worker_seat::WorkerSeat;
use asio_types::OpNo;
use lane_clock::{LaneClock, Note};
use lane_logs::{LaneSession, Receipt};

/// The receipt of an operation by what the cell at a place held, where that is its note.
fn receipt_of(held: Option<Note>, place: u32, op: OpNo) -> Option<Receipt>
    ensures note { IfSome result (λ receipt. held ≡ Some (note_of receipt)) }
    ensures place { IfSome result (λ receipt. receipt.place ≡ place) }
    ensures op { IfSome result (λ receipt. receipt.op ≡ op) }
    ensures other { IfNone result (holds_op op held ≡ false) }
{
    let note = held?;
    if note.op != op {
        return None;
    }
    Some(Receipt {
        op,
        place,
        code: note.code,
        size: note.size,
    })
}

impl Pen {
    /// Looks for an operation in the cells of a lane, each once, from the first on. A place may be
    /// drawn before its note is put, so an empty cell doesn't end it. Takes time in proportion to
    /// the cells.
    fn find(&mut self, clock: &LaneClock, lane: u32, cells: u32, op: OpNo) -> Option<Receipt>
        requires clock { self.old.seat.clock ≡ clock.now }
        requires cells { slice_index clock.now.plan.cells lane ≡ cells }
        ensures { FindsIn HasGone lane cells op result self.old self.new }
    {
        for place in 0..cells {
            let held = self.look(clock, lane, place);
            if let Some(receipt) = receipt_of(held, place, op) {
                return Some(receipt);
            }
        }
        None
    }
}

impl<N: LaneSession> WorkerSeat<N> {
    /// Looks for an operation in the cells of a lane.
    pub fn find(&mut self, clock: &LaneClock, lane: u32, cells: u32, op: OpNo) -> Option<Receipt>
        requires clock { clock.now ≡ N.clock }
        requires cells { slice_index clock.now.plan.cells lane ≡ cells }
        ensures { FindsIn SeatHasGone lane cells op result self.old self.new }
    {
        self.pen.find(clock, lane, cells, op)
    }
}

impl<N: LaneSession> Opener<N> {
    /// Looks for an operation in the cells of a lane.
    pub fn find(&mut self, clock: &LaneClock, lane: u32, cells: u32, op: OpNo) -> Option<Receipt>
        requires clock { clock.now ≡ N.clock }
        requires cells { slice_index clock.now.plan.cells lane ≡ cells }
        ensures found { FindsIn HasGone lane cells op result self.old.pen self.new.pen }
        ensures stand { self.new.stand ≡ self.old.stand }
        ensures number { self.old.pen.seat.number ≡ opener_seat N.names.script }
    {
        self.pen.find(clock, lane, cells, op)
    }
}
