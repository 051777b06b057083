//! What completes in a turn of the reactor is told.
ghost use Rattle.std.specs.Prelude.{◌≡◌, ◌<◌, false, true};
ghost use Rattle.reactor_turns.specs.Turned.{IsTurned};
ghost use Rattle.lane_turns.specs.Posting.{FitsClock};
ghost use Rattle.lane_turns.specs.Turning.{HasTold, IsMidTurn, log_half};

use crate::pen::Pen;
use lane_clock::{LaneClock, Note};
use lane_logs::LaneSession;
use lane_map::{LaneMap, lanes_have_cells};
use proactor_core::Proactor;
use reactor_trait::Reactor;
use session_script::Script;

/// Tells the completion that is next; answers whether there was one.
fn tell_next<'a, X: Reactor, N: LaneSession>(
    clock: &LaneClock,
    script: &'a Script,
    map: &LaneMap<'a>,
    pen: &mut Pen,
    proactor: &mut Proactor<'a, X>,
) -> bool
    requires clock { pen.old.seat.clock ≡ clock.now }
    requires script { script.now ≡ N.names.script }
    requires map { map.now ≡ script.now }
    requires fits { FitsClock script.now clock.now }
    requires turn { IsMidTurn N.names X.state X.told pen.old proactor.old }
    ensures turn { IsMidTurn N.names X.state X.told pen.new proactor.new }
    ensures clock { pen.new.seat.clock ≡ pen.old.seat.clock }
    ensures reactor { proactor.new.reactor ≡ proactor.old.reactor }
    ensures told { HasTold N.names pen.old pen.new }
    ensures fewer { result ≡ true → pen.new.room < pen.old.room }
    ensures whole { result ≡ false →
        IsTurned X.state X.told (log_half N.names pen.new.log) proactor.new }
{
    lanes_have_cells(script);
    match proactor.next_due() {
        Some((op, code, size)) => {
            let lane = map.home(op);
            pen.tell(clock, script, lane, Note { op, code, size });
            true
        }
        None => false,
    }
}

/// Tells all that completes in this turn.
pub fn tell_all<'a, X: Reactor, N: LaneSession>(
    clock: &LaneClock,
    script: &'a Script,
    map: &LaneMap<'a>,
    pen: &mut Pen,
    proactor: &mut Proactor<'a, X>,
)
    requires clock { pen.old.seat.clock ≡ clock.now }
    requires script { script.now ≡ N.names.script }
    requires map { map.now ≡ script.now }
    requires fits { FitsClock script.now clock.now }
    requires turn { IsMidTurn N.names X.state X.told pen.old proactor.old }
    ensures turn { IsMidTurn N.names X.state X.told pen.new proactor.new }
    ensures reactor { proactor.new.reactor ≡ proactor.old.reactor }
    ensures told { HasTold N.names pen.old pen.new }
    ensures whole { IsTurned X.state X.told (log_half N.names pen.new.log) proactor.new }
{
    while tell_next::<X, N>(clock, script, map, pen, proactor) {}
}
