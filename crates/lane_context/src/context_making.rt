//! A context is made, with all its lanes and workers (Asio reference, io_context::io_context).
ghost use Rattle.std.specs.Prelude.{◌≡◌, [], IfErr, IfOk, OnErr, OnOk, length};
ghost use Rattle.op_handlers.specs.Rack.{handlers_in};
ghost use Rattle.proactor_core.specs.Proactor.{tells};
ghost use Rattle.lane_logs.specs.Logs.{session_layout};
ghost use Rattle.lane_logs.specs.SeatNumbers.{worker_count};
ghost use Rattle.lane_logs.specs.Stand.{first_stand};
ghost use Rattle.lane_turns.specs.AllWorkers.{AreReady};
ghost use Rattle.lane_context.specs.SessionRooms.{AreFresh};
ghost use Rattle.lane_context.specs.Setup.{HoldsNamed, IsRefused, TakesHandlers};

use crate::beginning::make_session;
use crate::context::Context;
use crate::parts::Parts;
use crate::session_room::SessionRoom;
use crate::workers::Workers;
use asio_types::SetupFault;
use lane_logs::LaneSession;
use lane_map::LaneMap;
use op_handlers::{CompletionHandler, Rack};
use reactor_trait::Reactor;
use session_script::Script;
use std::alloc::Global;

impl<'a, X: Reactor, H: CompletionHandler, N: LaneSession> Context<'a, X, H, N> {
    /// The context of a script's session, with these parts, and all its workers, before the first
    /// event (Asio reference, io_context::io_context). Sets the reactor up, and takes the handlers of
    /// the script's operations out of the rack. Takes all memory that the session needs, the room for
    /// its end too: later only hints take some. `Failed` comes only where the reactor failed. After a
    /// refusal the rack is as before, and the reactor comes back.
    pub fn make(
        alloc: Global,
        parts: Parts,
        script: &'a Script,
        map: &'a LaneMap<'a>,
        rack: &mut Rack<H>,
        reactor: X,
    ) -> Result<(Context<'a, X, H, N>, Workers<'a, X, H, N>), (SetupFault, X)>
        requires script { script.now ≡ N.names.script }
        requires clock { parts ≡ N.clock }
        requires plan { parts.plan ≡ session_layout script.now }
        requires map { map.now ≡ script.now }
        requires told { N.names.told ≡ tells (X.told reactor) }
        requires faults { N.faults ≡ X.faults reactor }
        requires marks { HoldsNamed N.names H.marks rack.old }
        ensures taken { OnOk result (TakesHandlers script.now rack.old rack.new) }
        ensures kept { OnErr result (handlers_in rack.new ≡ handlers_in rack.old) }
        ensures refused { IfErr result (λ back. IsRefused N.names.told N.faults (X.faults back.1)
            (X.state back.1) (X.told back.1) back.0) }
        ensures ready { IfOk result (λ made. AreReady N.names.script made.0 made.1.all) }
        ensures number { IfOk result (λ made. length made.1.all ≡ worker_count N.names.script) }
        ensures none { IfOk result (λ made. made.1.opener.pen.log ≡ []) }
        ensures first { IfOk result
            (λ made. made.1.opener.stand ≡ first_stand N.names.script) }
        ensures free { IfOk result (λ made. AreFresh made.1.all) }
    {
        let room = match SessionRoom::make(alloc, script, map) {
            Ok(room) => room,
            Err(_) => return Err((SetupFault::NoMemory, reactor)),
        };
        match make_session::<X, H, N>(alloc, parts, script, map, rack, reactor) {
            Ok((clock, begun)) => Ok(room.set_out(clock, script, map, begun)),
            Err(refusal) => {
                room.free();
                Err(refusal)
            }
        }
    }
}
