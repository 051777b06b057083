//! A script on the io_context without a lock.
ghost use Rattle.std.specs.Prelude.{◌≡◌, ◌≤◌, ◌^◌, false, length, IfErr, IfOk, OnErr, OnOk};
ghost use Rattle.execution_laws.specs.Finished.{IsFinished};
ghost use Rattle.execution_laws.specs.LetGo.{let_go_marks};
ghost use Rattle.execution_laws.specs.Setup.{IsRefused, TakesHandlers};
ghost use Rattle.history_merge.specs.Room.{most_merged};
ghost use Rattle.lane_logs.specs.Logs.{session_layout};
ghost use Rattle.op_handlers.specs.Rack.{IsWholeRack, handlers_in};
ghost use Rattle.proactor_core.specs.Proactor.{tells};
ghost use Rattle.session_run.specs.LaneNames.{names_of};
ghost use Rattle.session_run.specs.RackMarks.{drop_mark, rack_run_mark};
ghost use Rattle.session_script.specs.Limits.{most_acts};

use crate::lane_rounds::run_lane_rounds;
use asio_types::SetupFault;
use history_book::History;
use history_merge::{HistoryRoom, merge};
use lane_context::{Context, Parts};
use lane_logs::LaneSession;
use lane_map::LaneMap;
use op_handlers::{CompletionHandler, Rack};
use reactor_trait::Reactor;
use session_script::Script;
use std::alloc::Global;
use std::marker::Brand;
use std::sync::Wait;
use std::thread::Threads;

/// What a session without a lock is made of beside its context: all of it before the first handler
/// is taken.
struct Room<'a> {
    parts: Parts,
    map: &'a LaneMap<'a>,
    history: HistoryRoom,
}

/// Runs a script on a context without a lock; the names are those of this session, the clock that of
/// its parts.
fn run_lanes<
    'a,
    N: LaneSession + Send + Sync,
    R: Threads + Wait + Sync,
    X: Reactor + Send,
    H: CompletionHandler + Send,
>(
    rt: &R,
    alloc: Global,
    room: Room<'a>,
    script: &'a Script,
    reactor: X,
    rack: &mut Rack<H>,
) -> Result<(History, X, u128), (SetupFault, X)>
    requires names { N.names ≡ names_of H.marks script.now (tells (X.told reactor)) rack.old }
    requires faults { N.faults ≡ X.faults reactor }
    requires clock { room.parts ≡ N.clock }
    requires plan { room.parts.plan ≡ session_layout script.now }
    requires map { room.map.now ≡ script.now }
    requires history { most_merged script.now ≤ room.history }
    requires whole { IsWholeRack rack.old }
    requires count { length (handlers_in rack.old) ≡ most_acts }
    ensures taken { OnOk result (TakesHandlers script.now rack.old rack.new) }
    ensures kept { OnErr result (handlers_in rack.new ≡ handlers_in rack.old) }
    ensures refused { IfErr result (λ back. IsRefused N.names.told N.faults (X.faults back.1)
        (X.state back.1) (X.told back.1) back.0) }
    ensures ended { IfOk result (λ ran. IsFinished N.names.script N.names.told N.names.run N.names.drop
        false N.faults (X.faults ran.1) ran.0.events (X.state ran.1) (X.told ran.1)) }
    ensures let_go { IfOk result (λ ran.
        ran.2 ≡ let_go_marks N.names.script N.names.told N.names.drop ran.0.events) }
    ensures few { IfOk result (λ ran. ran.2 ≤ 2 ^ 96) }
{
    // The rack has a number for each act.
    prove!(script.acts() <= rack.count());
    let Room {
        parts,
        map,
        history,
    } = room;
    let made = Context::<X, H, N>::make(alloc, parts, script, map, rack, reactor);
    let (mut context, mut workers) = match made {
        Ok(made) => made,
        Err(refusal) => return Err(refusal),
    };
    context.opening(&mut workers);
    run_lane_rounds(rt, script, &mut context, &mut workers);
    let (logs, reactor) = context.finish(workers);
    let let_go = logs.let_go();
    Ok((merge::<N>(&logs, script, history), reactor, let_go))
}

/// How many bytes a session takes for an act: its share of the lanes, logs and rooms, rounded up.
const BYTES_OF_ACT: usize = 1_024;

/// Asks for as much memory as a session takes, in one piece, and gives it back untouched, or goes on
/// where it is refused. An allocator that has given a piece of this size keeps what it gets back (glibc
/// does: mallopt, "M_TRIM_THRESHOLD"). So the sessions of a program that runs many find their memory
/// there, and needn't take it from the system anew, page by page.
fn hint_memory(alloc: Global, script: &Script) {
    let bytes = BYTES_OF_ACT * script.acts() as usize;
    let _piece: Result<Vec<u8>, _> = Vec::with_capacity(alloc, bytes);
}

/// Runs a script on the io_context without a lock. Takes all memory first.
pub(crate) fn run_unlocked<
    R: Threads + Wait + Sync,
    X: Reactor + Send,
    H: CompletionHandler + Send,
>(
    rt: &R,
    alloc: Global,
    script: &Script,
    reactor: X,
    rack: &mut Rack<H>,
) -> Result<(History, X, u128), (SetupFault, X)>
    requires whole { IsWholeRack rack.old }
    requires count { length (handlers_in rack.old) ≡ most_acts }
    ensures taken { OnOk result (TakesHandlers script.now rack.old rack.new) }
    ensures kept { OnErr result (handlers_in rack.new ≡ handlers_in rack.old) }
    ensures refused { IfErr result (λ back. IsRefused (tells (X.told reactor)) (X.faults reactor)
        (X.faults back.1) (X.state back.1) (X.told back.1) back.0) }
    ensures ended { IfOk result (λ ran. IsFinished script.now (tells (X.told reactor))
        (rack_run_mark H.marks rack.old) (drop_mark H.marks rack.old) false (X.faults reactor)
        (X.faults ran.1) ran.0.events (X.state ran.1) (X.told ran.1)) }
    ensures let_go { IfOk result (λ ran. ran.2 ≡ let_go_marks script.now (tells (X.told reactor))
        (drop_mark H.marks rack.old) ran.0.events) }
    ensures few { IfOk result (λ ran. ran.2 ≤ 2 ^ 96) }
{
    hint_memory(alloc, script);
    let Ok(map) = LaneMap::make(alloc, script) else {
        return Err((SetupFault::NoMemory, reactor));
    };
    let Ok(parts) = Parts::make(alloc, script, &map) else {
        return Err((SetupFault::NoMemory, reactor));
    };
    let Ok(history) = HistoryRoom::make(alloc, script) else {
        return Err((SetupFault::NoMemory, reactor));
    };
    let room = Room {
        parts,
        map: &map,
        history,
    };
    run_lanes::<Brand, R, X, H>(rt, alloc, room, script, reactor, rack)
}
