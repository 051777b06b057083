//! A session of tasks.
ghost use Rattle.std.specs.Prelude.{◌≡◌, ◌↔◌, ◌≤◌, ◌^◌, false, length, map, IfErr, IfOk, IsTrue, OnOk};
ghost use Rattle.execution_laws.specs.Finished.{IsFinished};
ghost use Rattle.execution_laws.specs.LetGo.{is_initiated, let_go_marks};
ghost use Rattle.execution_laws.specs.Setup.{IsRefused, TakesHandlers};
ghost use Rattle.history_merge.specs.Room.{most_merged};
ghost use Rattle.history_rules.specs.Legal.{state_of};
ghost use Rattle.lane_logs.specs.Logs.{session_layout};
ghost use Rattle.op_future.specs.Seats.{IsRoomFor};
ghost use Rattle.op_future.specs.Sessions.{AreEndsOf, HasOneRun, HaveGot};
ghost use Rattle.op_handlers.specs.Rack.{IsWholeRack, handlers_in};
ghost use Rattle.proactor_core.specs.Proactor.{tells};
ghost use Rattle.session_run.specs.LaneNames.{names_of};
ghost use Rattle.session_run.specs.RackMarks.{drop_mark, drop_marks_but, rack_run_mark};

use crate::ending::ends_by;
use crate::gathering::{Gathered, gather_all};
use crate::report::TaskReport;
use crate::rounds::run_round;
use crate::seats::SeatRoom;
use crate::task::Task;
use crate::task_end::TaskEnd;
use asio_types::SetupFault;
use history_merge::{HistoryRoom, merge, receipts_hold, unfound_at_rest_are_absent};
use lane_context::{Context, Parts};
use lane_logs::LaneSession;
use lane_map::LaneMap;
use op_handlers::{CompletionHandler, Rack};
use reactor_trait::Reactor;
use session_script::{Pace, Script, scripts_are_well_formed};
use std::alloc::Global;
use std::marker::Brand;
use std::sync::Wait;
use std::thread::Threads;

/// Whether a script has one round, in which so many workers call `run`, without a restart.
pub fn has_one_run(script: &Script, count: usize) -> bool
    ensures { IsTrue result ↔ HasOneRun script.now count }
{
    match script.rounds() {
        [round] => {
            !round.restart && round.pace == Pace::Run && usize::from(round.workers) == count
        }
        _ => false,
    }
}

/// What a session of tasks is made of beside its context and its seats: all of it before the first
/// handler is taken.
struct Room<'a> {
    parts: Parts,
    map: &'a LaneMap<'a>,
    history: HistoryRoom,
    found: Vec<Option<TaskEnd>>,
    ends: Vec<TaskEnd>,
}

/// Runs a session of tasks; the names are those of this session, the clock that of its parts.
fn run_lanes<
    'a,
    N: LaneSession + Send + Sync,
    R: Threads + Wait + Sync,
    X: Reactor + Send,
    H: CompletionHandler + Send,
    T: Task + Send,
>(
    rt: &R,
    alloc: Global,
    room: Room<'a>,
    script: &'a Script,
    rack: &mut Rack<H>,
    reactor: X,
    tasks: Vec<T>,
) -> Result<TaskReport<X, T>, (SetupFault, X)>
    requires names { N.names ≡ names_of H.marks script.now (tells (X.told reactor)) rack.old }
    requires faults { N.faults ≡ X.faults reactor }
    requires clock { room.parts ≡ N.clock }
    requires plan { room.parts.plan ≡ session_layout script.now }
    requires map { room.map.now ≡ script.now }
    requires history { most_merged script.now ≤ room.history }
    requires found { IsRoomFor (length tasks.items) room.found }
    requires ends { IsRoomFor (length tasks.items) room.ends }
    requires round { HasOneRun script.now (length tasks.items) }
    requires whole { IsWholeRack rack.old }
    requires count { length script.now.acts ≤ length (handlers_in rack.old) }
    ensures taken { OnOk result (TakesHandlers script.now rack.old rack.new) }
    ensures refused { IfErr result (λ back. IsRefused N.names.told N.faults (X.faults back.1)
        (X.state back.1) (X.told back.1) back.0) }
    ensures finished { IfOk result (λ report. IsFinished N.names.script N.names.told N.names.run
        N.names.drop false N.faults (X.faults report.reactor) report.history.events
        (X.state report.reactor) (X.told report.reactor)) }
    ensures let_go { IfOk result (λ report. report.let_go
        ≡ let_go_marks N.names.script N.names.told N.names.drop report.history.events) }
    ensures few { IfOk result (λ report. report.let_go ≤ 2 ^ 96) }
    ensures got { IfOk result (λ report. HaveGot N.names.script report.history.events
        (map T.state tasks.items) (map T.state report.tasks.items)) }
    ensures ended { IfOk result (λ report. AreEndsOf N.names.script report.history.events
        (map T.state report.tasks.items) report.ends.items) }
{
    // The rack has a number for each act.
    prove!(script.acts() <= rack.count());
    let Room {
        parts,
        map,
        history,
        found,
        ends,
    } = room;
    let Ok(seats) = SeatRoom::<X, H, N, T>::make(alloc, tasks.len()) else {
        return Err((SetupFault::NoMemory, reactor));
    };
    let made = Context::<X, H, N>::make(alloc, parts, script, map, rack, reactor);
    let (mut context, mut workers) = match made {
        Ok(made) => made,
        Err(refusal) => {
            seats.free();
            return Err(refusal);
        }
    };
    scripts_are_well_formed(script);
    receipts_hold();
    unfound_at_rest_are_absent();
    context.opening(&mut workers);
    let (workers, tasks) = run_round(rt, &mut context, workers, tasks, seats);
    let mut rest = context.rest(workers);
    let Gathered { tasks, ends: found } = gather_all(&mut rest, script, tasks, found);
    let (logs, reactor) = rest.finish();
    let let_go = logs.let_go();
    let history = merge::<N>(&logs, script, history);
    let ends = ends_by(&history, found.as_slice(), ends);
    Ok(TaskReport {
        history,
        ends,
        tasks,
        reactor,
        let_go,
    })
}

/// Such a session, with the handlers of a rack that keeps what isn't taken. Takes all memory first.
fn run_unlocked<
    R: Threads + Wait + Sync,
    X: Reactor + Send,
    H: CompletionHandler + Send,
    T: Task + Send,
>(
    rt: &R,
    alloc: Global,
    script: &Script,
    rack: &mut Rack<H>,
    reactor: X,
    tasks: Vec<T>,
) -> Result<TaskReport<X, T>, (SetupFault, X)>
    requires round { HasOneRun script.now (length tasks.items) }
    requires whole { IsWholeRack rack.old }
    requires count { length script.now.acts ≤ length (handlers_in rack.old) }
    ensures taken { OnOk result (TakesHandlers script.now rack.old rack.new) }
    ensures refused { IfErr result (λ back. IsRefused (tells (X.told reactor)) (X.faults reactor)
        (X.faults back.1) (X.state back.1) (X.told back.1) back.0) }
    ensures finished { IfOk result (λ report. IsFinished script.now (tells (X.told reactor))
        (rack_run_mark H.marks rack.old) (drop_mark H.marks rack.old) false (X.faults reactor)
        (X.faults report.reactor) report.history.events (X.state report.reactor)
        (X.told report.reactor)) }
    ensures let_go { IfOk result (λ report. report.let_go ≡ let_go_marks script.now
        (tells (X.told reactor)) (drop_mark H.marks rack.old) report.history.events) }
    ensures few { IfOk result (λ report. report.let_go ≤ 2 ^ 96) }
    ensures got { IfOk result (λ report. HaveGot script.now report.history.events
        (map T.state tasks.items) (map T.state report.tasks.items)) }
    ensures ended { IfOk result (λ report. AreEndsOf script.now report.history.events
        (map T.state report.tasks.items) report.ends.items) }
{
    let Ok(map) = LaneMap::make(alloc, script) else {
        return Err((SetupFault::NoMemory, reactor));
    };
    let Ok(parts) = Parts::make(alloc, script, &map) else {
        return Err((SetupFault::NoMemory, reactor));
    };
    let Ok(history) = HistoryRoom::make(alloc, script) else {
        return Err((SetupFault::NoMemory, reactor));
    };
    let Ok(found) = Vec::with_capacity(alloc, tasks.len()) else {
        return Err((SetupFault::NoMemory, reactor));
    };
    let Ok(ends) = Vec::with_capacity(alloc, tasks.len()) else {
        return Err((SetupFault::NoMemory, reactor));
    };
    let room = Room {
        parts,
        map: &map,
        history,
        found,
        ends,
    };
    run_lanes::<Brand, R, X, H, T>(rt, alloc, room, script, rack, reactor, tasks)
}

/// Runs a script of one round on a context without a lock, with a task for each of its workers: each
/// worker makes steps of its task until that ends, and then executes handlers until nothing is left
/// to do (Asio reference, io_context::run). Behind the round each task is handed what is still found
/// of what it wants. What the rack still holds then, or after a refusal, is discarded.
///
/// Each task ends as the history says of what it wants then: `Done` exactly where it got all,
/// `Unfit` exactly where it wants what is no operation or executes inside its call. Else what it wants
/// didn't complete, or if it is a posting wasn't called; then it is `Fault` where the history shows
/// that the reactor failed, else `Ended` where no work was left, else `Stopped`.
///
/// `Failed`: the reactor couldn't be set up. `NoMemory`: some memory wasn't given. Both come before
/// anything is run, and the tasks are dropped then. Takes all memory first. May wait, as a guard that
/// is never released does.
pub fn task_session<
    R: Threads + Wait + Sync,
    X: Reactor + Send,
    H: CompletionHandler + Send,
    T: Task + Send,
>(
    rt: &R,
    alloc: Global,
    script: &Script,
    rack: Rack<H>,
    reactor: X,
    tasks: Vec<T>,
) -> Result<TaskReport<X, T>, (SetupFault, X)>
    requires round { HasOneRun script.now (length tasks.items) }
    requires whole { IsWholeRack rack }
    requires count { length script.now.acts ≤ length (handlers_in rack) }
    ensures refused { IfErr result (λ back. IsRefused (tells (X.told reactor)) (X.faults reactor)
        (X.faults back.1) (X.state back.1) (X.told back.1) back.0) }
    ensures finished { IfOk result (λ report. IsFinished script.now (tells (X.told reactor))
        (rack_run_mark H.marks rack) (drop_mark H.marks rack) false (X.faults reactor)
        (X.faults report.reactor) report.history.events (X.state report.reactor)
        (X.told report.reactor)) }
    ensures let_go { IfOk result (λ report. report.let_go ≡ drop_marks_but H.marks
        (is_initiated script.now
        (state_of script.now (tells (X.told reactor)) report.history.events)) rack) }
    ensures got { IfOk result (λ report. HaveGot script.now report.history.events
        (map T.state tasks.items) (map T.state report.tasks.items)) }
    ensures ended { IfOk result (λ report. AreEndsOf script.now report.history.events
        (map T.state report.tasks.items) report.ends.items) }
{
    let mut rack = rack;
    let ran = run_unlocked(rt, alloc, script, &mut rack, reactor, tasks);
    let rest = rack.discard_all();
    match ran {
        Ok(mut report) => {
            report.let_go += rest;
            Ok(report)
        }
        Err(refusal) => Err(refusal),
    }
}
