//! A session by hand: an executor polls the tasks of its two workers in one thread, then its round is
//! closed, and its logs are put together.

ghost use Rattle.std.specs.Prelude.{◌≡◌, ◌≤◌, [], ◌∷◌, length, vec_capacity};
ghost use Rattle.history_merge.specs.Room.{most_merged};
ghost use Rattle.lane_logs.specs.Logs.{session_layout};
ghost use Rattle.lane_turns.specs.AllWorkers.{AreCuts, AreReady};
ghost use Rattle.lane_turns.specs.Finishing.{IsOver};
ghost use Rattle.op_future.specs.Futures.{MayEnd};
ghost use Rattle.op_future.specs.SeatedWorkers.{IsReadyAs};
ghost use Rattle.op_future.specs.Sessions.{HasOneRun};
ghost use Rattle.op_handlers.specs.Rack.{IsWholeRack, handlers_in};
ghost use Rattle.proactor_core.specs.Proactor.{tells};
ghost use Rattle.session_run.specs.LaneNames.{names_of};
ghost use Rattle.session_run.specs.LaneRounds.{AreClosed};
ghost use Rattle.session_script.specs.Limits.{most_acts};

use crate::listed::Listed;
use crate::looking::{Lookout, looking_rack};
use crate::sessions::NOBODY;
use asio_types::{Code, OpNo};
use futures::executor::block_on;
use futures::future::join;
use history_book::History;
use history_merge::{HistoryRoom, merge};
use lane_context::{Context, Parts, Worker, Workers, WorkersApart};
use lane_logs::{LaneSession, Receipt};
use lane_map::LaneMap;
use op_future::{LanesNamed, SeatedWorker, Task, TaskEnd, TaskFuture, has_one_run};
use op_handlers::{CompletionHandler, Rack};
use reactor_script::ScriptReactor;
use reactor_trait::Reactor;
use session_script::{Script, read_script};
use std::alloc::{AllocGlobal, Global};
use std::marker::Brand;
use std::process::Abort;
use std::random::RandomSource;
use std::sync::Wait;
use std::sync::atomic::AtomicBool;

/// The workers of two tasks, the caller's own, and the vector that they were in.
struct Three<'a, X: Reactor, H: CompletionHandler, N: LaneSession> {
    first: Worker<'a, X, H, N>,
    second: Worker<'a, X, H, N>,
    own: Worker<'a, X, H, N>,
    rest: Vec<Worker<'a, X, H, N>>,
}

/// Takes three workers out of their vector, which has room for them then.
fn three_of<'a, X: Reactor, H: CompletionHandler, N: LaneSession>(
    all: Vec<Worker<'a, X, H, N>>,
) -> Three<'a, X, H, N>
    requires three { length all.items ≡ 3 }
    ensures all { all.entry.items ≡ result.first ∷ result.second ∷ result.own ∷ [] }
    ensures none { result.rest.items ≡ [] }
    ensures room { 3 ≤ vec_capacity result.rest }
{
    let mut rest = all;
    let Some(own) = rest.pop() else {
        unreachable!()
    };
    let Some(second) = rest.pop() else {
        unreachable!()
    };
    let Some(first) = rest.pop() else {
        unreachable!()
    };
    Three {
        first,
        second,
        own,
        rest,
    }
}

/// All workers behind the polls, and how the tasks ended.
struct Joined<'a, X: Reactor, H: CompletionHandler, N: LaneSession> {
    workers: Workers<'a, X, H, N>,
    ends: (TaskEnd, TaskEnd),
}

/// The worker again, which still has this number.
fn leave_as<'a, R: Abort, X: Reactor, H: CompletionHandler, N: LaneSession, L: LanesNamed>(
    rt: &R,
    seated: SeatedWorker<'a, X, H, N, L>,
    number: usize,
) -> Worker<'a, X, H, N>
    ensures ready { IsReadyAs N.names.script L.lanes number result }
{
    if seated.number() != number {
        panic!(rt; "another worker");
    }
    seated.leave()
}

/// An executor polls a task for each worker but the caller's own.
fn run_joined<'a, R, X, H, N, L, T>(
    rt: &R,
    context: &Context<'a, X, H, N>,
    workers: Workers<'a, X, H, N>,
    one: &mut T,
    other: &mut T,
) -> Joined<'a, X, H, N>
where
    R: Abort + Wait + RandomSource + AllocGlobal,
    X: Reactor,
    H: CompletionHandler,
    N: LaneSession,
    L: LanesNamed,
    T: Task,
    requires lanes { context.now ≡ L.lanes }
    requires ready { AreReady N.names.script context.now workers.all }
    requires three { length workers.all ≡ 3 }
    ensures ready { AreReady N.names.script context.now result.workers.all }
    ensures opener { result.workers.opener ≡ workers.entry.opener }
    ensures end { MayEnd N.names.script result.ends.0 }
    ensures other_end { MayEnd N.names.script result.ends.1 }
{
    let WorkersApart { all, opener } = workers.apart();
    let Three {
        first,
        second,
        own,
        mut rest,
    } = three_of(all);
    let mut first = SeatedWorker::<X, H, N, L>::of(first, 0);
    let mut second = SeatedWorker::<X, H, N, L>::of(second, 1);
    let both = join(
        TaskFuture::of(context, &mut first, one),
        TaskFuture::of(context, &mut second, other),
    );
    let ends = block_on(rt, both).expect(rt, "an executor");
    rest.push_reserved(leave_as(rt, first, 0));
    rest.push_reserved(leave_as(rt, second, 1));
    rest.push_reserved(own);
    Joined {
        workers: Workers::together(WorkersApart { all: rest, opener }),
        ends,
    }
}

/// The only round of a script is closed.
fn close_only<'a, R: Wait, X: Reactor, H: CompletionHandler, N: LaneSession>(
    rt: &R,
    context: &mut Context<'a, X, H, N>,
    workers: &mut Workers<'a, X, H, N>,
)
    requires only { HasOneRun N.names.script 2 }
    requires ready { AreReady N.names.script context.old workers.old.all }
    requires cuts { AreCuts N.names.script workers.old.opener }
    requires before { AreClosed 0 workers.old.opener.stand }
    ensures ready { AreReady N.names.script context.new workers.new.all }
    ensures cuts { AreCuts N.names.script workers.new.opener }
    ensures over { IsOver N.names.script workers.new.opener }
{
    context.close_round(rt, workers);
}

/// What a session is made of beside its context.
struct Room<'a> {
    parts: Parts,
    map: &'a LaneMap<'a>,
    history: HistoryRoom,
}

/// Runs a script so, with the names of this session and the clock of its parts.
fn join_lanes<'a, N, R, X, H, T>(
    rt: &R,
    alloc: Global,
    room: Room<'a>,
    script: &'a Script,
    reactor: X,
    rack: &mut Rack<H>,
    one: &mut T,
    other: &mut T,
) -> (History, (TaskEnd, TaskEnd))
where
    N: LaneSession,
    R: Abort + Wait + RandomSource + AllocGlobal,
    X: Reactor,
    H: CompletionHandler,
    T: Task,
    requires names { N.names ≡ names_of H.marks script.now (tells (X.told reactor)) rack.old }
    requires faults { N.faults ≡ X.faults reactor }
    requires clock { room.parts ≡ N.clock }
    requires plan { room.parts.plan ≡ session_layout script.now }
    requires map { room.map.now ≡ script.now }
    requires history { most_merged script.now ≤ room.history }
    requires only { HasOneRun script.now 2 }
    requires whole { IsWholeRack rack.old }
    requires count { length (handlers_in rack.old) ≡ most_acts }
{
    // The rack has a number for each act.
    prove!(script.acts() <= rack.count());
    let Room {
        parts,
        map,
        history,
    } = room;
    let made = Context::<X, H, N>::make(alloc, parts, script, map, rack, reactor);
    let (mut context, mut workers) = match made {
        Ok(made) => made,
        Err(_) => panic!(rt; "a context"),
    };
    context.opening(&mut workers);
    let Joined { mut workers, ends } = run_joined::<R, X, H, N, Brand, T>(
        rt, &context, workers, one, other,
    );
    close_only(rt, &mut context, &mut workers);
    let (logs, _) = context.finish(workers);
    (merge::<N>(&logs, script, history), ends)
}

/// Runs a script so, with two tasks.
fn join_script<R, X, H, T>(
    rt: &R,
    alloc: Global,
    script: &Script,
    reactor: X,
    rack: &mut Rack<H>,
    one: &mut T,
    other: &mut T,
) -> (History, (TaskEnd, TaskEnd))
where
    R: Abort + Wait + RandomSource + AllocGlobal,
    X: Reactor,
    H: CompletionHandler,
    T: Task,
    requires only { HasOneRun script.now 2 }
    requires whole { IsWholeRack rack.old }
    requires count { length (handlers_in rack.old) ≡ most_acts }
{
    let map = LaneMap::make(alloc, script).expect(rt, "memory");
    let parts = Parts::make(alloc, script, &map).expect(rt, "memory");
    let history = HistoryRoom::make(alloc, script).expect(rt, "memory");
    let room = Room {
        parts,
        map: &map,
        history,
    };
    join_lanes::<Brand, R, X, H, T>(rt, alloc, room, script, reactor, rack, one, other)
}

const TWO: &str = "session 1 open { post - { } post - { } } run 2";

/// The receipt of one of its operations.
const fn posted(op: OpNo) -> Receipt {
    Receipt {
        op,
        place: 0,
        code: Code::Ok,
        size: 0,
    }
}

/// A task that wants this.
fn wants<'w, R: Abort>(
    rt: &R,
    alloc: Global,
    wanted: &'w [OpNo],
    flag: &'w AtomicBool,
) -> Listed<'w> {
    let room = Vec::with_capacity(alloc, wanted.len()).expect(rt, "memory");
    Listed::of(wanted, room, flag)
}

#[test]
fn an_executor_polls_two_tasks_of_one_context(rt: HostRuntime) {
    let alloc = rt.alloc();
    let flag = AtomicBool::new(false);
    let lookout = Lookout {
        op: NOBODY,
        flag: &flag,
        seen: &flag,
    };
    let script = read_script(alloc, TWO.as_bytes()).expect(&rt, "a script");
    if !has_one_run(&script, 2) {
        panic!(&rt; "not one round");
    }
    let mut rack = looking_rack(&rt, alloc, lookout);
    let reactor = ScriptReactor::make(alloc, &[]).expect(&rt, "memory");
    let mut one = wants(&rt, alloc, &[0], &flag);
    let mut other = wants(&rt, alloc, &[1], &flag);
    let (_, ends) = join_script(
        &rt, alloc, &script, reactor, &mut rack, &mut one, &mut other,
    );
    rack.discard_all();
    assert_eq!(&rt; ends, (TaskEnd::Done, TaskEnd::Done));
    assert_eq!(&rt; one.receipts(), [posted(0)].as_slice());
    assert_eq!(&rt; other.receipts(), [posted(1)].as_slice());
}
