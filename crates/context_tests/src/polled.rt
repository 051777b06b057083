//! A session of one round by hand: its workers make calls one after another, its round is closed, and
//! its logs are put together.

ghost use Rattle.std.specs.Prelude.{◌≡◌, ◌≤◌, IsTrue, Some, length, slice_get};
ghost use Rattle.history_merge.specs.Room.{most_merged};
ghost use Rattle.lane_logs.specs.Logs.{session_layout};
ghost use Rattle.lane_turns.specs.AllWorkers.{AreCuts, AreReady};
ghost use Rattle.lane_turns.specs.Finishing.{IsOver};
ghost use Rattle.op_handlers.specs.Rack.{IsWholeRack, handlers_in};
ghost use Rattle.proactor_core.specs.Proactor.{tells};
ghost use Rattle.session_run.specs.LaneNames.{names_of};
ghost use Rattle.session_run.specs.LaneRounds.{AreClosed, HasBegun};
ghost use Rattle.session_script.specs.Limits.{most_acts};

use crate::asking::{Answer, Ask, nth_asked};
use crate::wanted::{MEMORY, is_answer};
use history_book::History;
use history_merge::{HistoryRoom, merge};
use lane_context::{Context, Parts, RoundEnd, Worker, Workers, WorkersApart};
use lane_logs::LaneSession;
use lane_map::LaneMap;
use op_handlers::{CompletionHandler, Rack};
use reactor_trait::Reactor;
use session_script::{Round, Script};
use std::alloc::Global;
use std::marker::Brand;
use std::process::Abort;
use std::sync::Wait;

/// The number of a worker, a call of it, and what it answers.
pub(crate) type Step = (usize, Ask, Answer);

/// The calls before a round is closed, and the script by which a failure is told.
#[derive(Clone, Copy)]
pub(crate) struct Steps<'a> {
    pub(crate) all: &'a [Step],
    pub(crate) script: &'a str,
}

/// Each of these calls answers what is wanted.
fn follow<'a, R: Abort, X: Reactor, H: CompletionHandler, N: LaneSession>(
    rt: &R,
    context: &Context<'a, X, H, N>,
    all: &mut [Worker<'a, X, H, N>],
    steps: &[Step],
    row: &str,
)
    requires ready { AreReady N.names.script context.now all.old }
    ensures ready { AreReady N.names.script context.now all.new }
{
    for &(number, call, want) in steps {
        assert!(rt; number < all.len());
        let answer = nth_asked(context, all, number, call);
        is_answer(rt, answer, want, row);
    }
}

/// Each of these calls answers what is wanted.
fn follow_in<'a, R: Abort, X: Reactor, H: CompletionHandler, N: LaneSession>(
    rt: &R,
    context: &Context<'a, X, H, N>,
    all: &mut Vec<Worker<'a, X, H, N>>,
    steps: &[Step],
    row: &str,
)
    requires ready { AreReady N.names.script context.now all.old.items }
    ensures ready { AreReady N.names.script context.now all.new.items }
{
    follow(rt, context, all.as_mut_slice(), steps, row);
}

/// Each of these calls answers what is wanted, before a round is closed.
fn follow_all<'a, R: Abort, X: Reactor, H: CompletionHandler, N: LaneSession>(
    rt: &R,
    context: &Context<'a, X, H, N>,
    workers: Workers<'a, X, H, N>,
    steps: &[Step],
    row: &str,
) -> Workers<'a, X, H, N>
    requires ready { AreReady N.names.script context.now workers.all }
    requires cuts { AreCuts N.names.script workers.opener }
    requires before { AreClosed 0 workers.opener.stand }
    ensures ready { AreReady N.names.script context.now result.all }
    ensures cuts { AreCuts N.names.script result.opener }
    ensures before { AreClosed 0 result.opener.stand }
{
    let WorkersApart { mut all, opener } = workers.apart();
    follow_in(rt, context, &mut all, steps, row);
    Workers::together(WorkersApart { all, opener })
}

/// Whether a script has no more than one round.
fn has_one_round(script: &Script) -> bool
    ensures { IsTrue result → length script.now.rounds ≡ 1 }
{
    script.rounds().len() == 1
}

/// Whether the first round begins without a restart.
fn begins_at_once<'a, X: Reactor, H: CompletionHandler, N: LaneSession>(
    round: &Round,
    workers: &Workers<'a, X, H, N>,
) -> bool
    requires round { slice_get N.names.script.rounds 0 ≡ Some round.now }
    requires before { AreClosed 0 workers.now.opener.stand }
    ensures begun { IsTrue result → HasBegun N.names.script 0 workers.now.opener.stand }
{
    if round.restart { false } else { true }
}

/// The only round of a script, which has begun, is closed.
fn close_begun<'a, R: Wait, X: Reactor, H: CompletionHandler, N: LaneSession>(
    rt: &R,
    context: &mut Context<'a, X, H, N>,
    workers: &mut Workers<'a, X, H, N>,
) -> RoundEnd
    requires only { length N.names.script.rounds ≡ 1 }
    requires ready { AreReady N.names.script context.old workers.old.all }
    requires cuts { AreCuts N.names.script workers.old.opener }
    requires begun { HasBegun N.names.script 0 workers.old.opener.stand }
    ensures ready { AreReady N.names.script context.new workers.new.all }
    ensures cuts { AreCuts N.names.script workers.new.opener }
    ensures over { IsOver N.names.script workers.new.opener }
{
    context.close_round(rt, workers)
}

/// The only round of a script, which needs no restart, is closed.
fn close_only<'a, R: Abort + Wait, X: Reactor, H: CompletionHandler, N: LaneSession>(
    rt: &R,
    script: &Script,
    context: &mut Context<'a, X, H, N>,
    workers: &mut Workers<'a, X, H, N>,
) -> RoundEnd
    requires script { script.now ≡ N.names.script }
    requires ready { AreReady N.names.script context.old workers.old.all }
    requires cuts { AreCuts N.names.script workers.old.opener }
    requires before { AreClosed 0 workers.old.opener.stand }
    ensures ready { AreReady N.names.script context.new workers.new.all }
    ensures cuts { AreCuts N.names.script workers.new.opener }
    ensures over { IsOver N.names.script workers.new.opener }
{
    let only = has_one_round(script);
    assert!(rt; only);
    let begun = begins_at_once(&script.rounds()[0], workers);
    assert!(rt; begun);
    close_begun(rt, context, workers)
}

/// What a session left: its logs put together, and how its round ended.
pub(crate) struct Left {
    pub(crate) history: History,
    pub(crate) last: RoundEnd,
}

/// What a session is made of beside its context.
struct Room<'a> {
    parts: Parts,
    map: &'a LaneMap<'a>,
    history: HistoryRoom,
}

/// Runs a script by these calls, with the names of this session and the clock of its parts.
fn poll_lanes<'a, N: LaneSession, R: Abort + Wait, X: Reactor, H: CompletionHandler>(
    rt: &R,
    alloc: Global,
    room: Room<'a>,
    script: &'a Script,
    reactor: X,
    rack: &mut Rack<H>,
    steps: Steps<'_>,
) -> Left
    requires names { N.names ≡ names_of H.marks script.now (tells (X.told reactor)) rack.old }
    requires faults { N.faults ≡ X.faults reactor }
    requires clock { room.parts ≡ N.clock }
    requires plan { room.parts.plan ≡ session_layout script.now }
    requires map { room.map.now ≡ script.now }
    requires history { most_merged script.now ≤ room.history }
    requires whole { IsWholeRack rack.old }
    requires count { length (handlers_in rack.old) ≡ most_acts }
{
    // The rack has a number for each act.
    prove!(script.acts() <= rack.count());
    let Room {
        parts,
        map,
        history,
    } = room;
    let made = Context::<X, H, N>::make(alloc, parts, script, map, rack, reactor);
    let (mut context, mut workers) = match made {
        Ok(made) => made,
        Err(_) => panic!(rt; "a context"),
    };
    context.opening(&mut workers);
    let mut workers = follow_all(rt, &context, workers, steps.all, steps.script);
    let last = close_only(rt, script, &mut context, &mut workers);
    let (logs, _) = context.finish(workers);
    let history = merge::<N>(&logs, script, history);
    Left { history, last }
}

/// Runs a script by these calls, before its only round is closed.
pub(crate) fn poll_script<R: Abort + Wait, X: Reactor, H: CompletionHandler>(
    rt: &R,
    alloc: Global,
    script: &Script,
    reactor: X,
    rack: &mut Rack<H>,
    steps: Steps<'_>,
) -> Left
    requires whole { IsWholeRack rack.old }
    requires count { length (handlers_in rack.old) ≡ most_acts }
{
    let map = LaneMap::make(alloc, script).expect(rt, MEMORY);
    let parts = Parts::make(alloc, script, &map).expect(rt, MEMORY);
    let history = HistoryRoom::make(alloc, script).expect(rt, MEMORY);
    let room = Room {
        parts,
        map: &map,
        history,
    };
    poll_lanes::<Brand, R, X, H>(rt, alloc, room, script, reactor, rack, steps)
}
