//! Running a group.
ghost use Rattle.std.specs.Prelude.{◌≡◌, ◌≤◌, [], false, Some, length, slice_get, vec_capacity, IfErr, IfOk};
ghost use Rattle.execution_laws.specs.Finished.{IsFinished};
ghost use Rattle.execution_laws.specs.LetGo.{is_initiated};
ghost use Rattle.execution_laws.specs.Setup.{IsRefused};
ghost use Rattle.group_script.specs.Group.{group_of, script_of};
ghost use Rattle.group_script.specs.Limits.{IsGroup};
ghost use Rattle.history_rules.specs.Legal.{state_of};
ghost use Rattle.op_handlers.specs.Rack.{IsWholeRack, drop_marks, handlers_in};
ghost use Rattle.parallel_group.specs.Collecting.{none_found};
ghost use Rattle.parallel_group.specs.Placed.{IsFirstInOrder};
ghost use Rattle.parallel_group.specs.Members.{member_ops};
ghost use Rattle.parallel_group.specs.Orders.{GroupEnds, IsOrderOf};
ghost use Rattle.parallel_group.specs.Refusing.{IsUntouched, RefusesGroup, fault_of};
ghost use Rattle.parallel_group.specs.Scripts.{IsGroupScript};
ghost use Rattle.proactor_core.specs.Proactor.{tells};
ghost use Rattle.session_run.specs.RackMarks.{drop_mark, drop_marks_but, rack_run_mark};
ghost use Rattle.session_script.specs.Limits.{most_acts};

use crate::member_task::{GroupOps, MemberTask};
use crate::ordering::in_order;
use crate::report::{GroupReport, MemberDone};
use crate::tasks::{member_ops, tasks_of};
use asio_types::{NoMemory, SetupFault, Types, World};
use group_script::{GroupFault, Members, WaitFor, group_script};
use op_future::{TaskReport, task_session};
use op_handlers::{CompletionHandler, Rack};
use reactor_trait::Reactor;
use session_script::Script;
use std::alloc::Global;
use std::marker::Brand;
use std::sync::Wait;
use std::thread::Threads;

/// Discards the handlers of a group that isn't run: the sum of their drop marks.
fn let_go<H: CompletionHandler>(rack: Rack<H>) -> u128
    ensures { result ≡ drop_marks H.marks (handlers_in rack) }
{
    rack.discard_all()
}

/// What a session of a group's tasks comes to.
fn report_of<N: GroupOps, X>(
    report: TaskReport<X, MemberTask<N>>,
    order: Vec<MemberDone>,
) -> GroupReport<X>
    requires ends { 1 ≤ length report.ends.items }
    requires tasks { 1 ≤ length report.tasks.items }
    requires empty { order.items ≡ [] }
    requires room { length N.ops ≤ vec_capacity order }
    ensures history { result.history ≡ report.history }
    ensures reactor { result.reactor ≡ report.reactor }
    ensures let_go { result.let_go ≡ report.let_go }
    ensures end { slice_get report.ends.items 0 ≡ Some result.end }
    ensures order { IsFirstInOrder N.ops report.tasks.items result.order.items }
{
    let TaskReport {
        history,
        ends,
        tasks,
        reactor,
        let_go,
    } = report;
    let end = ends[0];
    let Some(first) = tasks.into_iter().next() else {
        unreachable!()
    };
    GroupReport {
        history,
        order: in_order(first.into_found(), order),
        end,
        reactor,
        let_go,
    }
}

/// The tasks of a group's workers, and room for the order of its members.
fn room_for<N: GroupOps>(
    alloc: Global,
    script: &Script,
    workers: u8,
) -> Result<(Vec<MemberTask<N>>, Vec<MemberDone>), NoMemory>
    requires ops { N.ops ≡ member_ops script.now }
    requires some { 1 ≤ workers }
    ensures count { IfOk result (λ room. length room.0.items ≡ workers) }
    ensures first { IfOk result (λ room. slice_get room.0.items 0 ≡ Some (none_found N.ops)) }
    ensures empty { IfOk result (λ room. room.1.items ≡ []) }
    ensures room { IfOk result (λ room. length N.ops ≤ vec_capacity room.1) }
{
    let ops = member_ops(alloc, script)?;
    let order = Vec::with_capacity(alloc, ops.len())?;
    let tasks = tasks_of(alloc, ops, workers)?;
    Ok((tasks, order))
}

/// Runs the script of a group by so many workers.
fn run_script<
    N: GroupOps + Send,
    R: Threads + Wait + Sync,
    X: Reactor + Send,
    H: CompletionHandler + Send,
>(
    rt: &R,
    alloc: Global,
    script: &Script,
    workers: u8,
    rack: Rack<H>,
    reactor: X,
) -> Result<GroupReport<X>, (SetupFault, X)>
    requires ops { N.ops ≡ member_ops script.now }
    requires group { IsGroupScript script.now workers }
    requires whole { IsWholeRack rack }
    requires count { length (handlers_in rack) ≡ most_acts }
    ensures refused { IfErr result (λ back. IsRefused (tells (X.told reactor)) (X.faults reactor)
        (X.faults back.1) (X.state back.1) (X.told back.1) back.0) }
    ensures finished { IfOk result (λ report. IsFinished script.now (tells (X.told reactor))
        (rack_run_mark H.marks rack) (drop_mark H.marks rack) false (X.faults reactor)
        (X.faults report.reactor) report.history.events (X.state report.reactor)
        (X.told report.reactor)) }
    ensures let_go { IfOk result (λ report. report.let_go ≡ drop_marks_but H.marks
        (is_initiated script.now
        (state_of script.now (tells (X.told reactor)) report.history.events)) rack) }
    ensures order { IfOk result (λ report.
        IsOrderOf script.now report.history.events report.order.items) }
    ensures ended { IfOk result (λ report.
        GroupEnds script.now report.history.events report.order.items report.end) }
{
    let (tasks, order) = match room_for::<N>(alloc, script, workers) {
        Ok(room) => room,
        Err(NoMemory) => {
            let_go(rack);
            return Err((SetupFault::NoMemory, reactor));
        }
    };
    // The rack has a number for each act.
    prove!(script.acts() <= rack.count());
    match task_session(rt, alloc, script, rack, reactor, tasks) {
        Ok(report) => Ok(report_of(report, order)),
        Err(refusal) => Err(refusal),
    }
}

/// Why there was no session, as a fault of a group.
fn fault_of(fault: SetupFault) -> GroupFault
    ensures { result ≡ fault_of fault }
{
    match fault {
        SetupFault::Failed => GroupFault::Failed,
        SetupFault::NoMemory => GroupFault::NoMemory,
    }
}

/// Runs several operations as one (Asio reference, experimental::make_parallel_group): its script is
/// that of `group_script`, by which a member that completes cancels the others where the rule says so
/// (experimental::wait_for_all, ::wait_for_one, ::wait_for_one_success, ::wait_for_one_error). So many
/// workers execute the handlers of its acts, and one of them collects what the members complete with.
///
/// The order has each member before the first that didn't complete, as they completed. The end is
/// `Fault` exactly where the history has a failure of the reactor and a member isn't in the order; else
/// it is `Done`, and all members stand in the order.
///
/// The rack has 4,096 handlers. Those that the script doesn't use are discarded, after a refusal all of
/// them. `Limit`: as in `group_script`, and nothing was asked of the reactor. `Failed`: the reactor
/// couldn't be set up. `NoMemory`: some memory wasn't given. All come before anything is run.
pub fn run_group<R: Threads + Wait + Sync, X: Reactor + Send, H: CompletionHandler + Send>(
    rt: &R,
    alloc: Global,
    world: &World,
    members: &Members,
    rule: WaitFor,
    types: Types,
    workers: u8,
    rack: Rack<H>,
    reactor: X,
) -> Result<GroupReport<X>, (GroupFault, X)>
    requires whole { IsWholeRack rack }
    requires count { length (handlers_in rack) ≡ most_acts }
    ensures refused { IfErr result (λ back.
        RefusesGroup (group_of world.now members.now rule types workers) (tells (X.told reactor))
        (X.faults reactor) (X.faults back.1) (X.state back.1) (X.told back.1) back.0) }
    ensures untouched { IfErr result (λ back. IsUntouched reactor back.1 back.0) }
    ensures within { IfOk result
        (λ _. IsGroup (group_of world.now members.now rule types workers)) }
    ensures finished { IfOk result (λ report.
        IsFinished (script_of (group_of world.now members.now rule types workers))
        (tells (X.told reactor)) (rack_run_mark H.marks rack) (drop_mark H.marks rack) false
        (X.faults reactor) (X.faults report.reactor) report.history.events
        (X.state report.reactor) (X.told report.reactor)) }
    ensures let_go { IfOk result (λ report. report.let_go ≡ drop_marks_but H.marks
        (is_initiated (script_of (group_of world.now members.now rule types workers))
        (state_of (script_of (group_of world.now members.now rule types workers))
        (tells (X.told reactor)) report.history.events)) rack) }
    ensures order { IfOk result (λ report.
        IsOrderOf (script_of (group_of world.now members.now rule types workers))
        report.history.events report.order.items) }
    ensures ended { IfOk result (λ report.
        GroupEnds (script_of (group_of world.now members.now rule types workers))
        report.history.events report.order.items report.end) }
{
    let script = match group_script(alloc, world, members, rule, types, workers) {
        Ok(script) => script,
        Err(fault) => {
            let_go(rack);
            return Err((fault, reactor));
        }
    };
    match run_script::<Brand, R, X, H>(rt, alloc, &script, workers, rack, reactor) {
        Ok(report) => Ok(report),
        Err((fault, reactor)) => Err((fault_of(fault), reactor)),
    }
}
