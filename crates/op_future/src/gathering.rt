//! What tasks get of a context at rest.
ghost use Rattle.std.specs.Prelude.{◌≡◌, length, map};
ghost use Rattle.op_future.specs.Gathering.{AreGathered, EndsAtRest, HasGotAtRest, RestsOn};
ghost use Rattle.op_future.specs.Seats.{IsRoomFor};

use crate::collecting::has_cell;
use crate::task::Task;
use crate::task_end::TaskEnd;
use lane_context::AtRest;
use lane_logs::LaneSession;
use op_handlers::CompletionHandler;
use reactor_trait::Reactor;
use session_script::Script;

/// Hands a task every receipt that is found for what it wants. `None` where it still wants an
/// operation that isn't found.
fn gather<'a, X: Reactor, H: CompletionHandler, N: LaneSession, T: Task>(
    rest: &mut AtRest<'a, X, H, N>,
    script: &Script,
    task: &mut T,
) -> Option<TaskEnd>
    requires script { script.now ≡ N.names.script }
    ensures got { HasGotAtRest N.names.script rest.new (T.state task.old) (T.state task.new) }
    ensures ended { EndsAtRest N.names.script rest.new result (T.state task.new) }
    ensures stays { RestsOn N.names.script rest.old rest.new }
{
    while let Some(op) = task.wants() {
        if !has_cell(script, op) {
            return Some(TaskEnd::Unfit(op));
        }
        match rest.result(op) {
            Some(receipt) => task.got(receipt),
            None => return None,
        }
    }
    Some(TaskEnd::Done)
}

/// Hands each task, in their order, every receipt that is found for what it wants, and puts how it
/// ends, where that is known, behind `ends`.
fn gather_each<'a, X: Reactor, H: CompletionHandler, N: LaneSession, T: Task>(
    rest: &mut AtRest<'a, X, H, N>,
    script: &Script,
    tasks: &mut [T],
    ends: Vec<Option<TaskEnd>>,
) -> Vec<Option<TaskEnd>>
    requires script { script.now ≡ N.names.script }
    requires room { IsRoomFor (length tasks.old) ends }
    ensures gathered { AreGathered N.names.script rest.new (map T.state tasks.old)
        (map T.state tasks.new) result.items }
    ensures stays { RestsOn N.names.script rest.old rest.new }
{
    let mut ends = ends;
    for task in tasks.iter_mut() {
        ends.push_reserved(gather(rest, script, task));
    }
    ends
}

/// Tasks behind a session, and how each ends where that is known.
pub(crate) struct Gathered<T> {
    pub(crate) tasks: Vec<T>,
    pub(crate) ends: Vec<Option<TaskEnd>>,
}

/// The same, with the tasks of a session.
pub(crate) fn gather_all<'a, X: Reactor, H: CompletionHandler, N: LaneSession, T: Task>(
    rest: &mut AtRest<'a, X, H, N>,
    script: &Script,
    tasks: Vec<T>,
    ends: Vec<Option<TaskEnd>>,
) -> Gathered<T>
    requires script { script.now ≡ N.names.script }
    requires room { IsRoomFor (length tasks.items) ends }
    ensures gathered { AreGathered N.names.script rest.new (map T.state tasks.items)
        (map T.state result.tasks.items) result.ends.items }
    ensures stays { RestsOn N.names.script rest.old rest.new }
{
    let mut tasks = tasks;
    let ends = gather_each(rest, script, tasks.as_mut_slice(), ends);
    Gathered { tasks, ends }
}
