//! Handing a task the receipts that its worker finds.
ghost use Rattle.std.specs.Prelude.{◌≡◌, IfNone, IfSome};
ghost use Rattle.lane_turns.specs.Attempts.{IsSeated};
ghost use Rattle.lane_map.specs.LaneNumbers.{has_cell};
ghost use Rattle.op_future.specs.Steps.{HasGot, IsOver, WaitsFrom, party};

use crate::task::Task;
use crate::task_end::TaskEnd;
use asio_types::OpNo;
use lane_context::{Context, Worker};
use lane_logs::LaneSession;
use op_handlers::CompletionHandler;
use reactor_trait::Reactor;
use session_script::Script;

/// Whether a number is that of an operation that doesn't execute inside its call.
pub(crate) fn has_cell(script: &Script, op: OpNo) -> bool
    ensures { result ≡ has_cell script.now op }
{
    op < script.acts() && script.is_op(op) && !script.is_inline(op)
}

/// Hands the task every receipt that is found for what it wants. `None` where it still wants an
/// operation that wasn't found.
pub(crate) fn collect<'a, X, H, N, T>(
    context: &Context<'a, X, H, N>,
    worker: &mut Worker<'a, X, H, N>,
    task: &mut T,
) -> Option<TaskEnd>
where
    X: Reactor,
    H: CompletionHandler,
    N: LaneSession,
    T: Task,
    requires turns { IsSeated context.now worker.old }
    ensures got { HasGot N.names.script (party worker.old (T.state task.old))
        (party worker.new (T.state task.new)) }
    ensures over { IfSome result (λ end. IsOver N.names.script end (T.state task.new)) }
    ensures waits { IfNone result
        (WaitsFrom N.names.script (T.state task.new) worker.old worker.new) }
    ensures turns { IsSeated context.now worker.new }
{
    while let Some(op) = task.wants() {
        if !has_cell(context.script(), op) {
            return Some(TaskEnd::Unfit(op));
        }
        match context.result(worker, op) {
            Some(receipt) => task.got(receipt),
            None => return None,
        }
    }
    Some(TaskEnd::Done)
}
