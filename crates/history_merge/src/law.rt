//! What holds of the logs of a session and of what is made of them. These functions run nothing.
ghost use Rattle.lane_logs.specs.Drawn.{LogsAreDrawn};
ghost use Rattle.lane_logs.specs.Logs.{AreLogs, LogsView};
ghost use Rattle.lane_logs.specs.Names.{SessionNames};
ghost use Rattle.history_merge.specs.Among.{ExecutionsStayLegal};
ghost use Rattle.history_merge.specs.Drawn.{EndsAreAnswered, HistoryIsDrawn};
ghost use Rattle.history_merge.specs.Merging.{MergedIsLegal};
ghost use Rattle.history_merge.specs.Ordering.{ArePositioned};
ghost use Rattle.history_merge.specs.Receipts.{ReceiptsOfSessionsHold, UnfoundAreAbsent, UnfoundAtRestAreAbsent};
ghost use Rattle.history_merge.specs.Room.{MergedFits};

use lane_clock::positions_are_drawn_once;

/// A whole execution that may begin on an idle lane stays legal among what other lanes do: if each
/// event of others is legal where it comes, so is each of its own, down to its end. Then its lane
/// is idle again.
pub fn executions_stay_legal()
    ensures { ExecutionsStayLegal }
{}

/// The positions of the entries of a session's logs are the numbers below the clock at its end, each
/// of one event.
pub fn logs_are_positioned()
    ensures { (names : SessionNames) (logs : LogsView) → AreLogs names logs →
        ArePositioned logs.entries logs.last.clock }
{
    positions_are_drawn_once();
}

/// Each event of a session was fixed when its position was drawn: a log has the events that its
/// seat's draws were told, at the positions that they found, and no other, and so has the merged
/// history. The end of a handler was told what the handler answers to a call with what its begin
/// says and the begin's position. The mark and the position are numbers that only the call and the
/// draw of the begin give: so the call was made behind that draw, and had returned before the draw
/// of the end.
pub fn events_are_drawn()
    ensures logs { LogsAreDrawn }
    ensures history { HistoryIsDrawn }
    ensures ends { EndsAreAnswered }
{}

/// The logs of a session, put together, are one legal history of its script on one io_context, with
/// the marks that are named: for every script, every number of lanes and workers, and every order in
/// which their steps came, whether the reactor tells its bytes or not.
pub fn merged_logs_are_legal()
    ensures { MergedIsLegal }
{}

/// The history of a session, its drops among it, has no more events than its script says: so room for
/// it can be made before.
pub fn merged_logs_fit()
    ensures { MergedFits }
{
    logs_are_positioned();
}

/// What a worker saw of an operation while others executed handlers holds in the merged history: an
/// asynchronous operation completed with that code and size, and a posting was called. Of two
/// asynchronous operations of one lane the one with the smaller place completed first.
pub fn receipts_hold()
    ensures { ReceiptsOfSessionsHold }
{}

/// Where a worker, behind the closing of the last round, finds no receipt of an operation that doesn't
/// execute inside its call, the operation didn't complete, and if it is a posting it wasn't called.
pub fn unfound_are_absent()
    ensures { UnfoundAreAbsent }
{}

/// Where nothing of an operation that doesn't execute inside its call is found at rest, the operation
/// didn't complete, and if it is a posting it wasn't called: also where the reactor failed.
pub fn unfound_at_rest_are_absent()
    ensures { UnfoundAtRestAreAbsent }
{}
