use asio_types::{ActNo, OpNo};
use history_book::Replay;
use history_rules::{ActPhase, CallPhase, called_at, goes_before, is_back_before};
use session_script::{Act, Script};

/// What may stand against an event: an act of which this holds.
#[derive(Clone, Copy)]
pub(crate) enum Against {
    /// Its handler runs.
    Runs,
    /// Its handler runs, on the lane of this operation.
    RunsOnLaneOf(OpNo),
    /// Its handler is ready, and goes before that of this operation on their lane.
    GoesBefore(OpNo),
    /// It is a request that is taken before this one.
    IsTakenBefore(ActNo),
    /// Its call isn't back.
    IsBeingCalled,
    /// Its handler is ready or runs, or it waits as a request.
    IsNotQuiet,
    /// It was accepted, and its handler was neither run to its end nor destroyed.
    IsUnspent,
    /// It is outstanding.
    IsOutstanding,
    /// It is an operation of a stream that was taken and is still to complete.
    IsPendingOnStream,
}

/// The first act of which this holds. Looks at each act.
pub(crate) fn first_act(replay: &Replay, against: Against) -> Option<ActNo> {
    for n in 0..replay.script().acts() {
        if stands_against(replay, against, n) {
            return Some(n);
        }
    }
    None
}

/// Whether this holds of an act.
pub(crate) fn stands_against(replay: &Replay, against: Against, n: ActNo) -> bool {
    match against {
        Against::Runs => runs(replay, n),
        Against::RunsOnLaneOf(o) => runs(replay, n) && replay.lane(n) == replay.lane(o),
        Against::GoesBefore(o) => {
            replay.lane(n) == replay.lane(o) && goes_before(replay.act(n), replay.act(o))
        }
        Against::IsTakenBefore(a) => {
            replay.is_untaken(n)
                && is_back_before(called_at(replay.act(a).call), replay.act(n).call)
        }
        Against::IsBeingCalled => is_open(replay, n),
        Against::IsNotQuiet => runs(replay, n) || is_ready(replay, n) || replay.is_untaken(n),
        Against::IsUnspent => is_unspent(replay, n),
        Against::IsOutstanding => is_unspent(replay, n) || replay.is_untaken(n),
        Against::IsPendingOnStream => is_pending_on_stream(replay, n),
    }
}

fn runs(replay: &Replay, n: ActNo) -> bool {
    matches!(replay.act(n).phase, ActPhase::Running { .. })
}

fn is_pending_on_stream(replay: &Replay, n: ActNo) -> bool {
    matches!(replay.act(n).phase, ActPhase::Requested)
        && replay.was_taken(n)
        && is_of_stream(replay.script(), n)
}

fn is_of_stream(script: &Script, n: ActNo) -> bool {
    n < script.acts()
        && matches!(
            script.act(n),
            Act::ReadSome { .. }
                | Act::ReadAll { .. }
                | Act::Until { .. }
                | Act::WriteSome { .. }
                | Act::WriteAll { .. }
        )
}

fn is_ready(replay: &Replay, n: ActNo) -> bool {
    matches!(replay.act(n).phase, ActPhase::Ready { .. })
}

/// Whether the call of an act was made and isn't back.
pub(crate) fn is_open(replay: &Replay, n: ActNo) -> bool {
    matches!(
        replay.act(n).call,
        CallPhase::Open { .. } | CallPhase::Stopping { .. }
    )
}

fn is_unspent(replay: &Replay, n: ActNo) -> bool {
    match replay.act(n).phase {
        ActPhase::Inside | ActPhase::Requested => true,
        ActPhase::Ready { .. } | ActPhase::Running { .. } => true,
        ActPhase::Absent | ActPhase::Ended | ActPhase::Dropped | ActPhase::Asked => false,
    }
}
