ghost use Rattle.std.specs.Prelude.{◌≡◌};
ghost use Rattle.history_rules.specs.Order.{called_at, is_back_before, is_before, goes_before, is_request};

use crate::phase::{ActPhase, ActState, CallPhase, Cause};

/// Where a call was made.
pub fn called_at(call: CallPhase) -> u64
    ensures { result ≡ called_at call }
{
    match call {
        CallPhase::Uncalled => 0,
        CallPhase::Open { called } | CallPhase::Stopping { called } => called,
        CallPhase::Back { called, .. } => called,
    }
}

/// Whether a call returned before this place.
pub fn is_back_before(place: u64, call: CallPhase) -> bool
    ensures { result ≡ is_back_before place call }
{
    match call {
        CallPhase::Back { back, .. } => back < place,
        CallPhase::Uncalled | CallPhase::Open { .. } | CallPhase::Stopping { .. } => false,
    }
}

/// Of two handlers that became ready by these causes, whose operations were called so: whether the
/// first one is before the second.
fn is_before(first: CallPhase, why: Cause, second: CallPhase, because: Cause) -> bool
    ensures { result ≡ is_before first why second because }
{
    match (why, because) {
        (Cause::Posted, Cause::Posted) => is_back_before(called_at(second), first),
        (Cause::Posted, Cause::Completed { turn, .. }) => is_back_before(turn, first),
        (Cause::Completed { done, .. }, Cause::Posted) => done < called_at(second),
        (Cause::Completed { done, .. }, Cause::Completed { done: later, .. }) => done < later,
    }
}

/// Whether the first act is ready and before the second, if that is ready.
pub fn goes_before(first: ActState, second: ActState) -> bool
    ensures { result ≡ goes_before first second }
{
    match (first.phase, second.phase) {
        (ActPhase::Ready { cause: why, .. }, ActPhase::Ready { cause: because, .. }) => {
            is_before(first.call, why, second.call, because)
        }
        _ => false,
    }
}

/// Whether an act is an operation or a control act that the reactor has to take.
pub fn is_request(phase: ActPhase) -> bool
    ensures { result ≡ is_request phase }
{
    matches!(phase, ActPhase::Requested | ActPhase::Asked)
}
