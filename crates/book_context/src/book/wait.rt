ghost use Rattle.std.specs.Prelude.{◌≡◌, ◌≤◌, ◌+◌, [], count_by, false, true};
ghost use Rattle.history_rules.specs.Rounds.{is_held};
ghost use Rattle.history_rules.specs.State.{ReactorHalf};
ghost use Rattle.history_rules.specs.Time.{pending_count};
ghost use Rattle.proactor_core.specs.Proactor.{Follows};
ghost use Rattle.book_context.specs.Book.{KeepsHistory, KeepsReactor};
ghost use Rattle.book_context.specs.InTurn.{SpendsNone, WaitsForOutside};
ghost use Rattle.book_context.specs.Steps.{IsRoundOpen};

use super::reactor_turn::tick;
use crate::answer::BookTurn;
use crate::law::{rounds_are_recorded, sessions_at_rest_go_on};
use crate::record::Record;
use crate::rounds::is_run;
use crate::session::Session;
use proactor_core::Proactor;
use reactor_trait::Reactor;

/// Whether something is pending, or a guard holds the context.
pub(super) fn has_work<X: Reactor>(proactor: &Proactor<'_, X>) -> bool
    ensures some { result ≡ true → (half : ReactorHalf) → Follows X.told proactor.now half →
        1 ≤ pending_count half + count_by is_held half.guards }
    ensures none { result ≡ false → (half : ReactorHalf) → Follows X.told proactor.now half →
        pending_count half + count_by is_held half.guards ≡ 0 }
{
    let pending = proactor.pending();
    let guards = proactor.guards();
    pending > 0 || guards > 0
}

/// Where nothing is ready and no request waits: time moves on, if the round runs and something is
/// pending.
pub(super) fn wait_for_outside<'a, X: Reactor, N: Session>(
    recording: &mut Record<'a>,
    proactor: &mut Proactor<'a, X>,
) -> BookTurn
    requires history { KeepsHistory N.script N.told N.run N.drop N.outside recording.old }
    requires ready { recording.old.ready ≡ [] }
    requires requests { recording.old.requests ≡ [] }
    requires going { recording.old.stopped ≡ false }
    requires round { IsRoundOpen recording.old }
    requires reactor { KeepsReactor X.state X.told X.faults N.told N.faults recording.old
        proactor.old }
    ensures history { KeepsHistory N.script N.told N.run N.drop N.outside recording.new }
    ensures reactor { KeepsReactor X.state X.told X.faults N.told N.faults recording.new
        proactor.new }
    ensures script { recording.new.script ≡ recording.old.script }
    ensures spent { SpendsNone N.told recording.old recording.new }
    ensures waits { WaitsForOutside X.faults N.told result recording.old recording.new proactor.old
        proactor.new }
{
    rounds_are_recorded();
    sessions_at_rest_go_on();
    if !has_work(proactor) {
        return BookTurn::Ended;
    }
    if proactor.pending() == 0 {
        return BookTurn::Idle;
    }
    if !is_run(recording) {
        return BookTurn::Idle;
    }
    tick::<X, N>(recording, proactor)
}
