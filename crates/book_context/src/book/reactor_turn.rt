ghost use Rattle.std.specs.Prelude.{◌≡◌, [], IfNone, IfSome, false};
ghost use Rattle.book_context.specs.Book.{KeepsHistory, KeepsReactor};
ghost use Rattle.book_context.specs.InTurn.{HasTakenNext, SpendsNone, TurnsReactor};
ghost use Rattle.book_context.specs.Oldest.{with_request};
ghost use Rattle.book_context.specs.Steps.{IsRoundOpen};
ghost use Rattle.book_context.specs.TurnSteps.{IsWaiting};

use super::telling::tell_all;
use super::turn_steps::{begin_take, begin_tick, break_off, fail};
use crate::answer::BookTurn;
use crate::law::turns_are_recorded;
use crate::record::Record;
use crate::session::Session;
use asio_types::ActNo;
use proactor_core::Proactor;
use reactor_trait::Reactor;

/// The reactor takes the oldest request; answers what came of it, and nothing where no request
/// waits.
pub(super) fn take_next<'a, X: Reactor, N: Session>(
    recording: &mut Record<'a>,
    proactor: &mut Proactor<'a, X>,
) -> Option<BookTurn>
    requires history { KeepsHistory N.script N.told N.run N.drop N.outside recording.old }
    requires going { recording.old.stopped ≡ false }
    requires round { IsRoundOpen recording.old }
    requires reactor { KeepsReactor X.state X.told X.faults N.told N.faults recording.old
        proactor.old }
    ensures taken { IfSome result (λ turn.
        HasTakenNext X.state X.told X.faults N.script N.told N.run N.drop N.faults N.outside turn
        recording.old recording.new proactor.old proactor.new) }
    ensures same { IfNone result (recording.new ≡ recording.old) }
    ensures same_proactor { IfNone result (proactor.new ≡ proactor.old) }
    ensures none { IfNone result (recording.old.requests ≡ []) }
{
    match recording.pop_request() {
        Some(a) => Some(take_oldest::<X, N>(recording, proactor, a)),
        None => None,
    }
}

/// The reactor takes a request that was the oldest one, and all that completes by it is told.
fn take_oldest<'a, X: Reactor, N: Session>(
    recording: &mut Record<'a>,
    proactor: &mut Proactor<'a, X>,
    a: ActNo,
) -> BookTurn
    requires history { KeepsHistory N.script N.told N.run N.drop N.outside
        (with_request a recording.old) }
    requires going { recording.old.stopped ≡ false }
    requires round { IsRoundOpen recording.old }
    requires reactor { KeepsReactor X.state X.told X.faults N.told N.faults recording.old
        proactor.old }
    ensures history { KeepsHistory N.script N.told N.run N.drop N.outside recording.new }
    ensures reactor { KeepsReactor X.state X.told X.faults N.told N.faults recording.new
        proactor.new }
    ensures script { recording.new.script ≡ recording.old.script }
    ensures spent { SpendsNone N.told recording.old recording.new }
    ensures turned { TurnsReactor result recording.old recording.new (X.faults proactor.old.reactor)
        (X.faults proactor.new.reactor) }
{
    turns_are_recorded();
    match proactor.take(a) {
        Ok(()) => {
            begin_take::<N>(recording, a);
            tell_all::<X, N>(recording, proactor);
            BookTurn::Did
        }
        Err(_) => {
            begin_take::<N>(recording, a);
            fail::<N>(recording);
            BookTurn::Fault
        }
    }
}

/// Time moves to the next point, and all that completes there is told.
pub(super) fn tick<'a, X: Reactor, N: Session>(
    recording: &mut Record<'a>,
    proactor: &mut Proactor<'a, X>,
) -> BookTurn
    requires history { KeepsHistory N.script N.told N.run N.drop N.outside recording.old }
    requires waiting { IsWaiting N.told recording.old }
    requires reactor { KeepsReactor X.state X.told X.faults N.told N.faults recording.old
        proactor.old }
    ensures history { KeepsHistory N.script N.told N.run N.drop N.outside recording.new }
    ensures reactor { KeepsReactor X.state X.told X.faults N.told N.faults recording.new
        proactor.new }
    ensures script { recording.new.script ≡ recording.old.script }
    ensures spent { SpendsNone N.told recording.old recording.new }
    ensures turned { TurnsReactor result recording.old recording.new (X.faults proactor.old.reactor)
        (X.faults proactor.new.reactor) }
{
    match proactor.tick() {
        Ok(point) => {
            begin_tick::<N>(recording, &point);
            tell_all::<X, N>(recording, proactor);
            BookTurn::Did
        }
        Err(fault) => {
            break_off::<N>(recording, fault.moved);
            BookTurn::Fault
        }
    }
}
