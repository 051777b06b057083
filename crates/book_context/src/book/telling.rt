ghost use Rattle.std.specs.Prelude.{◌≡◌, ◌<◌, true, false};
ghost use Rattle.reactor_turns.specs.Turned.{IsTurned};
ghost use Rattle.book_context.specs.Book.{KeepsHistory};
ghost use Rattle.book_context.specs.InTurn.{HasOnlyTold, IsInTurn};
ghost use Rattle.book_context.specs.Recorded.{recorded_half};

use crate::law::turns_are_recorded;
use crate::record::Record;
use crate::session::Session;
use proactor_core::Proactor;
use reactor_trait::Reactor;

/// Tells the completion that is next; answers whether there was one.
fn tell_next<'a, X: Reactor, N: Session>(
    recording: &mut Record<'a>,
    proactor: &mut Proactor<'a, X>,
) -> bool
    requires history { KeepsHistory N.script N.told N.run N.drop N.outside recording.old }
    requires turn { IsInTurn X.state X.told N.told recording.old proactor.old }
    ensures history { KeepsHistory N.script N.told N.run N.drop N.outside recording.new }
    ensures turn { IsInTurn X.state X.told N.told recording.new proactor.new }
    ensures reactor { proactor.new.reactor ≡ proactor.old.reactor }
    ensures told { HasOnlyTold N.told recording.old recording.new }
    ensures fewer { result ≡ true → recording.new.spare < recording.old.spare }
    ensures whole { result ≡ false →
        IsTurned X.state X.told (recorded_half N.told recording.new) proactor.new }
{
    turns_are_recorded();
    match proactor.next_due() {
        Some((op, code, size)) => {
            recording.push_done(op, code, size);
            true
        }
        None => false,
    }
}

/// Tells all that completes in this turn.
pub(super) fn tell_all<'a, X: Reactor, N: Session>(
    recording: &mut Record<'a>,
    proactor: &mut Proactor<'a, X>,
)
    requires history { KeepsHistory N.script N.told N.run N.drop N.outside recording.old }
    requires turn { IsInTurn X.state X.told N.told recording.old proactor.old }
    ensures history { KeepsHistory N.script N.told N.run N.drop N.outside recording.new }
    ensures turn { IsInTurn X.state X.told N.told recording.new proactor.new }
    ensures reactor { proactor.new.reactor ≡ proactor.old.reactor }
    ensures told { HasOnlyTold N.told recording.old recording.new }
    ensures whole { IsTurned X.state X.told (recorded_half N.told recording.new) proactor.new }
{
    while tell_next::<X, N>(recording, proactor) {}
}
