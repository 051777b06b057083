ghost use Rattle.std.specs.Prelude.{◌≡◌, ◌<◌, ◌≤◌, ◌+◌, ◌^◌, length};
ghost use Rattle.execution_laws.specs.Finished.{IsFinished};
ghost use Rattle.execution_laws.specs.LetGo.{let_go_marks};
ghost use Rattle.book_context.specs.BookSteps.{IsBookOver};
ghost use Rattle.book_context.specs.Finish.{GoesOnByDrops, IsEnding};
ghost use Rattle.book_context.specs.InTurn.{KeepsFaults};
ghost use Rattle.book_context.specs.Recorded.{recorded_half};

use super::Book;
use crate::law::drops_are_recorded;
use crate::record::Record;
use crate::session::Session;
use asio_types::{Event, OpNo};
use history_book::History;
use op_handlers::CompletionHandler;
use reactor_trait::Reactor;
use strand_core::Hands;

/// Destroys the handler of an operation, if it was accepted and never ran.
fn discard_next<'a, H: CompletionHandler, N: Session>(
    recording: &mut Record<'a>,
    hands: Hands<'a, H>,
    op: OpNo,
) -> Hands<'a, H>
    requires act { op < length recording.old.script.acts }
    requires ending { IsEnding H.marks N.told N.run N.drop N.outside op recording.old hands }
    ensures ending { IsEnding H.marks N.told N.run N.drop N.outside (op + 1) recording.new result }
    ensures script { recording.new.script ≡ recording.old.script }
    ensures half { recorded_half N.told recording.new ≡ recorded_half N.told recording.old }
    ensures faults { KeepsFaults recording.old recording.new }
    ensures goes_on { GoesOnByDrops recording.old.events recording.new.events }
{
    drops_are_recorded();
    let script = recording.script();
    if !script.is_op(op) || script.is_inline(op) || !recording.was_called(op) {
        return hands;
    }
    let (rest, mark) = hands.discard(op);
    if let Some(mark) = mark {
        recording.push(Event::Dropped { op, mark });
    }
    rest
}

/// Destroys the handlers that were accepted and never ran, in rising number.
#[tactic(auto, using(crate::proofs::FinishLemmas::by_none, crate::proofs::FinishLemmas::by_more))]
fn discard_unspent<'a, H: CompletionHandler, N: Session>(
    recording: &mut Record<'a>,
    hands: Hands<'a, H>,
) -> Hands<'a, H>
    requires ending { IsEnding H.marks N.told N.run N.drop N.outside 0 recording.old hands }
    ensures ending { IsEnding H.marks N.told N.run N.drop N.outside
        (length recording.old.script.acts) recording.new result }
    ensures script { recording.new.script ≡ recording.old.script }
    ensures half { recorded_half N.told recording.new ≡ recorded_half N.told recording.old }
    ensures faults { KeepsFaults recording.old recording.new }
    ensures goes_on { GoesOnByDrops recording.old.events recording.new.events }
{
    let mut left = hands;
    for op in 0..recording.script().acts() {
        left = discard_next::<H, N>(recording, left, op);
    }
    left
}

impl<'a, X: Reactor, H: CompletionHandler, N: Session> Book<'a, X, H, N> {
    /// Destroys the handlers that never ran, in rising number, and gives the history and the
    /// reactor back. A handler whose operation was never accepted is destroyed too, and no event
    /// shows it. The history is the book's own, with the drops behind it.
    pub fn finish(self) -> (History, X)
        requires over { IsBookOver N.script self.recording }
        ensures begins { GoesOnByDrops self.entry.recording.events result.0.events }
        ensures ended { IsFinished N.script N.told N.run N.drop N.outside N.faults
            (X.faults result.1) result.0.events (X.state result.1) (X.told result.1) }
    {
        let (history, reactor, _) = self.finish_telling();
        (history, reactor)
    }

    /// The same, and the sum of the drop marks of the handlers whose operations were never accepted,
    /// which discarding alone tells.
    pub fn finish_telling(self) -> (History, X, u128)
        requires over { IsBookOver N.script self.recording }
        ensures begins { GoesOnByDrops self.entry.recording.events result.0.events }
        ensures ended { IsFinished N.script N.told N.run N.drop N.outside N.faults
            (X.faults result.1) result.0.events (X.state result.1) (X.told result.1) }
        ensures let_go { result.2 ≡ let_go_marks N.script N.told N.drop result.0.events }
        ensures few { result.2 ≤ 2 ^ 96 }
    {
        drops_are_recorded();
        let Book {
            mut record,
            hands,
            proactor,
            names: _,
        } = self;
        let left = discard_unspent::<H, N>(&mut record, hands);
        let let_go = left.discard_all();
        (record.into_history(), proactor.into_reactor(), let_go)
    }
}
