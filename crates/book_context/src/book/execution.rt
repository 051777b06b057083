ghost use Rattle.std.specs.Prelude.{◌≡◌, [], false, true};
ghost use Rattle.book_context.specs.Book.{HoldsUnspent, KeepsHistory};
ghost use Rattle.book_context.specs.BookSteps.{HasGoneOn};
ghost use Rattle.book_context.specs.InTurn.{HasExecutedNext, KeepsFaults};
ghost use Rattle.book_context.specs.Oldest.{with_ready};
ghost use Rattle.book_context.specs.Recorded.{recorded_half};
ghost use Rattle.book_context.specs.Steps.{IsRoundOpen};

use crate::law::executions_are_recorded;
use crate::record::Record;
use crate::session::Session;
use asio_types::{Code, OpNo};
use op_handlers::CompletionHandler;
use strand_core::Hands;

/// Executes the oldest ready operation; answers whether there was one.
pub(super) fn execute_next<'a, H: CompletionHandler, N: Session>(
    recording: &mut Record<'a>,
    hands: &mut Hands<'a, H>,
) -> bool
    requires history { KeepsHistory N.script N.told N.run N.drop N.outside recording.old }
    requires hands { HoldsUnspent H.marks N.told N.run N.drop recording.old hands.old }
    requires going { recording.old.stopped ≡ false }
    requires round { IsRoundOpen recording.old }
    ensures executed { result ≡ true →
        HasExecutedNext H.marks N.script N.told N.run N.drop N.outside recording.old recording.new
        hands.new }
    ensures same { result ≡ false → recording.new ≡ recording.old }
    ensures same_hands { result ≡ false → hands.new ≡ hands.old }
    ensures none { result ≡ false → recording.old.ready ≡ [] }
{
    match recording.pop_ready() {
        Some((op, code, size)) => {
            execute_oldest::<H, N>(recording, hands, op, code, size);
            true
        }
        None => false,
    }
}

/// Executes an operation that was the oldest ready one, with what executes inside it.
fn execute_oldest<'a, H: CompletionHandler, N: Session>(
    recording: &mut Record<'a>,
    hands: &mut Hands<'a, H>,
    op: OpNo,
    code: Code,
    size: u32,
)
    requires history { KeepsHistory N.script N.told N.run N.drop N.outside
        (with_ready (op, code, size) recording.old) }
    requires hands { HoldsUnspent H.marks N.told N.run N.drop
        (with_ready (op, code, size) recording.old) hands.old }
    requires going { recording.old.stopped ≡ false }
    requires round { IsRoundOpen recording.old }
    ensures history { KeepsHistory N.script N.told N.run N.drop N.outside recording.new }
    ensures hands { HoldsUnspent H.marks N.told N.run N.drop recording.new hands.new }
    ensures script { recording.new.script ≡ recording.old.script }
    ensures half { recorded_half N.told recording.new ≡ recorded_half N.told recording.old }
    ensures faults { KeepsFaults recording.old recording.new }
    ensures gone { HasGoneOn N.script N.run (with_ready (op, code, size) recording.old)
        recording.new }
{
    executions_are_recorded();
    recording.execute(hands, op, code, size);
}
