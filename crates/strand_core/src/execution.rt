ghost use Rattle.std.specs.Prelude.{◌≡◌, ◌<◌, length, None};
ghost use Rattle.session_script.specs.Lanes.{is_inline};
ghost use Rattle.strand_core.specs.Answer.{CanExecute, HasRun, HasExecuted, IfMissing, IfWhole, TakesWhole};
ghost use Rattle.strand_core.specs.Hands.{HasInlineOf, held_at};

use crate::answered::Answered;
use crate::hands::Hands;
use crate::poster::Poster;
use asio_types::{Code, OpNo};
use op_handlers::{Call, CompletionHandler};
use session_script::{Script, parents_come_first};

/// What an execution came to.
#[derive(Clone, Copy, Debug, PartialEq, Eq)]
pub enum Execution {
    /// It is whole; this is the run mark of the operation's handler.
    Whole(u64),
    /// The handler of this operation isn't held, or the operation executes inside another one's
    /// call alone.
    Missing(OpNo),
}

/// An operation that completed: its number, its code and its size.
#[derive(Clone, Copy)]
struct Completed {
    op: OpNo,
    code: Code,
    size: u32,
}

/// Whether an act executes inside its call.
fn is_inline(script: &Script, op: OpNo) -> bool
    ensures { result ≡ is_inline script.now op }
{
    op < script.acts() && script.is_inline(op)
}

/// Executes a handler that was taken out of the hands, and in its body those that execute inside
/// it.
fn run<P: Poster, H: CompletionHandler>(
    poster: &mut P,
    script: &Script,
    hands: &mut Hands<'_, H>,
    handler: H,
    completed: Completed,
) -> u64
    requires script { hands.old.script ≡ script.now }
    requires act { completed.op < length script.now.acts }
    requires taken { held_at hands.old completed.op ≡ None }
    requires inside { HasInlineOf script.now hands.old.handlers completed.op }
    requires takes { TakesWhole (P.takes poster.old) script.now completed.op completed.code
        completed.size }
    ensures ran { HasRun H.marks (H.marks handler).run result completed.op completed.code
        completed.size hands.old hands.new (P.made poster.old) (P.made poster.new) (P.takes poster.old)
        (P.takes poster.new) }
{
    parents_come_first(script);
    let Completed { op, code, size } = completed;
    let begun = poster.begin(op, code, size);
    let call = Call {
        op,
        code,
        size,
        begun,
    };
    let answered = Answered::by(handler, call);
    let ran = answered.ran();
    for &act in script.branch(op, ran.class) {
        if is_inline(script, act) {
            poster.call(act, &answered);
            match hands.take(act) {
                Some(inner) => {
                    let completed = Completed {
                        op: act,
                        code: Code::Ok,
                        size: 0,
                    };
                    run(poster, script, hands, inner, completed);
                }
                None => unreachable!(),
            }
            poster.back(act);
        } else {
            poster.call(act, &answered);
            poster.back(act);
        }
    }
    poster.end(op, ran);
    ran.mark
}

/// Executes the handler of an operation that completed with this code and size, and inside it the
/// dispatches that execute inside their call. The handler is called once, at the position that its
/// begin got. Handlers that don't begin stay.
///
/// It is how a completion handler is called, and how `asio::dispatch` may call one inside its own
/// call (Asio reference, `asio::dispatch`; Overview, "Strands: Use Threads Without Explicit
/// Locking").
///
/// `Missing` comes before any call, exactly where the handler isn't held or the operation is
/// inline. Takes no memory, and recurses as deep as bodies nest.
pub fn execute<P: Poster, H: CompletionHandler>(
    poster: &mut P,
    script: &Script,
    hands: &mut Hands<'_, H>,
    op: OpNo,
    code: Code,
    size: u32,
) -> Execution
    requires script { hands.old.script ≡ script.now }
    requires takes { CanExecute hands.old op →
        TakesWhole (P.takes poster.old) script.now op code size }
    ensures script { hands.new.script ≡ hands.old.script }
    ensures can { IfWhole result (λ mark. CanExecute hands.old op) }
    ensures executed { IfWhole result (λ mark.
        HasExecuted H.marks mark op code size hands.old hands.new
        (P.made poster.old) (P.made poster.new) (P.takes poster.old) (P.takes poster.new)) }
    ensures missing { IfMissing result (λ missed. missed ≡ op) }
    ensures cannot { IfMissing result (λ missed. ¬ CanExecute hands.old op) }
    ensures same_hands { IfMissing result (λ missed. hands.new ≡ hands.old) }
    ensures same_poster { IfMissing result (λ missed. poster.new ≡ poster.old) }
{
    if is_inline(script, op) {
        return Execution::Missing(op);
    }
    match hands.take(op) {
        Some(handler) => {
            let completed = Completed { op, code, size };
            Execution::Whole(run(poster, script, hands, handler, completed))
        }
        None => Execution::Missing(op),
    }
}
