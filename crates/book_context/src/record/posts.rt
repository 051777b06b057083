ghost use Rattle.std.specs.Prelude.{◌≡◌, ◌+◌, ◌*◌, ◌≤◌, ◌<◌, ◌^◌, ℕ, [], ◌∷◌, ◌++◌, List, length, vec_len, vec_capacity};
ghost use Rattle.session_script.specs.Script.{ScriptModel, stops};
ghost use Rattle.strand_core.specs.Answer.{CanExecute};
ghost use Rattle.strand_core.specs.Execution.{AnyMark, IsWholeExecution, events_of};
ghost use Rattle.strand_core.specs.declared.posted.Posted.{Posted};
ghost use Rattle.book_context.specs.Posts.{HasPosted, TakesPosts, with_call};
ghost use Rattle.book_context.specs.Recording.{IsPlaced, outside_calls};

use asio_types::{ActNo, Code, OpNo};
use op_handlers::{CompletionHandler, Ran};
use session_script::Script;
use std::marker::{Brand, Model, PhantomData};
use strand_core::{Answered, Execution, Hands, Posted, Poster, execute};

/// A script, where its history stands when an execution begins, and the room for its calls, for
/// contracts alone: who makes posts picks them.
pub(crate) trait HistoryStart {
    ghost script: { ScriptModel };

    ghost position: { ℕ };

    ghost room: { ℕ };
}

impl HistoryStart for Brand {
    ghost use Rattle.book_context.specs.Names.{no_script};

    ghost script = { no_script };

    ghost position = { 0 };

    ghost room = { 0 };
}

/// The calls of the execution under way. It keeps that they began where the history stood, and so
/// that each begin has the position of its event.
#[derive(Drop)]
struct Posts<'a, S: HistoryStart> {
    script: &'a Script,
    // the position of the next call's event in the history
    position: u64,
    calls: Vec<Posted>,
    start: PhantomData<S>,
}

impl<'a, S: HistoryStart> Model for Posts<'a, S> {
    ghost use Rattle.std.specs.Prelude.{vec_capacity};
    ghost use Rattle.book_context.specs.Posts.{ArePostedFrom, PostsView};

    ghost Value = { PostsView };

    ghost view = { λ p. record {
      script = p.script.now;
      position = p.position;
      calls = p.calls.items;
      room = vec_capacity p.calls;
    } };

    ghost invariant = { λ p. ArePostedFrom S.script S.position S.room (record {
      script = p.script.now;
      position = p.position;
      calls = p.calls.items;
      room = vec_capacity p.calls;
    }) };
}

impl<'a, S: HistoryStart> Posts<'a, S> {
    /// One call more, which is so many events.
    fn keep(&mut self, call: Posted, events: u64)
        requires takes { TakesPosts self.old (call ∷ []) }
        requires events { events ≡ length (events_of self.old.script (call ∷ [])) }
        requires placed { IsPlaced self.old.position call }
        ensures { self.new ≡ with_call call self.old }
    {
        self.calls.push_reserved(call);
        self.position += events;
    }
}

/// How many events the call of an act is: that of a stop is its stop too.
fn events_of_call(script: &Script, act: ActNo) -> u64
    ensures { result ≡ length (events_of script.now (Posted.Call act ∷ [])) }
{
    if act < script.acts() && script.is_stop(act) {
        2
    } else {
        1
    }
}

impl<'a, S: HistoryStart> Poster for Posts<'a, S> {
    ghost use Rattle.std.proofs.Common.{ap, arith, length-append};
    ghost use Rattle.execution_laws.proofs.EventLemmas.{events-append};

    ghost made = { λ posts. posts.calls };

    ghost takes = { TakesPosts };

    fn begin(&mut self, op: OpNo, code: Code, size: u32) -> u64 {
        let begun = self.position;
        self.keep(
            Posted::Begin {
                op,
                code,
                size,
                begun,
            },
            1,
        );
        begun
    }

    fn call(&mut self, act: ActNo, answered: &Answered) {
        let events = events_of_call(self.script, act);
        self.keep(Posted::Call { act }, events);
    }

    fn back(&mut self, act: ActNo) {
        self.keep(Posted::Back { act }, 1);
    }

    fn end(&mut self, op: OpNo, ran: Ran) {
        self.keep(Posted::End { op, ran }, 1);
    }

    ghost first_part = { λ posts first rest taken. record {
      room = Prim.omega (arith, taken.room, length-append first rest);
      positions = Prim.omega (
        arith,
        taken.positions,
        ap length (events-append posts.script first rest),
        length-append (events_of posts.script first) (events_of posts.script rest),
      );
    } };
}

/// Calls acts of which none executes inside its call, one after another.
pub(crate) fn call_each(calls: &mut Vec<Posted>, acts: &[ActNo])
    requires { length calls.old.items + 2 * length acts.now ≤ vec_capacity calls.old }
    ensures calls { calls.new.items ≡ calls.old.items ++ outside_calls acts.now }
    ensures room { vec_capacity calls.new ≡ vec_capacity calls.old }
{
    for &act in acts {
        calls.push_reserved(Posted::Call { act });
        calls.push_reserved(Posted::Back { act });
    }
}

/// Executes an operation whose handler is held, from a position of the history that is named.
fn post_from<H: CompletionHandler, S: HistoryStart>(
    script: &Script,
    position: u64,
    calls: Vec<Posted>,
    hands: &mut Hands<'_, H>,
    op: OpNo,
    code: Code,
    size: u32,
) -> Vec<Posted>
    requires names { S.script ≡ script.now }
    requires start { S.position ≡ position }
    requires buffer { S.room ≡ vec_capacity calls }
    requires none { calls.items ≡ [] }
    requires script { hands.old.script ≡ script.now }
    requires can { CanExecute hands.old op }
    requires room { (more : List Posted) → IsWholeExecution script.now AnyMark op code size more →
        length (events_of script.now more) ≤ vec_capacity calls }
    requires positions { position + vec_capacity calls < 2 ^ 64 }
    ensures posted { HasPosted H.marks script.now position op code size hands.old hands.new
        result.items }
    ensures room { vec_capacity result ≡ vec_capacity calls }
{
    let mut posts = Posts {
        script,
        position,
        calls,
        start: PhantomData::<S>,
    };
    match execute(&mut posts, script, hands, op, code, size) {
        Execution::Whole(_) => (),
        Execution::Missing(_) => unreachable!(),
    }
    let Posts {
        script: _,
        position: _,
        calls,
        start: _,
    } = posts;
    calls
}

/// The calls of the execution of an operation whose handler is held, with what executes inside it;
/// the first one's event has this position. `calls` is the room for them.
pub(crate) fn post_execution<H: CompletionHandler>(
    script: &Script,
    position: u64,
    calls: Vec<Posted>,
    hands: &mut Hands<'_, H>,
    op: OpNo,
    code: Code,
    size: u32,
) -> Vec<Posted>
    requires none { calls.items ≡ [] }
    requires script { hands.old.script ≡ script.now }
    requires can { CanExecute hands.old op }
    requires room { (more : List Posted) → IsWholeExecution script.now AnyMark op code size more →
        length (events_of script.now more) ≤ vec_capacity calls }
    requires positions { position + vec_capacity calls < 2 ^ 64 }
    ensures posted { HasPosted H.marks script.now position op code size hands.old hands.new
        result.items }
    ensures room { vec_capacity result ≡ vec_capacity calls }
{
    post_from::<H, Brand>(script, position, calls, hands, op, code, size)
}
