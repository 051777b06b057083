//! Sessions of postings on the strands 0 and 1, executed over ready lanes on one thread: their
//! histories are legal, and are those of the worked sessions.

ghost use Rattle.std.specs.Prelude.{◌≡◌, ◌<◌, length};

use crate::listing::Listing;
use crate::noting::{Marks, Noting, hands_of, rack_of, script_of};
use crate::wanted::{MEMORY, has_trace, is_legal};
use asio_types::{Code, Event, Lane, OpNo};
use session_script::Script;
use std::alloc::Global;
use std::cell::Cell;
use std::process::Abort;
use strand_core::{Hands, PlainLanes, Posted, Poster, execute};

/// The hands of the strands 0 and 1.
type Both<'a, 'b> = (Hands<'a, Noting<'b>>, Hands<'a, Noting<'b>>);

/// The postings of some calls are ready, in their order. Answers whether one of the calls was a
/// stop.
fn ready_by(script: &Script, posted: &[Posted], ready: &mut PlainLanes) -> bool
    requires { ready.old.acts ≡ length script.now.acts }
    ensures { ready.new.acts ≡ ready.old.acts }
{
    let mut stopped = false;
    for call in posted {
        let Posted::Call { act } = *call else {
            continue
        };
        if act >= script.acts() {
            continue;
        }
        if script.is_op(act) && !script.is_inline(act) && !ready.was_pushed(act) {
            ready.push(act, Code::Ok, 0);
        }
        stopped = stopped || script.is_stop(act);
    }
    stopped
}

/// Executes an operation with the hands of its strand, 0 or 1.
fn execute_on<'a, 'b, R: Abort>(
    script: &Script,
    listing: &mut Listing<'_, R>,
    next: (OpNo, Code, u32),
    hands: &mut Both<'a, 'b>,
)
    requires op { next.0 < length script.now.acts }
    requires first { hands.old.0.script ≡ script.now }
    requires second { hands.old.1.script ≡ script.now }
    ensures first { hands.new.0.script ≡ script.now }
    ensures second { hands.new.1.script ≡ script.now }
{
    let (op, code, size) = next;
    let _ = match script.lane_of(op) {
        Lane::Strand(0) => execute(listing, script, &mut hands.0, op, code, size),
        _ => execute(listing, script, &mut hands.1, op, code, size),
    };
}

/// Executes what is ready on the strands 0 and 1, oldest first, until nothing is or the context is
/// stopped, and answers whether it is.
fn run_ready<'a, 'b, R: Abort>(
    script: &Script,
    listing: &mut Listing<'_, R>,
    ready: &mut PlainLanes,
    hands: &mut Both<'a, 'b>,
) -> bool
    requires ready { ready.old.acts ≡ length script.now.acts }
    requires first { hands.old.0.script ≡ script.now }
    requires second { hands.old.1.script ≡ script.now }
    ensures ready { ready.new.acts ≡ ready.old.acts }
    ensures first { hands.new.0.script ≡ script.now }
    ensures second { hands.new.1.script ≡ script.now }
{
    for _ in 0..script.acts() {
        let Some(next) = ready.pop() else {
            return false
        };
        if next.0 >= script.acts() {
            return false;
        }
        listing.clear();
        execute_on(script, listing, next, hands);
        if ready_by(script, listing.posted(), ready) {
            return true;
        }
    }
    false
}

/// One round: it runs where the context isn't stopped, and closes.
fn run_round<'a, 'b, R: Abort>(
    script: &Script,
    listing: &mut Listing<'_, R>,
    stopped: bool,
    ready: &mut PlainLanes,
    hands: &mut Both<'a, 'b>,
)
    requires ready { ready.old.acts ≡ length script.now.acts }
    requires first { hands.old.0.script ≡ script.now }
    requires second { hands.old.1.script ≡ script.now }
    ensures ready { ready.new.acts ≡ ready.old.acts }
    ensures first { hands.new.0.script ≡ script.now }
    ensures second { hands.new.1.script ≡ script.now }
{
    let stopped = stopped || run_ready(script, listing, ready, hands);
    listing.record(if stopped {
        Event::Stopped
    } else {
        Event::Ended
    });
}

/// All rounds; stopped says whether `open` stopped the context.
fn run_rounds<'a, 'b, R: Abort>(
    script: &Script,
    listing: &mut Listing<'_, R>,
    stopped: bool,
    ready: &mut PlainLanes,
    hands: &mut Both<'a, 'b>,
)
    requires ready { ready.old.acts ≡ length script.now.acts }
    requires first { hands.old.0.script ≡ script.now }
    requires second { hands.old.1.script ≡ script.now }
    ensures { hands.new.0.script ≡ script.now }
{
    let mut stopped = stopped;
    for round in script.rounds() {
        if round.restart {
            listing.record(Event::Restart);
            stopped = false;
        }
        run_round(script, listing, stopped, ready, hands);
        stopped = true;
    }
}

/// Destroys the handlers that are left on a strand and were initiated, in rising number.
fn destroy<'a, 'b, R: Abort>(
    script: &Script,
    listing: &mut Listing<'_, R>,
    hands: Hands<'a, Noting<'b>>,
)
    requires { hands.script ≡ script.now }
{
    let mut hands = hands;
    for op in 0..script.acts() {
        if script.is_inline(op) {
            continue;
        }
        let (rest, mark) = hands.discard(op);
        hands = rest;
        if let Some(mark) = mark {
            listing.record(Event::Dropped { op, mark });
        }
    }
    hands.discard_all();
}

/// Makes the calls of `open`.
fn open<R: Abort>(script: &Script, listing: &mut Listing<'_, R>) {
    for &act in script.opening() {
        listing.note_call(act);
        listing.back(act);
    }
}

/// Runs what `open` made ready in all rounds, and destroys what is left on strand 0; strand 1 has
/// nothing left in the end.
fn run_opened<'a, 'b, R: Abort>(
    rt: &R,
    alloc: Global,
    script: &Script,
    listing: &mut Listing<'_, R>,
    hands: Both<'a, 'b>,
)
    requires first { hands.0.script ≡ script.now }
    requires second { hands.1.script ≡ script.now }
{
    let mut hands = hands;
    let mut ready = PlainLanes::make(alloc, script).expect(rt, MEMORY);
    let stopped = ready_by(script, listing.posted(), &mut ready);
    run_rounds(script, listing, stopped, &mut ready, &mut hands);
    let (first, second) = hands;
    destroy(script, listing, first);
    second.discard_all();
}

/// A session of postings with these marks, of which strand 1 has nothing left in the end, makes a
/// legal history with this trace.
fn makes_history<R: Abort + Copy>(rt: R, alloc: Global, text: &str, marks: Marks, trace: &str) {
    let script = script_of(&rt, alloc, text);
    let last = Cell::new(None);
    let mut rack = rack_of(&rt, alloc, marks, &last);
    let lanes = (Lane::Strand(0), Lane::Strand(1));
    let hands = hands_of(&rt, alloc, &script, lanes, &mut rack);
    rack.discard_all();
    let mut listing = Listing::new(rt, alloc, &script);
    open(&script, &mut listing);
    run_opened(&rt, alloc, &script, &mut listing, hands);
    let events = listing.into_events();
    is_legal(&rt, alloc, &script, events.as_slice(), text);
    has_trace(&rt, alloc, events.as_slice(), trace, text);
}

#[test]
fn executions_over_ready_lanes_make_legal_histories(rt: HostRuntime) {
    for &(text, marks, trace) in SESSIONS {
        makes_history(rt, rt.alloc(), text, marks, trace);
    }
}

const PLAIN: Marks = [
    (1000, 1000),
    (1001, 1001),
    (1002, 1002),
    (1003, 1003),
    (1004, 1004),
];

/// Sessions on strands, with dispatches and stops of handlers, the marks of their handlers, and
/// their traces where the oldest ready operation runs first.
const SESSIONS: &[(&str, Marks, &str)] = &[
    (
        "session 1 strands 1 open { post 0 { } post 0 { } } run 4",
        PLAIN,
        "call 0\nback 0\ncall 1\nback 1\nbegin 0 ok 0\nend 0 1000\nbegin 1 ok 0\nend 1 1001\nended\n",
    ),
    (
        "session 1 strands 1 open { post 0 { dispatch 0 { } } } run 2",
        PLAIN,
        "call 0\nback 0\nbegin 0 ok 0\ncall 1\nbegin 1 ok 0\nend 1 1001\nback 1\nend 0 1000\nended\n",
    ),
    (
        "session 1 strands 2 open { post 0 { dispatch 1 { } } } run 2",
        PLAIN,
        "call 0\nback 0\nbegin 0 ok 0\ncall 1\nback 1\nend 0 1000\nbegin 1 ok 0\nend 1 1001\nended\n",
    ),
    (
        "session 1 strands 1 open { post 0 { stop } post 0 { } post 0 { } } run 1",
        PLAIN,
        "call 0\nback 0\ncall 2\nback 2\ncall 3\nback 3\nbegin 0 ok 0\ncall 1\nstop 1\nback 1\nend 0 1000\nstopped\ndrop 2 1002\ndrop 3 1003\n",
    ),
    (
        "session 1 strands 1 open { post 0 { stop } post 0 { } post 0 { } } run 1 restart run 1",
        PLAIN,
        "call 0\nback 0\ncall 2\nback 2\ncall 3\nback 3\nbegin 0 ok 0\ncall 1\nstop 1\nback 1\nend 0 1000\nstopped\nrestart\nbegin 2 ok 0\nend 2 1002\nbegin 3 ok 0\nend 3 1003\nended\n",
    ),
    (
        "session 1 strands 2 open { dispatch 0 { defer 1 { dispatch 1 { } } post 0 { } dispatch 0 { } } } run 1",
        PLAIN,
        "call 0\nback 0\nbegin 0 ok 0\ncall 1\nback 1\ncall 3\nback 3\ncall 4\nbegin 4 ok 0\nend 4 1004\nback 4\nend 0 1000\nbegin 1 ok 0\ncall 2\nbegin 2 ok 0\nend 2 1002\nback 2\nend 1 1001\nbegin 3 ok 0\nend 3 1003\nended\n",
    ),
    (
        "session 1 strands 1 open { post 0 { } post 0 { } } run 4",
        [(7, 70), (9, 90), (0, 0), (0, 0), (0, 0)],
        "call 0\nback 0\ncall 1\nback 1\nbegin 0 ok 0\nend 0 7\nbegin 1 ok 0\nend 1 9\nended\n",
    ),
];
