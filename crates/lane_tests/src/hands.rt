//! Which handlers the hands of a lane hold, and what an execution does with them.

ghost use Rattle.std.specs.Prelude.{◌≡◌, ◌≤◌, false, length};
ghost use Rattle.op_handlers.specs.Rack.{IsWholeRack, handlers_in};
ghost use Rattle.strand_core.specs.Hands.{same_lane};

use crate::listing::Listing;
use crate::noting::{Marks, Noting, hands_of, rack_of, script_of};
use crate::wanted::{MEMORY, has_trace};
use asio_types::{Code, Lane, OpNo};
use op_handlers::{Call, Rack};
use session_script::{Script, parents_come_first};
use std::alloc::Global;
use std::cell::Cell;
use std::process::Abort;
use strand_core::{Execution, Hands, execute};

const MARKS: Marks = [(7, 70), (8, 80), (9, 90), (0, 0), (0, 100)];

/// An operation that completed, with its code and its size, and what its execution comes to.
type Row = (OpNo, Code, u32, Execution);

/// Executes these operations in turn, each as its row says.
fn execute_rows<'a, 'b, R: Abort>(
    rt: &R,
    listing: &mut Listing<'_, R>,
    script: &Script,
    mut hands: Hands<'a, Noting<'b>>,
    rows: &[Row],
)
    requires { hands.script ≡ script.now }
{
    for &(op, code, size, want) in rows {
        let came_to = execute(listing, script, &mut hands, op, code, size);
        assert_eq!(rt; came_to, want, "{op}");
    }
    hands.discard_all();
}

/// This was the last call of a handler.
fn is_last<R: Abort>(rt: &R, last: &Cell<Option<Call>>, call: Option<Call>) {
    assert_eq!(rt; last.get(), call);
}

/// Executes an operation with the hands of each of two lanes, as its row says, each time with this
/// as the last call of a handler. All calls have this trace.
fn execute_each<R: Abort + Copy>(
    rt: R,
    alloc: Global,
    text: &str,
    lanes: (Lane, Lane),
    rows: [(Row, Option<Call>); 2],
    trace: &str,
)
    requires { same_lane lanes.0 lanes.1 ≡ false }
{
    let script = script_of(&rt, alloc, text);
    let last = Cell::new(None);
    let mut rack = rack_of(&rt, alloc, MARKS, &last);
    let (first, second) = hands_of(&rt, alloc, &script, lanes, &mut rack);
    rack.discard_all();
    let mut listing = Listing::new(rt, alloc, &script);
    let [(one, one_call), (other, other_call)] = rows;
    execute_rows(&rt, &mut listing, &script, first, &[one]);
    is_last(&rt, &last, one_call);
    execute_rows(&rt, &mut listing, &script, second, &[other]);
    is_last(&rt, &last, other_call);
    let events = listing.into_events();
    has_trace(&rt, alloc, events.as_slice(), trace, text);
}

#[test]
fn an_operation_that_is_not_held_makes_no_call(rt: HostRuntime) {
    let text = "session 1 strands 2 open { post 0 { dispatch 0 { } } } run 2";
    let rows = [
        ((1, Code::Ok, 0, Execution::Missing(1)), None),
        ((0, Code::Ok, 0, Execution::Missing(0)), None),
    ];
    let lanes = (Lane::Strand(0), Lane::Strand(1));
    execute_each(rt, rt.alloc(), text, lanes, rows, "");
}

#[test]
fn a_handler_is_called_with_its_own_operation_and_size(rt: HostRuntime) {
    let text = "session 1 open { post - { } post - { dispatch - { } } } run 1";
    let inner = Call {
        op: 2,
        code: Code::Ok,
        size: 0,
        begun: 2,
    };
    let alone = Call {
        op: 0,
        code: Code::Eof,
        size: 5,
        begun: 6,
    };
    let rows = [
        ((1, Code::Ok, 3, Execution::Whole(8)), Some(inner)),
        ((0, Code::Eof, 5, Execution::Whole(7)), Some(alone)),
    ];
    let trace =
        "begin 1 ok 3\ncall 2\nbegin 2 ok 0\nend 2 9\nback 2\nend 1 8\nbegin 0 eof 5\nend 0 7\n";
    execute_each(
        rt,
        rt.alloc(),
        text,
        (Lane::Own(1), Lane::Own(0)),
        rows,
        trace,
    );
}

/// The hands of all lanes.
fn all_hands<'a, 'b, R: Abort>(
    rt: &R,
    alloc: Global,
    script: &'a Script,
    rack: &mut Rack<Noting<'b>>,
) -> Hands<'a, Noting<'b>>
    requires whole { IsWholeRack rack.old }
    requires enough { length script.now.acts ≤ length (handlers_in rack.old) }
    ensures { result.script ≡ script.now }
{
    Hands::of_script(alloc, script, rack).expect(rt, MEMORY)
}

#[test]
fn the_hands_of_a_script_hold_the_handlers_of_each_lane(rt: HostRuntime) {
    let text = "session 1 strands 1 open { post 0 { } post - { dispatch - { } } } run 1";
    let script = script_of(&rt, rt.alloc(), text);
    let last = Cell::new(None);
    let mut rack = rack_of(&rt, rt.alloc(), MARKS, &last);
    let hands = all_hands(&rt, rt.alloc(), &script, &mut rack);
    rack.discard_all();
    let mut listing = Listing::new(rt, rt.alloc(), &script);
    let rows = [
        (1, Code::Ok, 0, Execution::Whole(8)),
        (0, Code::Ok, 0, Execution::Whole(7)),
    ];
    execute_rows(&rt, &mut listing, &script, hands, &rows);
    let trace =
        "begin 1 ok 0\ncall 2\nbegin 2 ok 0\nend 2 9\nback 2\nend 1 8\nbegin 0 ok 0\nend 0 7\n";
    let events = listing.into_events();
    has_trace(&rt, rt.alloc(), events.as_slice(), trace, text);
}

/// The handlers of a strand are taken out of the rack, and given back.
fn give_back<'a, R: Abort>(rt: &R, alloc: Global, script: &Script, rack: &mut Rack<Noting<'a>>)
    requires whole { IsWholeRack rack.old }
    requires enough { length script.now.acts ≤ length (handlers_in rack.old) }
{
    let hands = Hands::of_lane(alloc, script, Lane::Strand(0), rack).expect(rt, MEMORY);
    let whole = rack.is_whole();
    assert!(rt; !whole);
    hands.give_back(rack);
}

#[test]
fn handlers_that_stay_are_given_back(rt: HostRuntime) {
    let text = "session 1 strands 1 open { post - { } post 0 { } } run 2";
    let script = script_of(&rt, rt.alloc(), text);
    let last = Cell::new(None);
    let mut rack = rack_of(&rt, rt.alloc(), MARKS, &last);
    give_back(&rt, rt.alloc(), &script, &mut rack);
    let whole = rack.is_whole();
    assert!(rt; whole);
    rack.discard_all();
}

/// Discards the handler of operation 0 twice, which has this drop mark.
fn discard_twice<'a, 'b, R: Abort>(rt: &R, script: &Script, hands: Hands<'a, Noting<'b>>, mark: u64)
    requires { hands.script ≡ script.now }
{
    parents_come_first(script);
    let (hands, first) = hands.discard(0);
    let (hands, second) = hands.discard(0);
    hands.discard_all();
    assert_eq!(rt; (first, second), (Some(mark), None));
}

#[test]
fn a_discarded_handler_is_gone(rt: HostRuntime) {
    let text = "session 1 strands 2 open { post 0 { } post 0 { } } run 2";
    let script = script_of(&rt, rt.alloc(), text);
    let last = Cell::new(None);
    let mut rack = rack_of(&rt, rt.alloc(), MARKS, &last);
    let lanes = (Lane::Strand(0), Lane::Strand(1));
    let (hands, none) = hands_of(&rt, rt.alloc(), &script, lanes, &mut rack);
    none.discard_all();
    rack.discard_all();
    discard_twice(&rt, &script, hands, 70);
    is_last(&rt, &last, None);
}

#[test]
fn what_is_left_is_discarded_without_a_call(rt: HostRuntime) {
    let text = "session 1 strands 1 open { post 0 { post - { } } } run 1";
    let script = script_of(&rt, rt.alloc(), text);
    let last = Cell::new(None);
    let mut rack = rack_of(&rt, rt.alloc(), MARKS, &last);
    let hands = all_hands(&rt, rt.alloc(), &script, &mut rack);
    // no act has the numbers that are left in the rack, and no operation was accepted
    assert_eq!(rt; rack.discard_all(), 190);
    assert_eq!(rt; hands.discard_all(), 150);
    is_last(&rt, &last, None);
}
