//! The hands of all lanes.

use crate::noting::{Marks, Noting, hands_of_lanes, rack_of, script_of};
use crate::wanted::MEMORY;
use lane_map::LaneMap;
use std::cell::Cell;
use std::process::Abort;
use strand_core::Hands;

const TEXT: &str =
    "session 1 strands 2 open { post 1 { dispatch 1 { } } post - { dispatch - { } } post 0 { } } \
    run 1";

const MARKS: Marks = [(7, 70), (8, 80), (9, 90), (0, 0), (0, 100)];

// of each operation the number of its lane
const HOMES: [u32; 5] = [1, 1, 2, 2, 0];

// of each lane its number, and the sum of the drop marks of its handlers
const LANES: &[(u32, u128)] = &[(0, 100), (1, 150), (2, 90), (3, 0)];

/// The handlers of the operations of this lane are held, and no others.
fn holds_own<'a, 'b, R: Abort>(rt: &R, hands: &Hands<'a, Noting<'b>>, lane: u32) {
    for op in 0..5u32 {
        assert_eq!(rt; hands.holds(op), HOMES[op as usize] == lane, "{op}");
    }
}

#[test]
fn each_handler_is_in_the_hands_of_its_lane(rt: HostRuntime) {
    let script = script_of(&rt, rt.alloc(), TEXT);
    let lanes = LaneMap::make(rt.alloc(), &script).expect(&rt, MEMORY);
    let last = Cell::new(None);
    let mut rack = rack_of(&rt, rt.alloc(), MARKS, &last);
    let mut hands = hands_of_lanes(&rt, rt.alloc(), &script, &lanes, &mut rack).into_iter();
    assert_eq!(rt; rack.discard_all(), 0);
    for &(lane, marks) in LANES {
        let own = hands.next().expect(&rt, "a lane");
        holds_own(&rt, &own, lane);
        assert_eq!(rt; own.discard_all(), marks, "{lane}");
    }
    assert_eq!(rt; hands.len(), 0);
    hands.destroy_empty();
}
