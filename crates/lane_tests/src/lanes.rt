//! The numbers of lanes, and of operations in their lanes.

ghost use Rattle.std.specs.Prelude.{◌≡◌};

use crate::wanted::MEMORY;
use lane_map::LaneMap;
use session_script::{Script, read_script};
use std::process::Abort;

const TEXT: &str =
    "session 1 strands 2 timers 1 open { post 1 { dispatch 1 { } dispatch - { } stop } \
    post - { dispatch - { } } wait 0 - - { } cancel 0 } run 1";

// of each act the number of its lane, that of the lane where its call places it, and its rank
const ACTS: &[(u32, u32, u32)] = &[
    (1, 1, 0),
    (1, 1, 1),
    (1, 1, 2),
    (1, 4, 3),
    (2, 2, 0),
    (2, 2, 1),
    (3, 4, 0),
    (4, 4, 0),
];

// of each lane how many cells and how many operations it has
const LANES: &[(u32, u32)] = &[(0, 0), (1, 3), (1, 2), (1, 1), (2, 0)];

fn acts_have_numbers<R: Abort>(rt: &R, script: &Script, map: &LaneMap<'_>)
    requires { map.now ≡ script.now }
{
    for act in 0..script.acts() {
        let found = (map.home(act), map.asked(act), map.rank(act));
        assert_eq!(rt; ACTS.get(act as usize).copied(), Some(found), "{act}");
    }
}

fn lanes_have_counts<R: Abort>(rt: &R, map: &LaneMap<'_>) {
    let cells = map.cells();
    for lane in 0..map.lanes() {
        if let Some(&count) = cells.get(lane as usize) {
            let found = (count, map.operations(lane));
            assert_eq!(rt; LANES.get(lane as usize).copied(), Some(found), "{lane}");
        }
    }
}

#[test]
fn lanes_are_numbered_strands_first_and_the_reactor_last(rt: HostRuntime) {
    let script = read_script(rt.alloc(), TEXT.as_bytes()).expect(&rt, "a script");
    let map = LaneMap::make(rt.alloc(), &script).expect(&rt, MEMORY);
    assert_eq!(rt; (script.acts(), map.lanes(), map.reactor()), (8, 5, 4));
    assert_eq!(rt; map.cells().len(), 5);
    acts_have_numbers(&rt, &script, &map);
    lanes_have_counts(&rt, &map);
}
