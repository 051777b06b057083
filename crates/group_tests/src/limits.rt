//! Where a group is refused.

use crate::making::{Feed, Setup, script_in, text_in, world_of};
use parallel_group::{GroupFault, MOST_MEMBERS, Member, WaitFor};
use session_script::MOST_BYTES;
use std::alloc::Global;
use std::process::Abort;

const ONE: &[Member] = &[Member::Wait { after: 5 }];

const MOST: &[Member] = &[Member::Wait { after: 1 }; MOST_MEMBERS];

const TOO_MANY: &[Member] = &[Member::Wait { after: 1 }; MOST_MEMBERS + 1];

const LONGEST: &[Member] = &[Member::Wait {
    after: 1_099_511_627_775,
}];

const TOO_LONG: &[Member] = &[Member::Wait {
    after: 1_099_511_627_776,
}];

const LARGEST: &[Member] = &[Member::Read {
    stream: 0,
    size: 16_384,
}];

const NO_STREAM: &[Member] = &[Member::Read { stream: 1, size: 1 }];

const EMPTY: &[Member] = &[Member::Read { stream: 0, size: 0 }];

const TOO_LARGE: &[Member] = &[Member::Read {
    stream: 0,
    size: 16_385,
}];

/// Members, workers, and whether they are within the limits in a world of one stream.
const ROWS: &[(&[Member], u8, bool)] = &[
    (&[], 1, false),
    (ONE, 1, true),
    (MOST, 1, true),
    (TOO_MANY, 1, false),
    (ONE, 0, false),
    (ONE, 16, true),
    (ONE, 17, false),
    (LONGEST, 1, true),
    (TOO_LONG, 1, false),
    (LARGEST, 1, true),
    (NO_STREAM, 1, false),
    (EMPTY, 1, false),
    (TOO_LARGE, 1, false),
];

/// A group that waits for all.
fn setup_of(members: &'static [Member], workers: u8) -> Setup {
    Setup {
        members,
        rule: WaitFor::All,
        types: 7,
        workers,
    }
}

/// A group is made, or refused by its limits.
fn is_made<R: Abort>(rt: &R, alloc: Global, members: &'static [Member], workers: u8, want: bool) {
    let world = world_of(rt, alloc, 1, &[]);
    let made = match script_in(rt, alloc, &world, setup_of(members, workers)) {
        Ok(_script) => None,
        Err(fault) => Some(fault),
    };
    let wanted = if want { None } else { Some(GroupFault::Limit) };
    assert_eq!(rt; made, wanted, "{workers}");
}

#[test]
fn a_group_is_refused_by_its_limits(rt: HostRuntime) {
    for &(members, workers, want) in ROWS {
        is_made(&rt, rt.alloc(), members, workers, want);
    }
}

/// Without its lines the text has 88 bytes; a line has 14 and two for each byte that arrives, and
/// one more where its time has two digits.
fn feeds_of(time: u64) -> [Feed; 8] {
    let full = (0, 16_384);
    [full, full, full, full, full, full, full, (time, 16_284)]
}

#[test]
fn the_longest_text_is_made(rt: HostRuntime) {
    let text = text_in(&rt, rt.alloc(), 1, feeds_of(0).as_slice(), setup_of(ONE, 1));
    let length = match text {
        Some(text) => text.len(),
        None => 0,
    };
    assert_eq!(&rt; length, MOST_BYTES, "");
}

#[test]
fn one_byte_more_is_refused(rt: HostRuntime) {
    let world = world_of(&rt, rt.alloc(), 1, feeds_of(10).as_slice());
    let made = match script_in(&rt, rt.alloc(), &world, setup_of(ONE, 1)) {
        Ok(_script) => None,
        Err(fault) => Some(fault),
    };
    assert_eq!(&rt; made, Some(GroupFault::Limit), "");
}
