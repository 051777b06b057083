//! What the script of a group is written as.

use crate::making::{MEMORY, Setup, script_in, text_in, world_of};
use parallel_group::{Member, WaitFor};
use std::alloc::Global;
use std::process::Abort;

const ONE: &[Member] = &[Member::Wait { after: 5 }];

const TWO: &[Member] = &[Member::Wait { after: 5 }, Member::Wait { after: 9 }];

const MIXED: &[Member] = &[
    Member::Read { stream: 0, size: 4 },
    Member::Wait { after: 5 },
];

const SIXTEEN: &[Member] = &[Member::Wait { after: 1 }; 16];

/// A rule, the members, how many streams there are, and the text.
type Row = (WaitFor, &'static [Member], u8, &'static str);

/// The others are cancelled in the branches that the rule names, each by its own slot.
const TEXTS: &[Row] = &[
    (
        WaitFor::One,
        TWO,
        0,
        "session 2 strands 1 timers 2 slots 2 open { expires 0 5 wait 0 0 0 { emit 1 1 } abort { emit 1 1 } other { emit 1 1 } expires 1 9 wait 1 0 1 { emit 0 1 } abort { emit 0 1 } other { emit 0 1 } } run 1",
    ),
    (
        WaitFor::All,
        TWO,
        0,
        "session 2 strands 1 timers 2 slots 2 open { expires 0 5 wait 0 0 0 { } expires 1 9 wait 1 0 1 { } } run 1",
    ),
    (
        WaitFor::OneSuccess,
        MIXED,
        1,
        "session 2 strands 1 timers 2 slots 2 streams 1 open { read 0 4 0 0 { emit 1 1 } expires 1 5 wait 1 0 1 { emit 0 1 } } run 1",
    ),
    (
        WaitFor::OneError,
        MIXED,
        1,
        "session 2 strands 1 timers 2 slots 2 streams 1 open { read 0 4 0 0 { } abort { emit 1 1 } other { emit 1 1 } expires 1 5 wait 1 0 1 { } abort { emit 0 1 } other { emit 0 1 } } run 1",
    ),
    (
        WaitFor::One,
        ONE,
        0,
        "session 2 strands 1 timers 1 slots 1 open { expires 0 5 wait 0 0 0 { } } run 1",
    ),
];

/// A group with the types `terminal` and one worker.
fn setup_of(rule: WaitFor, members: &'static [Member]) -> Setup {
    Setup {
        members,
        rule,
        types: 1,
        workers: 1,
    }
}

/// A group is written so.
fn is_written<R: Abort>(rt: &R, alloc: Global, row: Row) {
    let (rule, members, streams, want) = row;
    let text = text_in(rt, alloc, streams, &[], setup_of(rule, members)).expect(rt, want);
    assert_eq!(rt; text.as_slice(), want.as_bytes(), "{want}");
}

#[test]
fn a_group_is_written_as_its_rule_says(rt: HostRuntime) {
    for &row in TEXTS {
        is_written(&rt, rt.alloc(), row);
    }
}

/// Sixteen waits have two acts each, and fifteen emits for each class that cancels.
const ACTS: &[(WaitFor, u32)] = &[
    (WaitFor::All, 32),
    (WaitFor::One, 752),
    (WaitFor::OneSuccess, 272),
    (WaitFor::OneError, 512),
];

/// A group of sixteen has so many acts.
fn has_acts<R: Abort>(rt: &R, alloc: Global, rule: WaitFor, want: u32) {
    let world = world_of(rt, alloc, 0, &[]);
    let Ok(script) = script_in(rt, alloc, &world, setup_of(rule, SIXTEEN)) else {
        assert!(rt; false, "{MEMORY}");
        return;
    };
    let acts = script.acts();
    assert_eq!(rt; acts, want, "{MEMORY}");
}

#[test]
fn sixteen_members_cancel_fifteen_others(rt: HostRuntime) {
    for &(rule, want) in ACTS {
        has_acts(&rt, rt.alloc(), rule, want);
    }
}
