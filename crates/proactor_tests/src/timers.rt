//! Timers and slots: waits in order, what cancels them, and what doesn't.

use crate::turns::{Case, is_as_said};
use std::process::Abort;
use std::test::Fail;

// Handlers without a strand begin in any order, so operations may be accepted in another order than
// that of their numbers.
const TIMERS: [Case; 13] = [
    Case {
        shows: "equal_expiries_complete_by_acceptance",
        script: "session 1 strands 1 timers 2 open { expires 0 3 expires 1 3 wait 1 0 - { } wait 0 0 - { } } run 1",
        turns: "0 1 2 3 tick",
        fails: &[],
        trace: "take 0 / take 1 / take 2 / take 3 / tick 3 / done 2 ok 0 / done 3 ok 0",
    },
    Case {
        shows: "a_new_expiry_cancels_all_waits",
        script: "session 1 strands 1 timers 1 open { expires 0 9 wait 0 0 - { } wait 0 0 - { } expires 0 4 } run 1",
        turns: "0 1 2 3",
        fails: &[],
        trace: "take 0 / take 1 / take 2 / take 3 / done 1 aborted 0 / done 2 aborted 0",
    },
    Case {
        shows: "cancel_one_cancels_the_first",
        script: "session 1 strands 1 timers 1 open { expires 0 9 wait 0 0 - { } wait 0 0 - { } cancelone 0 } run 1",
        turns: "0 1 2 3 tick",
        fails: &[],
        trace: "take 0 / take 1 / take 2 / take 3 / done 1 aborted 0 / tick 9 / done 2 ok 0",
    },
    Case {
        shows: "an_emit_cancels_the_wait_of_its_slot",
        script: "session 1 timers 1 slots 1 open { expires 0 5 wait 0 - 0 { } post - { emit 0 1 } } run 1",
        turns: "0 1 3",
        fails: &[],
        trace: "take 0 / take 1 / take 3 / done 1 aborted 0",
    },
    Case {
        shows: "a_late_emit_has_no_effect",
        script: "session 1 timers 1 slots 1 open { expires 0 5 wait 0 - 0 { emit 0 1 } } run 1",
        turns: "0 1 tick 2",
        fails: &[],
        trace: "take 0 / take 1 / tick 5 / done 1 ok 0 / take 2",
    },
    Case {
        shows: "a_replaced_wait_is_not_cancelled_by_its_slot",
        script: "session 1 strands 1 timers 1 slots 1 open { expires 0 9 wait 0 0 0 { } wait 0 0 0 { } emit 0 4 } run 1",
        turns: "0 1 2 3 tick",
        fails: &[],
        trace: "take 0 / take 1 / take 2 / take 3 / done 2 aborted 0 / tick 9 / done 1 ok 0",
    },
    Case {
        shows: "an_emit_of_no_type_cancels_nothing",
        script: "session 1 strands 1 timers 1 slots 1 open { expires 0 9 wait 0 0 0 { } wait 0 0 0 { } emit 0 0 } run 1",
        turns: "0 1 2 3 tick",
        fails: &[],
        trace: "take 0 / take 1 / take 2 / take 3 / tick 9 / done 1 ok 0 / done 2 ok 0",
    },
    Case {
        shows: "a_reached_expiry_completes_at_once",
        script: "session 1 timers 1 open { wait 0 - - { } } run 1",
        turns: "0",
        fails: &[],
        trace: "take 0 / done 0 ok 0",
    },
    Case {
        shows: "a_guard_is_released",
        script: "session 1 guards 1 open { post - { release 0 } } run 1",
        turns: "1",
        fails: &[],
        trace: "take 1",
    },
    Case {
        shows: "waits_complete_by_expiry_and_then_by_acceptance",
        script: "session 1 timers 2 streams 1 at 4 room 0 1 open { expires 0 7 expires 1 5 readsome 0 1 - - { } other { expires 0 2 expires 1 2 post - { wait 1 - - { } } post - { wait 0 - - { } } post - { wait 1 - - { } } } post - { wait 0 - - { } } post - { wait 1 - - { } } post - { wait 0 - - { } } } run 4",
        turns: "0 1 2 16 14 12 tick tick tick tick 3 4 10 8 6 tick",
        fails: &[],
        trace: "take 0 / take 1 / take 2 / take 16 / take 14 / take 12 / tick 4 / tick 5 / done 14 ok 0 / tick 7 / done 16 ok 0 / done 12 ok 0 / last / done 2 eof 0 / take 3 / take 4 / take 10 / take 8 / take 6 / tick 9 / done 10 ok 0 / done 8 ok 0 / done 6 ok 0",
    },
    Case {
        shows: "cancelled_waits_are_told_in_order_of_acceptance",
        script: "session 1 timers 2 slots 1 streams 1 open { expires 0 9 expires 1 5 cancelone 0 readsome 0 1 - - { } post - { wait 0 - - { } } post - { wait 0 - 0 { } } post - { wait 0 - - { } } post - { wait 1 - - { } } post - { wait 0 - - { } } post - { emit 0 1 emit 0 1 cancelone 0 expires 0 3 cancel 0 cancel 1 } } run 4",
        turns: "0 1 2 3 13 11 9 7 5 15 16 17 18 19 20 tick",
        fails: &[],
        trace: "take 0 / take 1 / take 2 / take 3 / take 13 / take 11 / take 9 / take 7 / take 5 / take 15 / done 7 aborted 0 / take 16 / take 17 / done 13 aborted 0 / take 18 / done 9 aborted 0 / done 5 aborted 0 / take 19 / take 20 / done 11 aborted 0 / last / done 3 eof 0",
    },
    Case {
        shows: "an_expiry_without_a_wait_is_no_time_point",
        script: "session 1 timers 2 open { expires 0 9 expires 1 5 wait 0 - - { } wait 1 - - { } expires 0 3 } run 1",
        turns: "0 1 2 3 4 tick",
        fails: &[],
        trace: "take 0 / take 1 / take 2 / take 3 / take 4 / done 2 aborted 0 / tick 5 / done 3 ok 0",
    },
    Case {
        shows: "what_is_due_is_told_in_order",
        script: "session 1 timers 1 open { expires 0 3 post - { wait 0 - - { } } post - { wait 0 - - { } } post - { wait 0 - - { } } } run 4",
        turns: "0 4 2 6 tick",
        fails: &[],
        trace: "take 0 / take 4 / take 2 / take 6 / tick 3 / done 4 ok 0 / done 2 ok 0 / done 6 ok 0",
    },
];

#[test]
fn waits_complete_as_told(rt: HostRuntime) -> Result<(), Fail> {
    for case in &TIMERS {
        let right = is_as_said(rt.alloc(), case).unwrap_or(false);
        assert!(rt; right, "{}", case.shows);
    }
    Ok(())
}
