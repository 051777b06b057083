//! Each call of the reactor failing in turn: nothing of the turn is told.

use crate::turns::{Case, is_as_said};
use reactor_script::{FailAt, Method};
use std::process::Abort;
use std::test::Fail;

const SET_UP: FailAt = FailAt {
    method: Method::SetUp,
    nth: 1,
};

const ADVANCE: FailAt = FailAt {
    method: Method::Advance,
    nth: 1,
};

const READ: FailAt = FailAt {
    method: Method::ReadSome,
    nth: 1,
};

const SECOND_READ: FailAt = FailAt {
    method: Method::ReadSome,
    nth: 2,
};

const WRITE: FailAt = FailAt {
    method: Method::WriteSome,
    nth: 1,
};

const FAILURES: [Case; 6] = [
    Case {
        shows: "a_failed_set_up_is_a_fault_alone",
        script: "session 1 timers 1 open { expires 0 5 wait 0 - - { } } run 1",
        turns: "0 1 tick",
        fails: &[SET_UP],
        trace: "fault",
    },
    Case {
        shows: "a_failed_advance_moves_no_time",
        script: "session 1 streams 1 at 1 feed 0 x61626364 at 1 end 0 open { read 0 10 - - { } } run 1",
        turns: "0 tick",
        fails: &[ADVANCE],
        trace: "take 0 / fault",
    },
    Case {
        shows: "a_failed_read_ends_the_turn_of_its_take",
        script: "session 1 streams 1 open { read 0 10 - - { } } run 1",
        turns: "0 tick",
        fails: &[READ],
        trace: "take 0 / fault",
    },
    Case {
        shows: "a_failed_read_ends_the_turn_of_a_tick",
        script: "session 1 timers 1 streams 1 at 1 feed 0 x61 open { read 0 10 - - { } expires 0 1 wait 0 - - { } } run 1",
        turns: "0 1 2 tick",
        fails: &[FailAt {
            method: Method::ReadSome,
            nth: 4,
        }],
        trace: "take 0 / take 1 / take 2 / tick 1 / fault",
    },
    Case {
        shows: "a_failed_write_ends_the_turn",
        script: "session 1 streams 1 open { write 0 x61 - - { } } run 1",
        turns: "0",
        fails: &[WRITE],
        trace: "take 0 / fault",
    },
    Case {
        shows: "a_failure_at_another_call_comes_there",
        script: "session 1 streams 1 at 0 feed 0 x61 open { readsome 0 1 - - { } readsome 0 1 - - { } } run 1",
        turns: "0 1",
        fails: &[SECOND_READ],
        trace: "take 0 / done 0 ok 1 / take 1 / fault",
    },
];

#[test]
fn a_failure_ends_its_turn(rt: HostRuntime) -> Result<(), Fail> {
    for case in &FAILURES {
        let right = is_as_said(rt.alloc(), case).unwrap_or(false);
        assert!(rt; right, "{}", case.shows);
    }
    Ok(())
}
