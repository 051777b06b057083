//! Streams: what reads and writes give, by how much of them has come, and what is aborted.

use crate::turns::{Case, is_as_said};
use std::process::Abort;
use std::test::Fail;

const STREAMS: [Case; 20] = [
    Case {
        shows: "total_misses_a_composed_read",
        script: "session 1 slots 1 streams 1 at 4 feed 0 x6162 open { emit 0 1 read 0 2 - 0 { } emit 0 4 } run 1",
        turns: "0 1 2 tick",
        fails: &[],
        trace: "take 0 / take 1 / take 2 / tick 4 / done 1 ok 2",
    },
    Case {
        shows: "partial_aborts_a_composed_read",
        script: "session 1 slots 1 streams 1 at 4 feed 0 x6162 open { emit 0 1 read 0 2 - 0 { } emit 0 2 } run 1",
        turns: "0 1 2",
        fails: &[],
        trace: "take 0 / take 1 / take 2 / done 1 aborted 0",
    },
    Case {
        shows: "a_read_is_cut_anywhere",
        script: "session 1 streams 1 at 1 feed 0 x616263 at 2 feed 0 x646566 at 3 feed 0 x6768696a open { read 0 10 - - { } } run 1",
        turns: "0 tick tick tick",
        fails: &[],
        trace: "take 0 / tick 1 / tick 2 / tick 3 / done 0 ok 10",
    },
    Case {
        shows: "bytes_behind_a_delimiter_stay",
        script: "session 1 strands 1 streams 1 at 1 feed 0 x61620d at 2 feed 0 x0a63640d0a open { until 0 x0d0a 64 0 - { } until 0 x0d0a 64 0 - { } } run 1",
        turns: "0 1 tick tick",
        fails: &[],
        trace: "take 0 / take 1 / tick 1 / tick 2 / done 0 ok 4 / done 1 ok 4",
    },
    Case {
        shows: "a_delimiter_is_not_found_within_the_limit",
        script: "session 1 streams 1 at 1 feed 0 x61626364 open { until 0 x0a 4 - - { } } run 1",
        turns: "0 tick",
        fails: &[],
        trace: "take 0 / tick 1 / done 0 not_found 0",
    },
    Case {
        shows: "a_delimiter_ends_at_the_limit",
        script: "session 1 streams 1 at 1 feed 0 x6162630a open { until 0 x0a 4 - - { } } run 1",
        turns: "0 tick",
        fails: &[],
        trace: "take 0 / tick 1 / done 0 ok 4",
    },
    Case {
        shows: "end_of_file_cuts_a_read_short",
        script: "session 1 streams 1 at 1 feed 0 x61626364 at 1 end 0 open { read 0 10 - - { } } run 1",
        turns: "0 tick",
        fails: &[],
        trace: "take 0 / tick 1 / done 0 eof 4",
    },
    Case {
        shows: "the_last_time_point_ends_a_read",
        script: "session 1 streams 1 at 1 feed 0 x61626364 open { read 0 10 - - { } } run 1",
        turns: "0 tick tick",
        fails: &[],
        trace: "take 0 / tick 1 / last / done 0 eof 4",
    },
    Case {
        shows: "a_closed_stream_is_bad",
        script: "session 1 strands 1 streams 1 open { read 0 4 0 - { } close 0 read 0 4 0 - { } } run 1",
        turns: "0 1 2",
        fails: &[],
        trace: "take 0 / take 1 / done 0 aborted 0 / take 2 / done 2 bad 0",
    },
    Case {
        shows: "an_aborted_read_keeps_what_it_consumed",
        script: "session 1 timers 1 slots 1 streams 1 at 1 feed 0 x6162 at 2 feed 0 x636465 open { read 0 4 - 0 { } expires 0 1 wait 0 - - { emit 0 1 readsome 0 4 - - { } } } run 1",
        turns: "0 1 2 tick 3 4 tick",
        fails: &[],
        trace: "take 0 / take 1 / take 2 / tick 1 / done 2 ok 0 / take 3 / done 0 aborted 2 / take 4 / tick 2 / done 4 ok 3",
    },
    Case {
        shows: "two_reads_of_a_stream_complete_in_one_turn",
        script: "session 1 streams 1 at 1 feed 0 x61626364 open { readsome 0 2 - - { } readsome 0 2 - - { } } run 1",
        turns: "0 1 tick",
        fails: &[],
        trace: "take 0 / take 1 / tick 1 / done 0 ok 2 / done 1 ok 2",
    },
    Case {
        shows: "a_write_waits_for_room",
        script: "session 1 streams 1 at 1 room 0 2 at 3 room 0 9 open { write 0 x61626364 - - { } } run 1",
        turns: "0 tick tick",
        fails: &[],
        trace: "take 0 / tick 1 / tick 3 / done 0 ok 4",
    },
    Case {
        shows: "the_last_time_point_breaks_a_write",
        script: "session 1 streams 1 at 1 room 0 2 open { write 0 x61626364 - - { } } run 1",
        turns: "0 tick tick",
        fails: &[],
        trace: "take 0 / tick 1 / last / done 0 broken 2",
    },
    Case {
        shows: "a_read_of_some_takes_what_is_there",
        script: "session 1 streams 1 at 1 feed 0 x616263 open { readsome 0 2 - - { } } run 1",
        turns: "0 tick",
        fails: &[],
        trace: "take 0 / tick 1 / done 0 ok 2",
    },
    Case {
        shows: "closing_aborts_a_read",
        script: "session 1 streams 1 open { readsome 0 4 - - { } close 0 } run 1",
        turns: "0 1",
        fails: &[],
        trace: "take 0 / take 1 / done 0 aborted 0",
    },
    Case {
        shows: "a_write_of_some_fills_the_room",
        script: "session 1 streams 1 at 0 room 0 2 open { writesome 0 x616263 - - { } } run 1",
        turns: "0",
        fails: &[],
        trace: "take 0 / done 0 ok 2",
    },
    Case {
        shows: "a_reset_is_told",
        script: "session 1 streams 1 at 1 reset 0 open { readsome 0 4 - - { } } run 1",
        turns: "0 tick",
        fails: &[],
        trace: "take 0 / tick 1 / done 0 reset 0",
    },
    Case {
        shows: "a_realistic_session",
        script: "session 1 strands 1 timers 1 slots 1 streams 1 at 0 room 0 64 at 2 feed 0 x68690a open { expires 0 10 wait 0 0 - { emit 0 1 } until 0 x0a 64 0 0 { write 0 x68690a 0 - { cancel 0 } } } run 4",
        turns: "0 1 3 tick 4 5",
        fails: &[],
        trace: "take 0 / take 1 / take 3 / tick 2 / done 3 ok 3 / take 4 / done 4 ok 3 / take 5 / done 1 aborted 0",
    },
    Case {
        shows: "a_closed_stream_cancels_in_order_of_acceptance",
        script: "session 1 streams 1 open { write 0 x616263 - - { } read 0 4 - - { } close 0 read 0 4 - - { } } run 1",
        turns: "0 1 2 3",
        fails: &[],
        trace: "take 0 / take 1 / take 2 / done 0 aborted 0 / done 1 aborted 0 / take 3 / done 3 bad 0",
    },
    Case {
        shows: "a_read_completes_at_the_end_of_its_stream",
        script: "session 1 timers 2 streams 1 open { read 0 4 - - { } } run 1",
        turns: "0 tick",
        fails: &[],
        trace: "take 0 / last / done 0 eof 0",
    },
];

#[test]
fn streams_give_as_told(rt: HostRuntime) -> Result<(), Fail> {
    for case in &STREAMS {
        let right = is_as_said(rt.alloc(), case).unwrap_or(false);
        assert!(rt; right, "{}", case.shows);
    }
    Ok(())
}
