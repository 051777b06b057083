//! Worked sessions: what each shows, its script, a legal trace of it, and after which of its lines
//! (from 1) the next one may as well come first.

/// A session with a trace; ` / ` stands for the end of a line.
pub(crate) struct Session {
    pub(crate) shows: &'static str,
    pub(crate) script: &'static str,
    pub(crate) trace: &'static str,
    pub(crate) exchanges: &'static [usize],
}

/// Rounds, strands, guards and stops.
pub(crate) const CONTEXT: [Session; 11] = [
    Session {
        shows: "one_posting_runs",
        script: "session 1 open { post - { } } run 1",
        trace: "call 0 / back 0 / begin 0 ok 0 / end 0 1000 / ended",
        exchanges: &[],
    },
    Session {
        shows: "no_work_ends",
        script: "session 1 open { } run 4",
        trace: "ended",
        exchanges: &[],
    },
    Session {
        shows: "out_of_work_is_stopped",
        script: "session 1 open { } run 4 run 1",
        trace: "ended / stopped",
        exchanges: &[],
    },
    Session {
        shows: "restart_goes_on",
        script: "session 1 open { } run 4 restart run 1",
        trace: "ended / restart / ended",
        exchanges: &[],
    },
    Session {
        shows: "strand_keeps_posting_order",
        script: "session 1 strands 1 open { post 0 { } post 0 { } } run 4",
        trace: "call 0 / back 0 / call 1 / back 1 / begin 0 ok 0 / end 0 1000 / begin 1 ok 0 / end 1 1001 / ended",
        exchanges: &[],
    },
    Session {
        shows: "no_strand_no_order",
        script: "session 1 open { post - { } post - { } } run 4",
        trace: "call 0 / back 0 / call 1 / back 1 / begin 1 ok 0 / begin 0 ok 0 / end 0 1000 / end 1 1001 / ended",
        exchanges: &[5, 7],
    },
    Session {
        shows: "dispatch_here_is_inline",
        script: "session 1 strands 1 open { post 0 { dispatch 0 { } } } run 2",
        trace: "call 0 / back 0 / begin 0 ok 0 / call 1 / begin 1 ok 0 / end 1 1001 / back 1 / end 0 1000 / ended",
        exchanges: &[],
    },
    Session {
        shows: "dispatch_elsewhere_is_queued",
        script: "session 1 strands 2 open { post 0 { dispatch 1 { } } } run 2",
        trace: "call 0 / back 0 / begin 0 ok 0 / call 1 / back 1 / begin 1 ok 0 / end 0 1000 / end 1 1001 / ended",
        exchanges: &[5, 6, 7],
    },
    Session {
        shows: "a_stop_in_a_handler",
        script: "session 1 strands 1 open { post 0 { stop } post 0 { } post 0 { } } run 1",
        trace: "call 0 / back 0 / call 2 / back 2 / call 3 / back 3 / begin 0 ok 0 / call 1 / stop 1 / back 1 / end 0 1000 / stopped / drop 2 1002 / drop 3 1003",
        exchanges: &[],
    },
    Session {
        shows: "a_restart_after_a_stop",
        script: "session 1 strands 1 open { post 0 { stop } post 0 { } post 0 { } } run 1 restart run 1",
        trace: "call 0 / back 0 / call 2 / back 2 / call 3 / back 3 / begin 0 ok 0 / call 1 / stop 1 / back 1 / end 0 1000 / stopped / restart / begin 2 ok 0 / end 2 1002 / begin 3 ok 0 / end 3 1003 / ended",
        exchanges: &[],
    },
    Session {
        shows: "a_guard_is_work",
        script: "session 1 guards 1 open { post - { release 0 } } run 1",
        trace: "call 0 / back 0 / begin 0 ok 0 / call 1 / back 1 / end 0 1000 / take 1 / ended",
        exchanges: &[6],
    },
];

/// Timers.
pub(crate) const TIMERS: [Session; 7] = [
    Session {
        shows: "equal_expiries_by_acceptance",
        script: "session 1 strands 1 timers 2 open { expires 0 3 expires 1 3 wait 1 0 - { } wait 0 0 - { } } run 1",
        trace: "call 0 / back 0 / call 1 / back 1 / call 2 / back 2 / call 3 / back 3 / take 0 / take 1 / take 2 / take 3 / tick 3 / done 2 ok 0 / done 3 ok 0 / begin 2 ok 0 / end 2 1002 / begin 3 ok 0 / end 3 1003 / ended",
        exchanges: &[15],
    },
    Session {
        shows: "a_new_expiry_aborts_waits",
        script: "session 1 strands 1 timers 1 open { expires 0 9 wait 0 0 - { } wait 0 0 - { } expires 0 4 } run 1",
        trace: "call 0 / back 0 / call 1 / back 1 / call 2 / back 2 / call 3 / back 3 / take 0 / take 1 / take 2 / take 3 / done 1 aborted 0 / done 2 aborted 0 / begin 1 aborted 0 / end 1 1001 / begin 2 aborted 0 / end 2 1002 / ended",
        exchanges: &[14],
    },
    Session {
        shows: "poll_never_moves_time",
        script: "session 1 timers 1 open { expires 0 5 wait 0 - - { } } poll 1 run 1",
        trace: "call 0 / back 0 / call 1 / back 1 / take 0 / take 1 / polled / tick 5 / done 1 ok 0 / begin 1 ok 0 / end 1 1001 / ended",
        exchanges: &[],
    },
    Session {
        shows: "a_timer_and_a_fault",
        script: "session 1 strands 4 timers 4 open { expires 3 74 wait 3 3 - { } } run 4",
        trace: "call 0 / back 0 / call 1 / back 1 / take 0 / take 1 / fault / drop 1 1001",
        exchanges: &[],
    },
    Session {
        shows: "a_timer_runs_out",
        script: "session 1 strands 4 timers 4 open { expires 3 74 wait 3 3 - { } } run 4",
        trace: "call 0 / back 0 / call 1 / back 1 / take 0 / take 1 / tick 74 / done 1 ok 0 / begin 1 ok 0 / end 1 1001 / ended",
        exchanges: &[],
    },
    Session {
        shows: "cancel_one_takes_the_first",
        script: "session 1 strands 1 timers 1 open { expires 0 9 wait 0 0 - { } wait 0 0 - { } cancelone 0 } run 1",
        trace: "call 0 / back 0 / call 1 / back 1 / call 2 / back 2 / call 3 / back 3 / take 0 / take 1 / take 2 / take 3 / done 1 aborted 0 / begin 1 aborted 0 / end 1 1001 / tick 9 / done 2 ok 0 / begin 2 ok 0 / end 2 1002 / ended",
        exchanges: &[],
    },
    Session {
        shows: "an_absolute_expiry_in_the_past",
        script: "session 2 strands 1 timers 1 open { expiresat 0 7 wait 0 0 - { expiresat 0 3 wait 0 0 - { } } } run 1",
        trace: "call 0 / back 0 / call 1 / back 1 / take 0 / take 1 / tick 7 / done 1 ok 0 / begin 1 ok 0 / call 2 / back 2 / call 3 / back 3 / end 1 1001 / take 2 / take 3 / done 3 ok 0 / begin 3 ok 0 / end 3 1003 / ended",
        exchanges: &[14],
    },
];

/// Slots and what is emitted to them.
pub(crate) const SLOTS: [Session; 9] = [
    Session {
        shows: "emit_aborts_a_wait",
        script: "session 1 timers 1 slots 1 open { expires 0 5 wait 0 - 0 { } post - { emit 0 1 } } run 1",
        trace: "call 0 / back 0 / call 1 / back 1 / call 2 / back 2 / take 0 / take 1 / begin 2 ok 0 / call 3 / back 3 / end 2 1002 / take 3 / done 1 aborted 0 / begin 1 aborted 0 / end 1 1001 / ended",
        exchanges: &[8, 12],
    },
    Session {
        shows: "late_emit_has_no_effect",
        script: "session 1 timers 1 slots 1 open { expires 0 5 wait 0 - 0 { emit 0 1 } } run 1",
        trace: "call 0 / back 0 / call 1 / back 1 / take 0 / take 1 / tick 5 / done 1 ok 0 / begin 1 ok 0 / call 2 / back 2 / end 1 1001 / take 2 / ended",
        exchanges: &[12],
    },
    Session {
        shows: "total_misses_a_composed_read",
        script: "session 1 slots 1 streams 1 at 4 feed 0 x6162 open { emit 0 1 read 0 2 - 0 { } emit 0 4 } run 1",
        trace: "call 0 / back 0 / call 1 / back 1 / call 2 / back 2 / take 0 / take 1 / take 2 / tick 4 / done 1 ok 2 / begin 1 ok 2 / end 1 1001 / ended",
        exchanges: &[],
    },
    Session {
        shows: "partial_aborts_a_composed_read",
        script: "session 1 slots 1 streams 1 at 4 feed 0 x6162 open { emit 0 1 read 0 2 - 0 { } emit 0 2 } run 1",
        trace: "call 0 / back 0 / call 1 / back 1 / call 2 / back 2 / take 0 / take 1 / take 2 / done 1 aborted 0 / begin 1 aborted 0 / end 1 1001 / ended",
        exchanges: &[],
    },
    Session {
        shows: "a_realistic_session",
        script: "session 1 strands 1 timers 1 slots 1 streams 1 at 0 room 0 64 at 2 feed 0 x68690a open { expires 0 10 wait 0 0 - { emit 0 1 } until 0 x0a 64 0 0 { write 0 x68690a 0 - { cancel 0 } } } run 4",
        trace: "call 0 / back 0 / call 1 / back 1 / call 3 / back 3 / take 0 / take 1 / take 3 / tick 2 / done 3 ok 3 / begin 3 ok 3 / call 4 / back 4 / end 3 1003 / take 4 / done 4 ok 3 / begin 4 ok 3 / call 5 / back 5 / end 4 1004 / take 5 / done 1 aborted 0 / begin 1 aborted 0 / end 1 1001 / ended",
        exchanges: &[15, 21],
    },
    Session {
        shows: "a_slot_has_its_last_operation",
        script: "session 1 strands 1 timers 1 slots 1 open { expires 0 9 wait 0 0 0 { } wait 0 0 0 { } emit 0 4 } run 1",
        trace: "call 0 / back 0 / call 1 / back 1 / call 2 / back 2 / call 3 / back 3 / take 0 / take 1 / take 2 / take 3 / done 2 aborted 0 / begin 2 aborted 0 / end 2 1002 / tick 9 / done 1 ok 0 / begin 1 ok 0 / end 1 1001 / ended",
        exchanges: &[],
    },
    Session {
        shows: "no_type_reaches_nothing",
        script: "session 1 strands 1 timers 1 slots 1 open { expires 0 9 wait 0 0 0 { } wait 0 0 0 { } emit 0 0 } run 1",
        trace: "call 0 / back 0 / call 1 / back 1 / call 2 / back 2 / call 3 / back 3 / take 0 / take 1 / take 2 / take 3 / tick 9 / done 1 ok 0 / done 2 ok 0 / begin 1 ok 0 / end 1 1001 / begin 2 ok 0 / end 2 1002 / ended",
        exchanges: &[15],
    },
    Session {
        shows: "a_filter_lets_one_type_through",
        script: "session 2 timers 1 slots 1 open { expires 0 5 wait 0 - 0 only 1 { } emit 0 4 emit 0 1 } run 1",
        trace: "call 0 / back 0 / call 1 / back 1 / call 2 / back 2 / call 3 / back 3 / take 0 / take 1 / take 2 / take 3 / done 1 aborted 0 / begin 1 aborted 0 / end 1 1001 / ended",
        exchanges: &[],
    },
    Session {
        shows: "the_first_of_two_waits",
        script: "session 2 strands 1 timers 2 slots 2 open { expires 0 5 wait 0 0 0 { emit 1 1 } abort { emit 1 1 } other { emit 1 1 } expires 1 9 wait 1 0 1 { emit 0 1 } abort { emit 0 1 } other { emit 0 1 } } run 1",
        trace: "call 0 / back 0 / call 1 / back 1 / call 5 / back 5 / call 6 / back 6 / take 0 / take 1 / take 5 / take 6 / tick 5 / done 1 ok 0 / begin 1 ok 0 / call 2 / back 2 / end 1 1001 / take 2 / done 6 aborted 0 / begin 6 aborted 0 / call 8 / back 8 / end 6 1006 / take 8 / ended",
        exchanges: &[18, 24],
    },
];

/// Reads.
pub(crate) const READS: [Session; 10] = [
    Session {
        shows: "read_gathers_pieces",
        script: "session 1 streams 1 at 1 feed 0 x616263 at 2 feed 0 x646566 at 3 feed 0 x6768696a open { read 0 10 - - { } } run 1",
        trace: "call 0 / back 0 / take 0 / tick 1 / tick 2 / tick 3 / done 0 ok 10 / begin 0 ok 10 / end 0 1000 / ended",
        exchanges: &[],
    },
    Session {
        shows: "read_of_one_piece",
        script: "session 1 streams 1 at 3 feed 0 x6162636465666768696a open { read 0 10 - - { } } run 1",
        trace: "call 0 / back 0 / take 0 / tick 3 / done 0 ok 10 / begin 0 ok 10 / end 0 1000 / ended",
        exchanges: &[],
    },
    Session {
        shows: "until_leaves_what_follows",
        script: "session 1 strands 1 streams 1 at 1 feed 0 x61620d at 2 feed 0 x0a63640d0a open { until 0 x0d0a 64 0 - { } until 0 x0d0a 64 0 - { } } run 1",
        trace: "call 0 / back 0 / call 1 / back 1 / take 0 / take 1 / tick 1 / tick 2 / done 0 ok 4 / done 1 ok 4 / begin 0 ok 4 / end 0 1000 / begin 1 ok 4 / end 1 1001 / ended",
        exchanges: &[10],
    },
    Session {
        shows: "until_gives_up_at_its_limit",
        script: "session 1 streams 1 at 1 feed 0 x61626364 open { until 0 x0a 4 - - { } } run 1",
        trace: "call 0 / back 0 / take 0 / tick 1 / done 0 not_found 0 / begin 0 not_found 0 / end 0 1000 / ended",
        exchanges: &[],
    },
    Session {
        shows: "until_finds_at_its_limit",
        script: "session 1 streams 1 at 1 feed 0 x6162630a open { until 0 x0a 4 - - { } } run 1",
        trace: "call 0 / back 0 / take 0 / tick 1 / done 0 ok 4 / begin 0 ok 4 / end 0 1000 / ended",
        exchanges: &[],
    },
    Session {
        shows: "end_of_file_cuts_a_read",
        script: "session 1 streams 1 at 1 feed 0 x61626364 at 1 end 0 open { read 0 10 - - { } } run 1",
        trace: "call 0 / back 0 / take 0 / tick 1 / done 0 eof 4 / begin 0 eof 4 / end 0 1000 / ended",
        exchanges: &[],
    },
    Session {
        shows: "last_ends_a_read",
        script: "session 1 streams 1 at 1 feed 0 x61626364 open { read 0 10 - - { } } run 1",
        trace: "call 0 / back 0 / take 0 / tick 1 / last / done 0 eof 4 / begin 0 eof 4 / end 0 1000 / ended",
        exchanges: &[],
    },
    Session {
        shows: "read_some_takes_what_is_there",
        script: "session 1 streams 1 at 1 feed 0 x616263 open { readsome 0 2 - - { } } run 1",
        trace: "call 0 / back 0 / take 0 / tick 1 / done 0 ok 2 / begin 0 ok 2 / end 0 1000 / ended",
        exchanges: &[],
    },
    Session {
        shows: "last_ends_a_read_of_some",
        script: "session 1 streams 1 open { readsome 0 4 - - { } } run 1",
        trace: "call 0 / back 0 / take 0 / last / done 0 eof 0 / begin 0 eof 0 / end 0 1000 / ended",
        exchanges: &[],
    },
    Session {
        shows: "a_reset_stream",
        script: "session 1 streams 1 at 1 reset 0 open { readsome 0 4 - - { } } run 1",
        trace: "call 0 / back 0 / take 0 / tick 1 / done 0 reset 0 / begin 0 reset 0 / end 0 1000 / ended",
        exchanges: &[],
    },
];

/// Writes, closed streams, and a reactor that fails.
pub(crate) const STREAMS: [Session; 7] = [
    Session {
        shows: "a_closed_stream_is_bad",
        script: "session 1 strands 1 streams 1 open { read 0 4 0 - { } close 0 read 0 4 0 - { } } run 1",
        trace: "call 0 / back 0 / call 1 / back 1 / call 2 / back 2 / take 0 / take 1 / done 0 aborted 0 / take 2 / done 2 bad 0 / begin 0 aborted 0 / end 0 1000 / begin 2 bad 0 / end 2 1002 / ended",
        exchanges: &[11],
    },
    Session {
        shows: "write_waits_for_room",
        script: "session 1 streams 1 at 1 room 0 2 at 3 room 0 9 open { write 0 x61626364 - - { } } run 1",
        trace: "call 0 / back 0 / take 0 / tick 1 / tick 3 / done 0 ok 4 / begin 0 ok 4 / end 0 1000 / ended",
        exchanges: &[],
    },
    Session {
        shows: "last_breaks_a_write",
        script: "session 1 streams 1 at 1 room 0 2 open { write 0 x61626364 - - { } } run 1",
        trace: "call 0 / back 0 / take 0 / tick 1 / last / done 0 broken 2 / begin 0 broken 2 / end 0 1000 / ended",
        exchanges: &[],
    },
    Session {
        shows: "a_failed_advance",
        script: "session 1 streams 1 at 1 feed 0 x61626364 at 1 end 0 open { read 0 10 - - { } } run 1",
        trace: "call 0 / back 0 / take 0 / fault / drop 0 1000",
        exchanges: &[],
    },
    Session {
        shows: "a_failed_set_up",
        script: "session 1 streams 1 at 1 feed 0 x61626364 at 1 end 0 open { read 0 10 - - { } } run 1",
        trace: "fault",
        exchanges: &[],
    },
    Session {
        shows: "close_aborts_a_read",
        script: "session 1 streams 1 open { readsome 0 4 - - { } close 0 } run 1",
        trace: "call 0 / back 0 / call 1 / back 1 / take 0 / take 1 / done 0 aborted 0 / begin 0 aborted 0 / end 0 1000 / ended",
        exchanges: &[],
    },
    Session {
        shows: "write_some_takes_the_room",
        script: "session 1 streams 1 at 0 room 0 2 open { writesome 0 x616263 - - { } } run 1",
        trace: "call 0 / back 0 / take 0 / done 0 ok 2 / begin 0 ok 2 / end 0 1000 / ended",
        exchanges: &[],
    },
];
