//! Laws of every legal history, in the words of a user of Asio and of the list of events alone: each
//! handler runs once, and behind its completion; strands run one handler at a time, and postings in
//! their order; after a stop little begins; what is aborted was cancelled, and no wait is early; no
//! history is long. It promises what its laws say. Whoever says of a session's history what a user
//! may rely on stands on it.
#![tactic(auto)]

mod law;

pub use law::{
    cancellation_is_heeded, handlers_follow_completion, handlers_run_once, histories_are_short,
    legal_histories_keep_promise, postings_keep_their_order, rounds_close_once, stops_are_heeded,
    strands_may_overlap, strands_run_one_at_a_time, streams_keep_their_bytes, timers_keep_time,
    writes_are_sent_in_order,
};
