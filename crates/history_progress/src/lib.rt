//! Laws of how legal histories go on: one that isn't whole has a next event of its own, unless all
//! that is left waits for a guard; so each comes to an end; and what executors do in it is bounded.
//! It promises what its laws say. Whoever waits for a session to end stands on it.
#![tactic(auto)]

mod law;

pub use law::{
    histories_come_to_an_end, no_history_is_stuck, scripts_have_histories, work_is_bounded,
};
