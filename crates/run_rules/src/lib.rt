//! The rules of runs: what a run of correct Boost.Asio may show, line by line, over a plain list of
//! lines, whatever program wrote them. Definitions, laws over them, and the small types that they
//! are built of. It promises what its laws say. Whoever checks runs, or puts their lines in another
//! order, stands on it.
#![tactic(auto)]

mod frame;
mod law;
mod level;
mod rule;
mod taking;
mod verdict;

pub use frame::Frame;
pub use law::{
    claims_are_held_by_one_thread, handlers_are_spent_once, strands_keep_the_order_of_calls,
    strands_run_one_at_a_time, strict_runs_nest_nothing, strict_strands_keep_one_order,
    verdicts_are_unique, whole_runs_spend_each_handler,
};
pub use level::{Level, Strictness};
pub use rule::Rule;
pub use taking::{Resource, Taking};
pub use verdict::Verdict;
