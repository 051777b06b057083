//! The logs of a context without a lock, put together into one history. It promises that this is one
//! legal history of the script, with the marks that are named (`specs/Merging.antt`), for every
//! number of lanes and workers and every order of their steps. `session_run` stands on it.
#![tactic(auto)]

mod law;
mod merging;
mod ordering;
mod placing;
mod room;

pub use law::{
    events_are_drawn, executions_stay_legal, logs_are_positioned, merged_logs_are_legal,
    merged_logs_fit, receipts_hold, unfound_are_absent, unfound_at_rest_are_absent,
};
pub use merging::{merge, put_together};
pub use room::HistoryRoom;
