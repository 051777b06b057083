//! What is known of an execution, of the calls of `open`, and of a session at rest, by the definitions
//! of a history alone: that their events are legal one after another, and what they leave. Its laws
//! run nothing. Both contexts stand on it: `book_context` by its code, and that without a lock by
//! `history_merge`. What either gives at its end is said here too (`specs/Finished.antt`).
#![tactic(auto)]

mod law;

pub use law::{
    executions_are_legal, executions_keep_order, executions_show_marks,
    lanes_are_free_unless_stopped, oldest_first_is_legal, openings_are_legal,
    sessions_stay_accounted, work_is_listed,
};
