//! The context under one lock. It promises that what it recorded is a legal history with the marks
//! of its handlers, and that it does what the rounds of its script allow, the oldest first. It rests
//! on the laws of `execution_laws`, and its own say what stays recorded while the lock is free.
//! `book_session` of `session_run` stands on it.
#![tactic(auto)]

mod answer;
mod book;
mod context;
mod law;
mod record;
mod rounds;
mod session;

pub use answer::BookTurn;
pub use book::Book;
pub use context::BookContext;
pub use law::{
    drops_are_recorded, executions_are_bounded, executions_are_recorded, histories_go_on,
    openings_are_recorded, rounds_are_recorded, sessions_are_bounded, sessions_at_rest_go_on,
    turns_are_recorded, turns_keep_order,
};
pub use session::Session;
