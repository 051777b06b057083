//! Whole sessions: a script is read from a source, run on one io_context over the caller's reactor,
//! with the caller's handlers and as many threads as each round says, and its history is written to
//! a sink; or a script is made from two numbers, run so, and the summary of its history is written;
//! or a script is upgraded, and the text of its upgrade is written. The context has no lock, or one,
//! and the promise is the same. Each status is answered exactly with its cause. A script in memory
//! is run by `run_script`, which gives its history. The program stands on it.
#![tactic(auto)]

mod broken;
mod context_kind;
mod ending;
mod form;
mod lane_rounds;
mod last;
mod noting;
mod one_lock;
mod one_session;
mod origin;
mod outcome;
mod rounds;
mod running;
mod session;
mod status;
mod upgrading;
mod without_lock;
mod writing;

pub use context_kind::{ContextKind, run_script};
pub use form::{Form, asks_for_sockets};
// A session is made from two numbers, and its history summed up, also by callers of their own.
pub use generated_session::{generate, write_summary};
pub use last::end_buffered;
pub use rounds::run_rounds;
pub use session::{asio_session, book_session};
pub use status::Status;
