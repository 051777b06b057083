//! Whether a trace is one of a legal history: a script and a trace are read, and the events are
//! judged by a replay. It promises that a verdict is right of every script and every list of
//! events, and that a trace is judged as the one history that it is the trace of. The program
//! `asio_check` stands on it.
#![tactic(auto)]

mod ending;
mod form;
mod law;
mod line;
mod parting;
mod question;
mod reading;
mod session;
mod status;
mod verdict;

pub use form::CheckForm;
pub use law::{legal_traces_are_found_legal, verdicts_are_unique};
pub use line::write_verdict;
pub use parting::{MOST_INPUT, MOST_INPUT_READ, Parted, part};
pub use question::{NoQuestion, Question, question_of};
pub use reading::{MOST_TRACE, TraceFault, read_trace};
pub use session::check_session;
pub use status::CheckStatus;
pub use verdict::{Verdict, check, judge};
