//! Why a trace isn't one of a legal history, and a picture of a session. It promises that its
//! verdict is the checker's, and that the condition that it names is one of the event's and doesn't
//! hold of the events before it. The program `asio_show` stands on it.
#![tactic(auto)]

mod against;
mod could_stand;
mod detail;
mod explain;
mod form;
mod found;
mod lines;
mod owed;
mod picture;
mod progress;
mod reason;
mod refused;
mod session;
mod situation;
mod sizes;
mod why;

pub use against::reason_against;
pub use form::ShowForm;
pub use reason::Reason;
pub use session::{show_note_of, show_session};
pub use why::{Finding, finding_on};
