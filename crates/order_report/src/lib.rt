//! The command that says which orders a session may have: how many legal whole histories there are,
//! what they are, and whether one meets a condition. It promises that a condition's words are those
//! of trace lines, and that what is written is right of the script that was read. The program
//! `asio_orders` stands on it.
#![tactic(auto)]

mod form;
mod lines;
mod reading;
mod session;
mod status;
mod unreported;

pub use form::{Form, Task};
pub use session::orders_session;
pub use status::OrdersStatus;
