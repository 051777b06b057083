//! The logs of a session without a lock: what is an entry, and which logs are those that the lanes,
//! the workers and the opener of a session leave (`specs/Logs.antt`), step by step. It promises only
//! what its types hold. `lane_turns`, which writes the logs, and `history_merge`, which makes one
//! history of them, stand on it.
#![tactic(auto)]

mod log;
mod logs;
mod receipt;
mod session;

pub use log::LogEntry;
pub use logs::Logs;
pub use receipt::Receipt;
pub use session::LaneSession;
