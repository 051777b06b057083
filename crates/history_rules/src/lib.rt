//! The rules of histories of one io_context: its states, which event is legal when and what it leads
//! to, and when a history is whole. Definitions, laws over them, and the small types that they are
//! built of. It promises what its laws say. All that runs, replays, checks or generates a history
//! stands on it.
#![tactic(auto)]

mod kinds;
mod law;
mod order;
mod phase;
mod wait;

pub use kinds::{is_control, is_inline, is_posting, is_stop_act, lane_at, place_of};
pub use law::upgraded_scripts_have_the_same_histories;
pub use order::{called_at, goes_before, is_back_before, is_request};
pub use phase::{ActPhase, ActState, Allowance, CallPhase, Cause, Progress, Step};
pub use wait::Wait;
