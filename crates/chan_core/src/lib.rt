//! Channels (Asio reference, `experimental::basic_channel`): values go from senders to receivers,
//! in order, with a buffer between them. It promises that each call does exactly what the channel's
//! rules say, that the values received are those that were accepted, in the order of their sends,
//! and that no call but `make` takes memory. Nothing stands on it yet.
#![tactic(auto)]

mod channel;
mod done;
mod law;
mod pending;
mod timed;
mod timed_done;

pub use channel::ChanCore;
pub use done::{ChanCode, ChanDone, ChanOp};
pub use law::channels_keep_order;
pub use pending::PendingOp;
pub use timed::TimedChan;
pub use timed_done::TimedDone;
