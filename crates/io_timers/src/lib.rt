//! Timers of an io_context (Asio reference, `basic_waitable_timer`): when each expires, and the waits that are
//! pending on it. It promises that waits complete by expiry and then by acceptance, never before their
//! expiry, that a wait that is taken out is gone and all others stay, and that nothing takes memory once it is
//! made. The scheduler of a context stands on it.
#![tactic(auto)]

mod first;
mod law;
mod pending;
mod timers;
mod tournament;

pub use law::waits_complete_by_expiry;
pub use pending::PendingWait;
pub use timers::Timers;
