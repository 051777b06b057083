//! The queue of waits on timers (Asio reference, `steady_timer`): a binary heap by expiry and then
//! by order of acceptance, in room that is reserved once. It promises that `pop_due` gives the wait
//! that comes first where it is due, that a removed wait is gone and all others stay, and that no
//! call but `with_room` takes memory. The proactor stands on it.
#![tactic(auto)]

mod entry;
mod heap;
mod places;
mod queue;
mod steps;
#[cfg(test)]
mod tests;

pub use entry::TimerEntry;
pub use queue::TimerQueue;
pub use steps::Steps;
