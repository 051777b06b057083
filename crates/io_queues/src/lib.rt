//! Queues over places that all of them share: whoever stands in one of them has a place, and each
//! place is in one queue at most. Many queues so take memory for their places, and not for places
//! times queues. It promises the order of each queue, that nothing is lost, and that nothing takes
//! memory once it is made. The scheduler of a context keeps here what is ready and what is pending.
#![tactic(auto)]

mod law;
mod links;
mod queues;

pub use law::last_item_stays;
pub use queues::Queues;
