//! Parallel groups: several operations that run as one, where the rest are cancelled once the
//! group's rule is met. A group is a script. It promises which one, within which limits, and that in
//! every legal history of it an emit that reaches a pending member aborts that member before
//! anything else of the reactor happens. What runs groups stands on it.
#![tactic(auto)]

mod acts;
mod group;
mod law;
mod limits;
mod measure;
mod member;

pub use group::group_script;
pub use law::emits_abort_pending_members;
pub use limits::MOST_MEMBERS;
pub use member::{GroupFault, Member, Members, WaitFor};
