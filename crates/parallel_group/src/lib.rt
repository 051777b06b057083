//! Parallel groups, run: several operations as one, where the rest are cancelled once the group's
//! rule is met. It promises which members completed, in which order, and why not all of them.
#![tactic(auto)]

mod law;
mod member_task;
mod ordering;
mod report;
mod running;
mod tasks;

// What a group is made of, and how it ends, by the names that its callers need.
pub use group_script::{GroupFault, MOST_MEMBERS, Member, Members, WaitFor, group_script};
pub use law::members_complete;
pub use op_future::TaskEnd;
pub use report::{GroupReport, MemberDone};
pub use running::run_group;
