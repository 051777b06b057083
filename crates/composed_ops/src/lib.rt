//! The five operations on streams as machines that are asked what they want and told what they got.
//! They promise that what a machine gives on the bytes held for it and on further pieces is what
//! the rules of streams give on all these bytes, however they were cut. The proactor stands on
//! them.
#![tactic(auto)]

mod law;
mod machine;
mod step;
mod want;

pub use law::{
    acts_are_sized, machines_are_fed_in_any_pieces, machines_follow_the_rules,
    told_answers_may_come,
};
pub use machine::Machine;
pub use step::MachineStep;
pub use want::Want;
