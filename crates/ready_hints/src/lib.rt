//! Hints where work is: a queue of lane numbers that workers share with no lock. It promises that
//! no hint comes out twice, whoever takes it, and that it comes out with its own lane. It says when
//! none comes only to who has gathered all passes: then all was taken. A hint is no more than that:
//! nothing that the context answers rests on one. The context without a lock stands on it. It is
//! this project's own.
#![tactic(auto)]

mod hints;
mod law;
mod make;
mod pass;
mod rule;

pub use hints::ReadyHints;
pub use law::others_may_take_all;
pub use pass::{HintPass, HintPasses};
pub use rule::Hint;
