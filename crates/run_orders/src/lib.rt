//! Other orders of a recorded run: the same acts by the same callers with the same outcomes, where
//! chance settles which thread executes what, which strand comes first, and whether a dispatch is
//! executed inside its call. Definitions, and laws over them. It promises what its laws say. Who
//! searches for orders in which two claims overlap stands on it.
#![tactic(auto)]

mod guard;
mod law;
mod order;

pub use guard::Guard;
pub use law::{
    forced_claims_never_overlap, forced_lines_keep_their_order, guarded_claims_never_overlap,
    guarded_things_never_overlap, handed_things_never_overlap, joined_things_never_overlap,
    runs_are_orders_of_themselves, trees_claim_on_one_thread,
};
pub use order::Step;
