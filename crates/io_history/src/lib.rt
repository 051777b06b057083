//! The history of an io_context that exists in proofs alone. A keeper, which lies under the lock of a
//! context, knows all of it; a claim of an operation whose handler executes, and a witness, know what was
//! so far when they were given out. None of them has a byte, and no list is kept: to note an event costs
//! one load. It promises that the history is legal at every moment, and that what is claimed executes. The
//! scheduler of a context stands on it.
#![tactic(auto)]

mod claim;
mod keeper;
mod named;
mod step;
mod table;
mod view;
mod witness;

pub use claim::Claim;
pub use keeper::Keeper;
pub use named::{Happening, Named};
pub use table::{HistorySeat, HistoryTable};
pub use view::{Held, View};
pub use witness::Witness;
