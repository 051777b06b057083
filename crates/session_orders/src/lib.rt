//! All legal whole histories of a script, whether its bytes are told or not. It promises that each
//! history that it lists is legal and whole, that none is listed twice, that where it says that they
//! are all, none is left out, that else a bound was reached, and that a count is of all of them. Left
//! out are stops from outside, which may come any number of times, and, unless they are asked for,
//! failures of the reactor. Whoever asks what a session may do stands on it.
#![tactic(auto)]

mod advance;
mod bounds;
mod counting;
mod listing;
mod orders;
mod own;
mod place;
mod reaching;
mod same;
mod skip;
mod walk;

pub use bounds::{Bounds, MOST_BEGINNINGS, ReactorKind};
pub use counting::count_orders;
pub use listing::list_orders;
pub use orders::Orders;
