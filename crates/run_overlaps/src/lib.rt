//! What keeps the claims of a run apart in each order of it. It promises that the claims of a thing
//! for which it finds a guard, or that it finds handed over, are held by two threads in no order of
//! the run. Programs that report on overlaps stand on it.
#![tactic(auto)]

mod claims;
mod common;
mod finding;
mod guards;
mod guessing;
mod handed;
mod holds;
mod noting;
mod strands;
mod watch;

pub use claims::{Claim, claims_of};
pub use finding::{NotFound, find_guards};
pub use guards::Guards;
pub use handed::find_handed;
