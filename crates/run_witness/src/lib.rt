//! The judge of other orders of a recorded run. It promises that it accepts exactly the orders of the
//! run, with just the named executions set apart, in which all lines but the last keep the rules of
//! runs, and that end as two threads come to hold one thing. Programs that show overlaps stand on it.
#![tactic(auto)]

mod attempt;
mod causes;
mod executions;
mod facts;
mod fault;
mod judging;
mod needed;
mod placing;
mod reached;
mod search;
mod spelling;
mod witness;

pub use fault::Fault;
pub use judging::judge;
pub use witness::{Witness, find_witness};
