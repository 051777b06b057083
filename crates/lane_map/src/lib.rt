//! The numbers of a script's lanes, and of each operation its rank in its lane. It promises that
//! each answer is that of the definitions, by tables that are made in time and memory in proportion
//! to the acts and the lanes. What keeps something for each lane stands on it.
#![tactic(auto)]

mod counting;
mod homes;
mod law;
mod map;

pub use law::{lanes_have_cells, lanes_have_their_numbers, ranks_rise};
pub use map::LaneMap;
