//! The verdict on a run: each line is judged as the rules of runs say, at the level that is asked.
//! It promises that a run is found legal exactly where it is, and that the first line that breaks a
//! rule is found, with the rule. Programs that judge runs stand on it.
#![tactic(auto)]

mod against;
mod doings;
mod ending;
mod judge;
mod naming;
mod owing;
mod run;
mod search;
mod streams;
mod text;
mod uses;
mod verdict;

pub use against::Against;
pub use ending::{Ending, Owed};
pub use judge::Judge;
pub use owing::{NotTold, write_owed_lines};
pub use run::{judge_run, take_run};
pub use search::find_against;
pub use text::{write_against, write_ending};
pub use verdict::verdict_on;
