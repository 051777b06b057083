//! The clock of the context without a lock. One word gives each event its position, and counts
//! outstanding work and stops beside it; in each lane, places and cells in which ready operations
//! wait in order. It promises that every step keeps one rule on all that the seats did
//! (`specs/Rule.antt`), that a closed clock has one history of all steps (`specs/History.antt`),
//! and that no call but `make` takes memory and none waits. The context without a lock stands on
//! it, and whoever merges its lists reads the history and the rule.
#![tactic(auto)]

mod clock;
mod found;
mod law;
mod note;
mod plan;
mod rule;
mod seat;
mod step;

pub use clock::LaneClock;
pub use found::{Change, Found};
pub use law::{
    changes_stand, clocks_count_draws, draws_change_parts, empty_is_unput, joins_are_before,
    notes_are_older, places_keep_order, positions_are_drawn_once, rule_holds_between_steps,
    steps_are_made, work_adds_up,
};
pub use note::Note;
pub use plan::ClockPlan;
pub use seat::{LaneCopy, LaneSeat, SeatList};
pub use step::{ClockStep, Known, View};
