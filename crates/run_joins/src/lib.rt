//! What comes before a line in each order of a run. It promises that what it doesn't call late is given
//! back before a join by force, or is claimed behind it by the thread that joins; and that each claim
//! of what it says is handed over is given back before the later ones by force. The search for what
//! keeps claims apart stands on it.
#![tactic(auto)]

mod frames;
mod handing;
mod joining;
mod note;
mod reached;

pub use handing::is_handed_over;
pub use joining::{Join, Joined, NotJoined, find_joined, last_join};
pub use note::Note;
