//! Pictures of runs: a row for each thread, bars for the handlers that it runs, brackets for what it
//! claims and locks, of the lines of a window. It promises that drawing fails only where the sink
//! does, that texts of the run are escaped, and that nothing is drawn at a line outside the window.
//! The program `run_judge` stands on it.
#![tactic(auto)]

mod bars;
mod drawing;
mod escaped;
mod frame;
mod items;
mod labels;
mod layout;
mod picture;
mod reading;
mod scene;
mod window;

pub use picture::write_picture;
pub use reading::{Unread, read_scene};
pub use scene::Scene;
pub use window::Window;
