//! The language of sessions, in its two versions. A text is read as a script exactly where the
//! grammar as it is written spells that script and the script is within the limits of its version;
//! every other text is refused, with its first fault. A script is written as one text, which reads
//! back as that script and than which no text of it is shorter. Its readers can rely on its counts,
//! its numbers, and its acts standing under earlier operations. The history, the context and the
//! program stand on it.
#![tactic(auto)]

mod act;
mod copy;
mod groups;
mod kind;
mod lane;
mod law;
mod limits;
mod parts;
mod place;
mod reader;
mod refusal;
mod round;
mod scan;
mod script;
mod token;
mod writer;

pub use act::{Act, is_operation};
pub use law::{
    acts_fit, parents_come_first, scripts_are_well_formed, scripts_are_writable,
    upgraded_scripts_are_read_back, upgraded_scripts_are_well_formed,
    upgraded_scripts_of_version_2_are_the_same, writable_scripts_are_scripts,
};
pub use limits::{MOST_ACTS, MOST_BYTES, MOST_NESTING, MOST_READ};
pub use parts::{PlacedAct, ScriptParts};
pub use reader::scripts_are_spelled;
pub use refusal::{Refusal, Rule, ScriptFault};
pub use round::{Pace, Round};
pub use script::{Script, read_script, upgrade};
pub use writer::write_script;
