//! The lines of a run: a text that says what a program on an io_context did, a line for each event.
//! It promises that each line and each name has one text, and that reading accepts exactly these
//! texts. The rules that runs keep, their checker and their pictures stand on it.
#![tactic(auto)]

mod bad_line;
mod code;
mod doing;
mod entry;
mod law;
mod letters;
mod line;
mod line_text;
mod name;
mod number;
mod reading;
mod verb;
mod word;
mod words;

pub use bad_line::{BadLine, Wants};
pub use code::{Code, OtherCode};
pub use entry::Entry;
pub use law::{entries_are_unique, entries_stand_on_one_line, runs_are_unique};
pub use letters::Letters;
pub use line::{Doing, Line};
pub use line_text::{LineText, MOST_LINE};
pub use name::{Kind, Name};
pub use reading::read_line;
pub use verb::Verb;
pub use word::{OtherWord, Word};
