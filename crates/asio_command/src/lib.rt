//! What the program `asio` does with files, apart from reading and running: a session in one file or
//! in two, verdicts, reasons and pictures as the libraries give them, upgrades, and traces as objects.
//! It promises that an answer is that of the readers and the checker, and that the status of several
//! files is the worst. The program `asio` stands on it.
#![tactic(auto)]

mod answer;
mod checking;
mod drawing;
mod html_page;
mod names;
mod naming;
mod objects;
mod parts;
mod read_file;
mod reasons;
mod refused;
mod running;
mod said;
mod session_files;
mod show;
mod upgrading;

pub use answer::{Answer, answer_on};
pub use checking::{check_files, check_two};
pub use drawing::{Drawn, picture_command};
pub use objects::trace_objects;
pub use parts::{FileParts, parts_of};
pub use read_file::{ReadFile, Unreadable};
pub use reasons::why_command;
pub use running::{Prepared, RunScript, prepare_run};
pub use said::Said;
pub use session_files::SessionFiles;
pub use upgrading::upgrade_command;
