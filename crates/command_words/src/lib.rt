//! The words of the program `asio` as a command, with the pages of its help, and the statuses with
//! which it ends. It promises that what a command names is within the limits of scripts, and that
//! the status of several files is the worst. What the program does stands on it.
#![tactic(auto)]

mod command;
mod given;
mod pages;
mod status;
mod verb;
mod words;

pub use command::{Command, Options};
pub use status::{CommandStatus, worst_of};
pub use words::{NoCommand, command_in};
