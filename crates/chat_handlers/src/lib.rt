//! The handlers of a chat server: what each does when its operation has completed. Each room is the state of a
//! strand. They promise that a room writes what a member says once to each of its members, in the order in which
//! these joined, and to nobody else. A server, and tests of the context, stand on them.
#![tactic(auto)]

mod accepting;
mod chat;
mod lines;
mod link;
mod reading;
mod room;
mod serving;
mod telling;
mod texts;
mod watching;

pub use accepting::Service;
pub use chat::Chat;
pub use lines::MOST_LINE;
pub use link::Link;
pub use reading::{Caller, MOST_READ, Speaker};
pub use room::{MOST_MEMBERS, MOST_PENDING, Member, Room};
pub use texts::is_word;
