//! The rules of an io_context whose handlers initiate operations while they execute: what happens on
//! it, its states, which event may come when and what it leads to, and when a history is whole.
//! Definitions, laws over them, and the types that they are built of. It promises what its laws say.
//! All that executes, records, replays or checks a history of such a context stands on it.
#![tactic(auto)]

mod control;
mod event;
mod gave;
mod law;
mod limits;
mod name;
mod op;
mod operation;
mod place;
mod request;
mod spares;

pub use control::Control;
pub use event::Event;
pub use gave::Gave;
pub use law::{
    a_handler_may_go_on, a_server_is_legal, each_handler_is_called_once,
    handlers_of_a_strand_are_alone, handlers_of_a_strand_begin_in_order,
    nothing_begins_while_stopped,
};
pub use limits::{Limits, MOST_NUMBERS};
pub use name::{Kind, Lane, Name};
pub use op::{Op, Phase, Wait};
pub use operation::{Binding, Operation, Side};
pub use place::{Life, Place};
pub use request::{Gone, Marks, Request};
pub use spares::Spares;
