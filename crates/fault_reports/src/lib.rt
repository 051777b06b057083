//! Faults of scripts and traces as a compiler reports them: where in which file, the line with carets
//! below the place, what is wrong in words, what could stand there, and hints. It promises that a
//! fault is named where the reader of scripts or of traces finds it. What the program `asio` says of
//! files stands on it.
#![tactic(auto)]

mod bad_trace;
mod event_fields;
mod fault;
mod hint;
mod hint_grammar;
mod hint_token;
mod place;
mod refusal;

pub use bad_trace::{TracePart, trace_fault};
pub use event_fields::{EventWords, Field, event_words};
pub use fault::{Fault, FaultKind, FileText, Place, shown_name};
pub use refusal::script_fault;
