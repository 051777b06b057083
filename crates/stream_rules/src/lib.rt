//! The rules of streams, once: what a reading or writing operation gives on the bytes or the room
//! that are there, for one operation and for a queue of them; a stream's two sides in reserved
//! memory; and scripted time over the lines of a world. It promises that its code gives exactly
//! what its definitions say, and that what an operation gives doesn't depend on how its bytes were
//! cut. Legality, the composed operations and every reactor stand on it.
#![tactic(auto)]

mod delimiter;
mod inbound;
mod law;
mod outbound;
mod pipe;
mod pipes;
mod queue;
mod schedule;
mod serving;

pub use delimiter::first_end;
pub use inbound::Inbound;
pub use law::{first_ends_are_first, reads_are_cut_anywhere, writes_are_cut_anywhere};
pub use outbound::Outbound;
pub use pipe::Pipe;
pub use pipes::{mark_last, perform_due, pipes_for};
pub use queue::{Asks, Completion, Queued, serve_reads, serve_writes};
pub use schedule::Schedule;
pub use serving::{Reading, Served, Writing, served_read, served_write};
