//! What the programs read and write beside their work: the words of the command line, a source that
//! is read to its end within a limit, a sink behind a buffer, and notes made of words and numbers.
//! It promises that a text is the source's first bytes, that what a buffered sink accepted is what
//! the sink behind it got and the buffer holds, and that nothing fails but where a count of faults
//! rose. The session, the trace checker and both programs stand on it.
#![tactic(auto)]

mod buffered_sink;
mod note;
mod text;
mod unfinished;
mod unsent;
mod words;

pub use buffered_sink::BufferedSink;
pub use note::{write_field, write_refusal};
pub use text::read_text;
pub use unfinished::Unfinished;
pub use words::{NoWords, words_of};
