//! A run as it is read from a source, line by line, in memory that doesn't grow. It promises that
//! the lines that it gives are those of what the source tells, and that a run that ends without a
//! line feed, or has a longer line than fits, is found where it stands. What judges and shows runs
//! stands on it.
#![tactic(auto)]

mod buffer;
mod fault;
mod reader;

pub use buffer::MOST_HELD;
pub use fault::ReadFault;
pub use reader::LineReader;
