use run_lines::{BadLine, Line};
use run_rules::Rule;

/// What is under way where a run ends.
#[derive(Clone, Copy, Debug, PartialEq, Eq)]
pub struct Owed {
    /// How many operations wait.
    pub waiting: usize,
    /// On how many threads handlers are executed.
    pub executing: usize,
    /// How much is claimed or locked.
    pub taken: u64,
}

/// What came of reading a run to its end, or to the first line that can't stand. Lines are counted
/// from 1, with the header and the names.
#[derive(Clone, Copy, PartialEq, Eq)]
pub enum Ending {
    /// Each line may come, and nothing is under way.
    Legal,
    /// Each of so many lines may come, and something is under way.
    SoFar { lines: u64, owed: Owed },
    /// This line is the first that may not come, and breaks this rule.
    Illegal { at: u64, rule: Rule, line: Line },
    /// This line is none; the lines before it may come.
    Bad { at: u64, bad: BadLine },
    /// The first line isn't the header of a run.
    NoHeader,
    /// Bytes stand behind the last line feed, as this line.
    NoLineFeed { at: u64 },
    /// This line is longer than the judge reads.
    TooLong { at: u64 },
    /// Reading failed in this line; the lines before it may come.
    ReadFault { at: u64 },
    /// This line may come, and the memory to follow it was asked for and not given.
    NoRoom { at: u64 },
}
