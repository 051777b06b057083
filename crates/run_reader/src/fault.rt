/// Why there is no next line.
#[derive(Clone, Copy, Debug, PartialEq, Eq)]
pub enum ReadFault {
    /// The source failed.
    Failed,
    /// Bytes stand behind the last line feed.
    NoLineFeed,
    /// No line feed is among the next bytes, as many as are held at most.
    TooLong,
}
