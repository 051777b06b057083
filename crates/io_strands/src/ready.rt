use asio_types::Code;
use io_rules::Name;

/// An operation that has completed, with its handler, which waits to execute.
pub struct ReadyOp<H> {
    /// Its number.
    pub number: u64,
    /// Its `error_code`.
    pub code: Code,
    /// Its `bytes_transferred`.
    pub size: u64,
    /// The buffer that was given with it, if one was.
    pub buffer: Option<Vec<u8>>,
    /// The stream that it made, if it made one.
    pub made: Option<Name>,
    /// Its handler.
    pub handler: H,
}
