/// Why a stream gives nothing more, once the bytes there are read.
#[derive(Clone, Copy, Debug, PartialEq, Eq)]
pub enum ReadMark {
    /// The peer sends nothing more: `error::eof`.
    Eof,
    /// The peer is gone: `error::connection_reset`.
    Reset,
}

/// Why a stream takes nothing more, once the room there is used.
#[derive(Clone, Copy, Debug, PartialEq, Eq)]
pub enum WriteMark {
    /// The peer takes nothing more: `error::broken_pipe`.
    Broken,
    /// The peer is gone: `error::connection_reset`.
    Reset,
}
