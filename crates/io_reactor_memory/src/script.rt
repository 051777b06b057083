ghost use Rattle.std.specs.Prelude.{◌≡◌};
ghost use Rattle.io_reactor.specs.Answers.{MayLink};
ghost use Rattle.io_reactor_memory.specs.Ends.{link_of, read_error, write_error};

use asio_types::Code;
use io_reactor::{Edge, Linked};
use std::sync::OnceLock;

/// What comes behind all that a peer sends.
#[derive(Clone, Copy, Debug, PartialEq, Eq)]
pub enum ReadEnd {
    /// Nothing.
    Open,
    /// The end of the stream.
    Eof,
    /// A reset of the connection.
    Reset,
}

/// What comes behind all room for writes.
#[derive(Clone, Copy, Debug, PartialEq, Eq)]
pub enum WriteEnd {
    /// Nothing: there is no more room.
    Full,
    /// The peer takes nothing more.
    Broken,
    /// A reset of the connection.
    Reset,
}

/// How a connect ends.
#[derive(Clone, Copy, Debug, PartialEq, Eq)]
pub enum LinkEnd {
    /// Never.
    Never,
    /// The socket is connected.
    Linked,
    /// The connection is refused.
    Refused,
}

/// What the peer of a connection does.
#[derive(Drop)]
pub struct PeerScript {
    /// What it sends, in the pieces in which it comes; at an empty one a read would have to wait.
    pub sends: Vec<Vec<u8>>,
    /// What comes behind.
    pub sends_end: ReadEnd,
    /// For how many bytes it makes room, one after another; at 0 a write would have to wait.
    pub takes: Vec<usize>,
    /// What comes behind.
    pub takes_end: WriteEnd,
    /// Where what it took is put when the socket is closed; empty to begin with.
    pub took: OnceLock<Vec<u8>>,
}

/// What a connect meets.
#[derive(Drop)]
pub struct ConnectScript {
    /// How many calls find it under way.
    pub linking: u32,
    /// How it ends then.
    pub link: LinkEnd,
    /// Who is reached.
    pub peer: PeerScript,
}

/// What an accept gives.
#[derive(Drop)]
pub enum Visit {
    /// It would have to wait.
    Later,
    /// A connection, to a peer that does this.
    Comes(PeerScript),
    /// An error.
    Fails,
}

/// What a call of `poll` does besides.
#[derive(Clone, Copy, Debug, PartialEq, Eq)]
pub enum PollTurn {
    /// Nothing.
    Plain,
    /// It reports this edge, for which there is no cause.
    Reports(Edge),
    /// It fails.
    Fails,
}

/// What happens outside of a context. Each call takes the next of its list.
#[derive(Drop)]
pub struct Script {
    /// What listeners accept, in the order in which they are made; `None` where making one fails. Behind
    /// them each fails.
    pub listeners: Vec<Option<Vec<Visit>>>,
    /// What connects meet, likewise.
    pub connects: Vec<Option<ConnectScript>>,
    /// What the clock reads; the last for ever, and 0 where there is none.
    pub clock: Vec<u64>,
    /// What the calls of `poll` do; behind them nothing besides.
    pub polls: Vec<PollTurn>,
}

impl ReadEnd {
    /// The error of a read there.
    pub(crate) fn error(self) -> Option<Code>
        ensures { result ≡ read_error self }
    {
        match self {
            ReadEnd::Open => None,
            ReadEnd::Eof => Some(Code::Eof),
            ReadEnd::Reset => Some(Code::Reset),
        }
    }
}

impl WriteEnd {
    /// The error of a write there.
    pub(crate) fn error(self) -> Option<Code>
        ensures { result ≡ write_error self }
    {
        match self {
            WriteEnd::Full => None,
            WriteEnd::Broken => Some(Code::Broken),
            WriteEnd::Reset => Some(Code::Reset),
        }
    }
}

impl LinkEnd {
    /// What a call finds there.
    pub(crate) fn answer(self) -> Linked
        ensures answer { result ≡ link_of self }
        ensures within { MayLink result }
    {
        match self {
            LinkEnd::Never => Linked::WouldBlock,
            LinkEnd::Linked => Linked::Linked,
            LinkEnd::Refused => Linked::Failed(Code::Reset),
        }
    }
}

impl PeerScript {
    /// A peer that sends this and makes this room.
    pub fn of(
        sends: Vec<Vec<u8>>,
        sends_end: ReadEnd,
        takes: Vec<usize>,
        takes_end: WriteEnd,
    ) -> PeerScript
        ensures sends { result.sends ≡ sends }
        ensures sends_end { result.sends_end ≡ sends_end }
        ensures takes { result.takes ≡ takes }
        ensures takes_end { result.takes_end ≡ takes_end }
    {
        PeerScript {
            sends,
            sends_end,
            takes,
            takes_end,
            took: OnceLock::new(),
        }
    }

    /// All bytes that it took, once the socket is closed.
    pub fn took(&self) -> Option<&[u8]> {
        match self.took.get() {
            Some(bytes) => Some(bytes.as_slice()),
            None => None,
        }
    }
}
