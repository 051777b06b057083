ghost use Rattle.std.specs.Prelude.{◌≡◌};
ghost use Rattle.stream_rules.specs.Asked.{reading_view, writing_view, IsCountable};
ghost use Rattle.history_book.specs.Asking.{IsReading, IsWriting, asked_reading, asked_writing};

use asio_types::OpNo;
use session_script::{Act, Script, acts_fit};
use std::collections::VecDeque;
use stream_rules::{Asks, Queued, Reading, Writing};

/// The operations of a stream that haven't completed, in order of acceptance.
#[derive(Debug, Drop)]
pub struct Queues {
    /// Whether the stream is closed.
    pub closed: bool,
    /// Its reads.
    pub reads: VecDeque<Queued>,
    /// Its writes.
    pub writes: VecDeque<Queued>,
}

/// What the operations of a script ask for.
#[derive(Clone, Copy)]
pub struct Asking<'a> {
    /// The script.
    pub script: &'a Script,
}

impl<'a> Asks for Asking<'a> {
    ghost IsReading = { λ asking op. IsReading asking.script.now op };

    ghost IsWriting = { λ asking op. IsWriting asking.script.now op };

    ghost reads = { λ asking op. asked_reading asking.script.now op };

    ghost writes = { λ asking op. asked_writing asking.script.now op };

    fn reading(&self, op: OpNo) -> Reading<'_>
        requires { IsReading self.now.script.now op }
        ensures { reading_view result ≡ asked_reading self.now.script.now op }
    {
        match self.script.act(op) {
            Act::ReadSome { size, .. } => Reading::Some { size: *size },
            Act::ReadAll { size, .. } => Reading::All { size: *size },
            Act::Until { delimiter, max, .. } => Reading::Until {
                delimiter: delimiter.as_slice(),
                max: *max,
            },
            _ => unreachable!(),
        }
    }

    fn writing(&self, op: OpNo) -> Writing<'_>
        requires { IsWriting self.now.script.now op }
        ensures bytes { writing_view result ≡ asked_writing self.now.script.now op }
        ensures countable { IsCountable (writing_view result) }
    {
        acts_fit(self.script);
        match self.script.act(op) {
            Act::WriteSome { bytes, .. } => Writing::Some {
                bytes: bytes.as_slice(),
            },
            Act::WriteAll { bytes, .. } => Writing::All {
                bytes: bytes.as_slice(),
            },
            _ => unreachable!(),
        }
    }
}
