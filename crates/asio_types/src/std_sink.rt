ghost use Rattle.std.specs.Prelude.{◌≡◌, ◌<◌, ◌≤◌, length, take, None, IfOk, OnErr};
ghost use Rattle.std.specs.Io.KnownBytes.{Appends, Keeps};
ghost use Rattle.asio_types.specs.Faults.{CountsFaults};

use crate::failure::Failed;
use crate::sink::Sink;
use std::io::Write;

/// A writer of std as a sink. It counts each error as a fault, and a write that takes no byte as
/// one, and asks the writer once a call. As a sink it tells nothing; what the writer holds grows as
/// the writer says.
#[derive(Debug, Drop)]
pub struct StdSink<W> {
    inner: W,
    // how many errors were seen; the count stands still at its end
    faults: u64,
}

impl<W> StdSink<W> {
    /// A sink that passes on this writer; no error was seen.
    pub fn of(inner: W) -> StdSink<W>
        ensures inner { result.inner ≡ inner }
        ensures faults { result.faults ≡ 0 }
    {
        StdSink { inner, faults: 0 }
    }
}

impl<W: Write> Sink for StdSink<W> {
    ghost faults = { λ s. s.faults };

    ghost written = { λ _. None };

    fn write(&mut self, bytes: &[u8]) -> Result<usize, Failed>
        ensures some { IfOk result (λ n. 0 < n) }
        ensures bound { IfOk result (λ n. n ≤ length bytes.now) }
        ensures passed_on { IfOk result (λ n.
            Appends (W.contents self.old.inner) (W.contents self.new.inner) (take n bytes.now)) }
        ensures kept { OnErr result
            (Keeps (W.contents self.old.inner) (W.contents self.new.inner)) }
        ensures counts { CountsFaults result self.old.faults self.new.faults }
        ensures later { self.old.faults ≤ self.new.faults }
    {
        match self.inner.write(bytes) {
            Ok(n) if n > 0 => Ok(n),
            _ => {
                self.faults = self.faults.saturating_add(1);
                Err(Failed)
            }
        }
    }
}
