ghost use Rattle.std.specs.Prelude.{◌≡◌};

use crate::failure::Failed;
use crate::source::Source;
use std::io::Read;

/// A reader of std as a source. It tells the bytes that the reader tells, counts each error as a
/// fault, and asks the reader once a call.
#[derive(Debug, Drop)]
pub struct StdSource<R> {
    inner: R,
    // how many errors were seen; the count stands still at its end
    faults: u64,
}

impl<R> StdSource<R> {
    /// A source that passes on this reader; no error was seen.
    pub fn of(inner: R) -> StdSource<R>
        ensures inner { result.inner ≡ inner }
        ensures faults { result.faults ≡ 0 }
    {
        StdSource { inner, faults: 0 }
    }
}

impl<R: Read> Source for StdSource<R> {
    ghost faults = { λ s. s.faults };

    ghost left = { λ s. R.remaining s.inner };

    fn read(&mut self, buf: &mut [u8]) -> Result<usize, Failed> {
        match self.inner.read(buf) {
            Ok(n) => Ok(n),
            Err(_) => {
                self.faults = self.faults.saturating_add(1);
                Err(Failed)
            }
        }
    }
}
