ghost use Rattle.std.specs.Prelude.{None};

use asio_types::{Failed, Sink};
use std::cell::Cell;
use std::io::{ErrorKind, Write};

/// Whether the reader of standard output has gone away.
#[derive(Drop)]
pub(crate) struct PipeState {
    broken: Cell<bool>,
}

impl PipeState {
    pub(crate) fn whole() -> PipeState {
        PipeState {
            broken: Cell::new(false),
        }
    }

    pub(crate) fn is_broken(&self) -> bool {
        self.broken.get()
    }
}

/// A writer of std as a sink, which notes where it fails because its reader has gone away.
#[derive(Drop)]
pub(crate) struct PipeSink<'s, W> {
    inner: W,
    state: &'s PipeState,
    // how many errors were seen; the count stands still at its end
    faults: u64,
}

impl<'s, W> PipeSink<'s, W> {
    pub(crate) fn of(inner: W, state: &'s PipeState) -> PipeSink<'s, W> {
        PipeSink {
            inner,
            state,
            faults: 0,
        }
    }
}

impl<'s, W: Write> Sink for PipeSink<'s, W> {
    ghost faults = { λ s. s.faults };

    ghost written = { λ _. None };

    fn write(&mut self, bytes: &[u8]) -> Result<usize, Failed> {
        match self.inner.write(bytes) {
            Ok(n) if n > 0 => return Ok(n),
            Ok(_) => {}
            Err(error) => {
                if error.kind() == ErrorKind::BrokenPipe {
                    self.state.broken.set(true);
                }
            }
        }
        self.faults = self.faults.saturating_add(1);
        Err(Failed)
    }
}
