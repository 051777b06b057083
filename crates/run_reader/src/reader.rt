ghost use Rattle.std.specs.Prelude.{◌≡◌, [], Ok, Err, true, false, IfOk};
ghost use Rattle.run_reader.specs.Buffer.{HasNoLineFeed, KeepsText};
ghost use Rattle.run_reader.specs.Reader.{BeginsTooLong, CountsReading, HasNoLastLineFeed, IsWhollyRead, TakesLine};

use crate::buffer::{Buffer, Sought};
use crate::fault::ReadFault;
use asio_types::{NoMemory, Source};
use std::alloc::Global;
use std::marker::Model;

/// The lines of a text that a source gives, one after another. It holds 65,536 bytes at most, which
/// are taken when it is made, and looks at each byte a few times. Contracts see the line that was
/// read last, without its line feed, and the bytes that are held behind it.
#[derive(Drop)]
pub struct LineReader {
    buffer: Buffer,
    // the length of the line with its line feed; 0 before the first one
    len: usize,
}

impl Model for LineReader {
    ghost use Rattle.std.specs.Prelude.{◌≤◌, ◌-◌, take, drop, length};
    ghost use Rattle.run_reader.specs.Reader.{Reading};

    ghost Value = { Reading };

    ghost view = { λ r. record { line = take (r.len - 1) r.buffer.bytes; held = drop r.len r.buffer.bytes } };

    ghost invariant = { λ r. r.len ≤ length r.buffer.bytes };
}

impl LineReader {
    /// A reader that has read nothing.
    pub fn make(alloc: Global) -> Result<LineReader, NoMemory>
        ensures line { IfOk result (λ reader. reader.line ≡ []) }
        ensures held { IfOk result (λ reader. reader.held ≡ []) }
    {
        let buffer = Buffer::make(alloc)?;
        Ok(LineReader { buffer, len: 0 })
    }

    /// The line that was read last, without its line feed.
    pub fn line(&self) -> &[u8]
        ensures { result.now ≡ self.now.line }
    {
        let held = self.buffer.held();
        &held[..self.len.saturating_sub(1)]
    }

    /// Reads the next line; `false` where all lines were read. After an error no line stands there;
    /// where the source failed, nothing that it told is lost.
    pub fn advance<S: Source>(&mut self, source: &mut S) -> Result<bool, ReadFault>
        ensures line { result ≡ Ok true →
            TakesLine self.old.held (S.left source.old) self.new.line self.new.held
            (S.left source.new) }
        ensures whole { result ≡ Ok true → HasNoLineFeed self.new.line }
        ensures end { result ≡ Ok false → IsWhollyRead self.old.held (S.left source.old) }
        ensures no_line_feed { result ≡ Err ReadFault.NoLineFeed →
            HasNoLastLineFeed self.old.held (S.left source.old) }
        ensures too_long { result ≡ Err ReadFault.TooLong →
            BeginsTooLong self.old.held (S.left source.old) }
        ensures counts { CountsReading result (S.faults source.old) (S.faults source.new) }
        ensures kept { result ≡ Err ReadFault.Failed →
            KeepsText self.old.held (S.left source.old) self.new.held (S.left source.new) }
    {
        self.buffer.consume(self.len);
        self.len = 0;
        let Ok(sought) = self.buffer.seek(source) else {
            return Err(ReadFault::Failed);
        };
        match sought {
            Sought::Line(at) => {
                self.len = at + 1;
                Ok(true)
            }
            Sought::End => Ok(false),
            Sought::Partial => Err(ReadFault::NoLineFeed),
            Sought::Full => Err(ReadFault::TooLong),
        }
    }
}
