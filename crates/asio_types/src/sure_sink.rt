ghost use Rattle.std.specs.Prelude.{◌≡◌, ◌<◌, ◌≤◌, [], length, take, IsOk, IfOk};
ghost use Rattle.asio_types.specs.Sink.{Extends, held_or_lost, told_unless_lost};

use crate::failure::{Failed, NoMemory};
use crate::kept::Kept;
use crate::sink::Sink;
use std::alloc::Global;
use std::marker::Model;

/// Memory as a sink that never fails. A write past its room is counted and lost; it tells its bytes
/// only while none was.
#[derive(Debug, Drop)]
pub struct SureSink {
    held: Kept,
    // how many writes found no room; the count stands still at its end
    lost: u64,
}

impl Model for SureSink {
    ghost use Rattle.asio_types.specs.Sink.{SureWriting};

    ghost Value = { SureWriting };

    ghost view = { λ s. record { held = s.held; lost = s.lost } };
}

impl SureSink {
    /// An empty sink with room for so many bytes.
    pub fn make(alloc: Global, room: u32) -> Result<SureSink, NoMemory>
        ensures empty { IfOk result (λ sink. sink.held ≡ record { bytes = []; room = room }) }
        ensures none_lost { IfOk result (λ sink. sink.lost ≡ 0) }
    {
        Ok(SureSink {
            held: Kept::make(alloc, room)?,
            lost: 0,
        })
    }

    /// What was written and found room.
    pub fn bytes(&self) -> &[u8]
        ensures { result.now ≡ self.now.held.bytes }
    {
        self.held.as_slice()
    }

    /// How many writes found no room; the count stands still at its type's end.
    pub fn lost(&self) -> u64
        ensures { result ≡ self.now.lost }
    {
        self.lost
    }
}

impl Sink for SureSink {
    ghost faults = { λ _. 0 };

    ghost written = { told_unless_lost };

    /// Takes all bytes; where they don't fit into the room, they are lost as one write.
    fn write(&mut self, bytes: &[u8]) -> Result<usize, Failed>
        requires { 0 < length bytes.now }
        ensures some { IfOk result (λ n. 0 < n) }
        ensures bound { IfOk result (λ n. n ≤ length bytes.now) }
        ensures appended { IfOk result (λ n.
            Extends (told_unless_lost self.old) (take n bytes.now) (told_unless_lost self.new)) }
        ensures sure { IsOk result }
        ensures whole { IfOk result (λ n. n ≡ length bytes.now) }
        ensures after { self.new ≡ held_or_lost bytes.now self.old }
    {
        if bytes.len() <= self.held.room() {
            return Ok(self.held.append(bytes, bytes.len()));
        }
        self.lost = self.lost.saturating_add(1);
        Ok(bytes.len())
    }
}
