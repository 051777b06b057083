ghost use Rattle.std.specs.Prelude.{◌≡◌, ◌<◌, ◌≤◌, ◌↔◌, [], length, take, min, Some, IfOk, IsErr, OnErr};
ghost use Rattle.asio_types.specs.Faults.{CountsFaults, one_more};
ghost use Rattle.asio_types.specs.Sink.{Extends, holding_more};

use crate::failure::{Failed, NoMemory};
use crate::kept::Kept;
use crate::sink::Sink;
use std::alloc::Global;
use std::marker::Model;

/// Memory as a sink that takes a few bytes at a time. It tells its bytes, and fails exactly where
/// its room is used up.
#[derive(Debug, Drop)]
pub struct SlowSink {
    held: Kept,
    // the most bytes that one call takes
    step: u32,
    // how many calls failed; the count stands still at its end
    faults: u64,
}

impl Model for SlowSink {
    ghost use Rattle.std.specs.Prelude.{◌<◌};
    ghost use Rattle.asio_types.specs.Sink.{SlowWriting};

    ghost Value = { SlowWriting };

    ghost view = { λ s. record { held = s.held; step = s.step; faults = s.faults } };

    ghost invariant = { λ s. 0 < s.step };
}

impl SlowSink {
    /// An empty sink with room for so many bytes that takes at most `step` of them at a time.
    pub fn make(alloc: Global, step: u32, room: u32) -> Result<SlowSink, NoMemory>
        requires { 0 < step }
        ensures empty { IfOk result (λ sink. sink.held ≡ record { bytes = []; room = room }) }
        ensures step { IfOk result (λ sink. sink.step ≡ step) }
        ensures faults { IfOk result (λ sink. sink.faults ≡ 0) }
    {
        Ok(SlowSink {
            held: Kept::make(alloc, room)?,
            step,
            faults: 0,
        })
    }

    /// What was written.
    pub fn bytes(&self) -> &[u8]
        ensures { result.now ≡ self.now.held.bytes }
    {
        self.held.as_slice()
    }
}

impl Sink for SlowSink {
    ghost faults = { λ s. s.faults };

    ghost written = { λ s. Some s.held.bytes };

    /// Takes the first bytes, as many as there is room for, but at most `step`. A failure leaves
    /// the bytes, and counts one fault.
    fn write(&mut self, bytes: &[u8]) -> Result<usize, Failed>
        requires { 0 < length bytes.now }
        ensures some { IfOk result (λ n. 0 < n) }
        ensures bound { IfOk result (λ n. n ≤ length bytes.now) }
        ensures appended { IfOk result (λ n.
            Extends (Some self.old.held.bytes) (take n bytes.now) (Some self.new.held.bytes)) }
        ensures unchanged { OnErr result
            (Extends (Some self.old.held.bytes) [] (Some self.new.held.bytes)) }
        ensures counts { CountsFaults result self.old.faults self.new.faults }
        ensures later { self.old.faults ≤ self.new.faults }
        ensures full { IsErr result ↔ (self.old.held.room ≡ 0) }
        ensures same { self.new.step ≡ self.old.step }
        ensures whole { IfOk result
            (λ n. n ≡ min self.old.step (min (length bytes.now) self.old.held.room)) }
        ensures held { IfOk result
            (λ n. self.new.held ≡ holding_more (take n bytes.now) self.old.held) }
        ensures failed { OnErr result
            (self.new ≡ record self.old { faults = one_more self.old.faults }) }
    {
        if self.held.room() == 0 {
            self.faults = self.faults.saturating_add(1);
            return Err(Failed);
        }
        Ok(self.held.append(bytes, self.step as usize))
    }
}
