ghost use Rattle.std.specs.Prelude.{◌≡◌, ◌<◌, ◌≤◌, [], length, take, IfOk, IsOk, OnErr, OnOk};
ghost use Rattle.asio_types.specs.Faults.{CountsFaults};
ghost use Rattle.asio_types.specs.Sink.{Extends, holding_more};
ghost use Rattle.text_io.specs.Buffering.{accepted, with_unsent};

use crate::unsent::Unsent;
use asio_types::{Failed, NoMemory, Sink};
use std::alloc::Global;
use std::marker::Model;

/// A sink behind a buffer, so that what is written piece by piece goes out some thousand bytes at a
/// time. As a sink it tells all that it accepted: what the sink behind it got and the buffer holds,
/// in this order. It fails where the sink behind it does, whose count of faults is its own.
///
/// What the buffer holds is lost where it isn't flushed.
#[derive(Drop)]
pub struct BufferedSink<K> {
    inner: K,
    unsent: Unsent,
}

impl<K> Model for BufferedSink<K> {
    ghost use Rattle.text_io.specs.Buffering.{Buffering};

    ghost Value = { Buffering K };

    ghost view = { λ s. record { inner = s.inner; unsent = s.unsent } };
}

/// Writes what isn't out into the sink. After a failure the sink got a first part of it, and the
/// rest is held.
fn write_out<K: Sink>(inner: &mut K, unsent: &mut Unsent) -> Result<(), Failed>
    ensures kept { Extends (with_unsent unsent.old (K.written inner.old)) []
        (with_unsent unsent.new (K.written inner.new)) }
    ensures all { OnOk result (unsent.new.bytes ≡ []) }
    ensures unasked { unsent.old.bytes ≡ [] →
        IsOk result × (inner.new ≡ inner.old) × (unsent.new ≡ unsent.old) }
    ensures counts { CountsFaults result (K.faults inner.old) (K.faults inner.new) }
    ensures later { K.faults inner.old ≤ K.faults inner.new }
{
    while !unsent.as_slice().is_empty() {
        let count = inner.write(unsent.as_slice())?;
        unsent.let_go(count);
    }
    Ok(())
}

impl<K: Drop> BufferedSink<K> {
    /// A sink with an empty buffer for so many bytes before this one.
    pub fn make(alloc: Global, inner: K, room: usize) -> Result<BufferedSink<K>, NoMemory>
        ensures inner { IfOk result (λ sink. sink.inner ≡ inner) }
        ensures empty { IfOk result (λ sink. sink.unsent ≡ record { bytes = []; room = room }) }
    {
        Ok(BufferedSink {
            inner,
            unsent: Unsent::make(alloc, room)?,
        })
    }
}

impl<K: Sink> BufferedSink<K> {
    /// Writes what the buffer holds. After it, where it doesn't fail, the sink behind has all that
    /// was accepted and the buffer is empty. `Failed` comes where that sink failed; what it didn't
    /// take stays in the buffer.
    pub fn flush(&mut self) -> Result<(), Failed>
        ensures kept { Extends (accepted K.written self.old) [] (accepted K.written self.new) }
        ensures all { OnOk result (self.new.unsent.bytes ≡ []) }
        ensures unasked { self.old.unsent.bytes ≡ [] → IsOk result × (self.new ≡ self.old) }
        ensures counts { CountsFaults result (K.faults self.old.inner) (K.faults self.new.inner) }
        ensures later { K.faults self.old.inner ≤ K.faults self.new.inner }
    {
        write_out(&mut self.inner, &mut self.unsent)
    }
}

impl<K: Sink> Sink for BufferedSink<K> {
    ghost faults = { λ s. K.faults s.inner };

    ghost written = { λ s. accepted K.written s };

    /// Holds the bytes where the buffer has room for them, after it was flushed if need be. Bytes
    /// for which an empty buffer has no room go to the sink behind it at once.
    fn write(&mut self, bytes: &[u8]) -> Result<usize, Failed>
        requires { 0 < length bytes.now }
        ensures some { IfOk result (λ n. 0 < n) }
        ensures bound { IfOk result (λ n. n ≤ length bytes.now) }
        ensures appended { IfOk result (λ n. Extends (accepted K.written self.old)
            (take n bytes.now) (accepted K.written self.new)) }
        ensures unchanged { OnErr result
            (Extends (accepted K.written self.old) [] (accepted K.written self.new)) }
        ensures counts { CountsFaults result (K.faults self.old.inner) (K.faults self.new.inner) }
        ensures later { K.faults self.old.inner ≤ K.faults self.new.inner }
        ensures held { length bytes.now ≤ self.old.unsent.room → IsOk result
            × (self.new ≡ record self.old { unsent = holding_more bytes.now self.old.unsent }) }
        ensures whole { length bytes.now ≤ self.old.unsent.room →
            IfOk result (λ n. n ≡ length bytes.now) }
    {
        if self.unsent.hold(bytes) {
            return Ok(bytes.len());
        }
        write_out(&mut self.inner, &mut self.unsent)?;
        if self.unsent.hold(bytes) {
            return Ok(bytes.len());
        }
        self.inner.write(bytes)
    }
}
