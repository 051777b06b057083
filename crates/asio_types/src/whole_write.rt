ghost use Rattle.std.specs.Prelude.{◌≡◌, ◌≤◌, [], IsOk, IfOk, OnErr};
ghost use Rattle.asio_types.specs.Faults.{CountsFaults};
ghost use Rattle.asio_types.specs.Sink.{Extends, ExtendsByPart};

use crate::failure::Failed;
use crate::sink::Sink;

/// Writes all bytes into the sink, and offers what is left where it took a part. `Failed` comes
/// where a write of the sink failed, after which it is asked nothing more; it has then taken the
/// first bytes, perhaps none. No bytes ask nothing of the sink. Takes no memory.
pub fn write_all<K: Sink>(sink: &mut K, bytes: &[u8]) -> Result<(), Failed>
    ensures whole { IfOk result (λ _. Extends (K.written sink.old) bytes.now (K.written sink.new)) }
    ensures part { OnErr result
        (ExtendsByPart (K.written sink.old) bytes.now (K.written sink.new)) }
    ensures counts { CountsFaults result (K.faults sink.old) (K.faults sink.new) }
    ensures later { K.faults sink.old ≤ K.faults sink.new }
    ensures unasked { bytes.now ≡ [] → IsOk result × (sink.new ≡ sink.old) }
{
    let mut done = 0;
    while done < bytes.len() {
        done += sink.write(&bytes[done..])?;
    }
    Ok(())
}
