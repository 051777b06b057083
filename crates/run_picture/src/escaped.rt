ghost use Rattle.std.specs.Prelude.{OnOk};
ghost use Rattle.asio_types.specs.Faults.{CountsFaults};
ghost use Rattle.asio_types.specs.Sink.{Extends};
ghost use Rattle.run_picture.specs.Escaped.{escaped, escaped_byte};

use asio_types::{Failed, Sink, write_all};

/// Writes a byte, as an entity where it marks up.
fn write_byte<K: Sink>(out: &mut K, byte: u8) -> Result<(), Failed>
    ensures written { OnOk result (Extends (K.written out.old) (escaped_byte byte) (K.written out.new)) }
    ensures counts { CountsFaults result (K.faults out.old) (K.faults out.new) }
{
    if byte == b'&' {
        write_all(out, b"&amp;")
    } else if byte == b'<' {
        write_all(out, b"&lt;")
    } else if byte == b'>' {
        write_all(out, b"&gt;")
    } else if byte == b'"' {
        write_all(out, b"&quot;")
    } else {
        write_all(out, &[byte])
    }
}

/// Writes a text of the run within XML.
pub(crate) fn write_escaped<K: Sink>(out: &mut K, text: &[u8]) -> Result<(), Failed>
    ensures written { OnOk result (Extends (K.written out.old) (escaped text.now) (K.written out.new)) }
    ensures counts { CountsFaults result (K.faults out.old) (K.faults out.new) }
{
    for byte in text {
        write_byte(out, *byte)?;
    }
    Ok(())
}
