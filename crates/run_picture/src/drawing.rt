ghost use Rattle.std.specs.Prelude.{◌≡◌};
ghost use Rattle.asio_types.specs.Faults.{CountsFaults};

use asio_types::{Failed, Sink, write_all};
use itoa::Buffer;

/// Writes a number, in decimal.
pub(crate) fn number<K: Sink>(out: &mut K, number: u64) -> Result<(), Failed>
    ensures { CountsFaults result (K.faults out.old) (K.faults out.new) }
{
    write_all(out, Buffer::new().format(number).as_bytes())
}

/// Writes words.
pub(crate) fn words<K: Sink>(out: &mut K, words: &str) -> Result<(), Failed>
    ensures { CountsFaults result (K.faults out.old) (K.faults out.new) }
{
    write_all(out, words.as_bytes())
}

/// Writes words and a number behind them.
pub(crate) fn field<K: Sink>(out: &mut K, front: &str, value: u64) -> Result<(), Failed>
    ensures { CountsFaults result (K.faults out.old) (K.faults out.new) }
{
    words(out, front)?;
    number(out, value)
}

/// Writes a byte of a pattern, or the next of some numbers in the place of `@`.
fn piece<K: Sink>(out: &mut K, byte: u8, numbers: &[u64], next: usize) -> Result<(), Failed>
    ensures { CountsFaults result (K.faults out.old) (K.faults out.new) }
{
    if byte == b'@' {
        number(out, numbers.get(next).copied().unwrap_or(0))
    } else {
        write_all(out, &[byte])
    }
}

/// Writes a pattern with the next of these numbers for each `@`.
pub(crate) fn fill<K: Sink>(out: &mut K, pattern: &str, numbers: &[u64]) -> Result<(), Failed>
    ensures { CountsFaults result (K.faults out.old) (K.faults out.new) }
{
    let mut next = 0usize;
    for byte in pattern.as_bytes() {
        piece(out, *byte, numbers, next)?;
        if *byte == b'@' {
            next = next.saturating_add(1);
        }
    }
    Ok(())
}
