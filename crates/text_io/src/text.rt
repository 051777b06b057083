ghost use Rattle.std.specs.Prelude.{◌≡◌, ◌≤◌, length, take, Err, IfOk, OnErr, vec_len};
ghost use Rattle.asio_types.specs.Faults.{CountsFaults};
ghost use Rattle.text_io.specs.Counts.{CountsFailures};
ghost use Rattle.text_io.specs.Text.{ReadsText, TakesSome};
ghost use Rattle.text_io.specs.Turns.{HasBrokenOff, HasReadOn};

use crate::unfinished::Unfinished;
use asio_types::{Failed, Source};
use std::alloc::Global;

/// Fills the buffer from the source as far as bytes come, and answers how many came. Each turn
/// takes at least one byte, save a last one.
fn fill<S: Source>(source: &mut S, buf: &mut [u8]) -> Result<usize, Failed>
    ensures bound { IfOk result (λ n. n ≤ length buf.new) }
    ensures text { IfOk result
        (λ n. ReadsText (length buf.old) (S.left source.old) (take n buf.new) (S.left source.new)) }
    ensures turns { IfOk result
        (λ n. HasReadOn S.left S.faults (length buf.old) n source.old source.new) }
    ensures failed { OnErr result
        (HasBrokenOff S.left S.faults (length buf.old) source.old source.new) }
    ensures some { TakesSome (length buf.old) (S.left source.old) (S.left source.new) }
    ensures counts { CountsFaults result (S.faults source.old) (S.faults source.new) }
{
    let mut len = 0;
    while len < buf.len() {
        let n = source.read(&mut buf[len..])?;
        if n == 0 {
            break;
        }
        len += n;
    }
    Ok(len)
}

/// Reads the source to its end, but no more than so many bytes. Takes room for them all first:
/// where memory runs out, nothing was read. After a failure some of the first bytes are gone. Each
/// time that the source is asked it gives at least one byte, save the last time.
pub fn read_text<S: Source>(
    alloc: Global,
    source: &mut S,
    most: usize,
) -> Result<Vec<u8>, Unfinished>
    ensures text { IfOk result
        (λ text. ReadsText most (S.left source.old) text.items (S.left source.new)) }
    ensures bound { IfOk result (λ text. vec_len text ≤ most) }
    ensures turns { IfOk result
        (λ text. HasReadOn S.left S.faults most (vec_len text) source.old source.new) }
    ensures failed { result ≡ Err Unfinished.Failed →
        HasBrokenOff S.left S.faults most source.old source.new }
    ensures some { TakesSome most (S.left source.old) (S.left source.new) }
    ensures unread { result ≡ Err Unfinished.NoMemory → source.new ≡ source.old }
    ensures counts { CountsFailures result (S.faults source.old) (S.faults source.new) }
{
    let Ok(mut text) = vec![in alloc; 0; most] else {
        return Err(Unfinished::NoMemory);
    };
    let Ok(len) = fill(source, text.as_mut_slice()) else {
        return Err(Unfinished::Failed);
    };
    text.truncate(len);
    Ok(text)
}
