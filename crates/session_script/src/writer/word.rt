ghost use Rattle.std.specs.Prelude.{◌≡◌, ◌<◌, ◌++◌, ◌∷◌, OnOk};
ghost use Rattle.std.specs.Fmt.{decimal};
ghost use Rattle.session_script.specs.Spelling.{digit_of, encoded, data_text, number_or_dash};

use asio_types::NoMemory;
use itoa::Buffer;

/// A space and a word.
pub(crate) fn word(text: &[u8], out: &mut Vec<u8>) -> Result<(), NoMemory>
    ensures { OnOk result (out.new.items ≡ out.old.items ++ 32 ∷ text.now) }
{
    out.push(b' ')?;
    out.extend_from_slice(text)?;
    Ok(())
}

/// A number, without a leading zero.
pub(crate) fn number(n: u64, out: &mut Vec<u8>) -> Result<(), NoMemory>
    ensures { OnOk result (out.new.items ≡ out.old.items ++ 32 ∷ decimal n) }
{
    let mut buffer = Buffer::new();
    word(buffer.format(n).as_bytes(), out)
}

/// A number, or `-` for none.
pub(crate) fn number_or_dash(n: Option<u8>, out: &mut Vec<u8>) -> Result<(), NoMemory>
    ensures { OnOk result (out.new.items ≡ out.old.items ++ 32 ∷ number_or_dash n) }
{
    match n {
        Some(n) => number(n as u64, out),
        None => word(b"-", out),
    }
}

/// A hexadecimal digit.
fn digit_of(n: u8) -> u8
    requires { n < 16 }
    ensures { result ≡ digit_of n }
{
    if n < 10 { b'0' + n } else { b'a' - 10 + n }
}

/// The digits of bytes, two a byte.
fn digits(bytes: &[u8], out: &mut Vec<u8>) -> Result<(), NoMemory>
    ensures { OnOk result (out.new.items ≡ out.old.items ++ encoded bytes.now) }
{
    for byte in bytes {
        out.push(digit_of(*byte / 16))?;
        out.push(digit_of(*byte % 16))?;
    }
    Ok(())
}

/// Bytes as `x` and their digits.
pub(crate) fn data(bytes: &[u8], out: &mut Vec<u8>) -> Result<(), NoMemory>
    ensures { OnOk result (out.new.items ≡ out.old.items ++ 32 ∷ data_text bytes.now) }
{
    word(b"x", out)?;
    digits(bytes, out)
}
